//! What no contract can say: that the report is given with ample memory, and that its lines are the ones
//! meant, on streams that were worked by hand.

use crate::profile_three::{FOLDED, NORMALS};
use drc_base::{Fault, Kind, PROFILE_THREE, PROFILE_TWO, Refusal};
use drc_info::report;
use std::process::Abort;
use std::test::Fail;
use worked_surfaces::streams::{FACE, TRIANGLE};

const TRIANGLE_REPORT: &str = "drc 2.2 mesh seq
connectivity 11 6
faces 1
points 3
attr 0 0 5 3 0 0 predict -2 entries 3 at 25
end 64 rest 0
";

/// A cloud of two points with quantised texture coordinates and a colour, and two bytes behind it.
const CLOUD: [u8; 57] = [
    0x44, 0x52, 0x41, 0x43, 0x4f, 2, 3, 0, 0, 0, 0, 2, 0, 0, 0, 1, 2, 3, 9, 2, 1, 7, 2, 2, 1, 0, 9,
    2, 1, 0xfe, 0, 1, 0, 2, 4, 6, 0xfe, 0, 1, 8, 10, 0, 0, 0, 0, 0, 0, 0x80, 0x3f, 0, 0, 0x80,
    0x40, 8, 0xff, 0xff, 0xff,
];

const CLOUD_REPORT: &str = "drc 2.3 cloud seq
connectivity 11 4
faces 0
points 2
attr 0 3 9 2 1 7 predict -2 entries 2 at 29
attr 1 2 2 1 0 9 predict -2 entries 2 at 36
end 54 rest 3
";

const FACE_REPORT: &str = "drc 2.2 mesh eb
connectivity 11 12
faces 1
points 3
symbols 1 splits 0 events 0
attr 0 0 5 3 0 0 predict 1 entries 3 at 34
end 55 rest 0
";

/// Streams and their reports.
static REPORTS: [(&[u8], &str); 3] = [
    (&TRIANGLE, TRIANGLE_REPORT),
    (&CLOUD, CLOUD_REPORT),
    (&FACE, FACE_REPORT),
];

#[test]
fn reports_of_streams(rt: HostRuntime) -> Result<(), Fail> {
    for (bytes, text) in REPORTS.iter() {
        let given = report(rt.alloc(), bytes, PROFILE_TWO)?;
        assert_eq!(rt; given.as_slice(), text.as_bytes());
    }
    Ok(())
}

const NORMALS_REPORT: &str = "drc 2.3 cloud seq
connectivity 11 4
faces 0
points 3
attr 0 1 9 2 0 0 predict 0 entries 3 at 23
end 42 rest 0
";

const FOLDED_REPORT: &str = "drc 2.2 mesh eb
connectivity 11 15
faces 2
points 4
symbols 2 splits 0 events 0
attr 0 0 5 3 0 0 predict 1 entries 4 at 47
attr 1 1 9 2 0 1 predict 6 entries 4 at 71
end 96 rest 0
";

#[test]
fn reports_of_octahedral_attributes(rt: HostRuntime) -> Result<(), Fail> {
    let given = report(rt.alloc(), &NORMALS, PROFILE_THREE)?;
    assert_eq!(rt; given.as_slice(), NORMALS_REPORT.as_bytes());
    let given = report(rt.alloc(), &FOLDED, PROFILE_THREE)?;
    assert_eq!(rt; given.as_slice(), FOLDED_REPORT.as_bytes());
    is_refused(&rt, &NORMALS, Kind::Octahedral, 22);
    Ok(())
}

/// A stream has no report, for this fault.
fn is_refused(rt: &(impl Abort + AllocGlobal), bytes: &[u8], kind: Kind, at: u64) {
    let given = report(rt.alloc(), bytes, PROFILE_TWO).err();
    assert!(rt; given == Some(Refusal::Fault(Fault { kind, at })));
}

#[test]
fn faults_of_streams(rt: HostRuntime) {
    is_refused(&rt, &TRIANGLE[..4], Kind::Short, 0);
    is_refused(&rt, &TRIANGLE[..20], Kind::Short, 20);
    is_refused(&rt, &TRIANGLE[1..], Kind::Magic, 0);
    is_refused(&rt, &CLOUD[..53], Kind::Short, 53);
}
