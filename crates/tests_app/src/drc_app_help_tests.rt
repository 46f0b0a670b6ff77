//! What `help` and `version` write: they read nothing, and help of all commands fits a screen.

use crate::runs::{NEVER, UNREAD, WRITE_FAILED, calls, leaves, prefix, run_line};
use drc_base::Sink;
use std::process::Abort;
use std::test::Fail;

/// The line of `version`, which tests/install compares with the file VERSION.
const VERSION: &[u8] = b"drc 2.3.0\n";

/// Lines of help, and how the first line of each begins.
static HELPS: [(&str, &[u8]); 8] = [
    ("help", b"drc COMMAND "),
    ("help enc", b"drc enc "),
    ("help dec", b"drc dec "),
    ("help info", b"drc info "),
    ("help gen", b"drc gen "),
    ("help recode", b"drc recode "),
    ("help verify", b"drc verify "),
    ("help kd", b"drc kd "),
];

/// The most lines and characters of a screen.
const SCREEN: (usize, usize) = (24, 80);

#[test]
fn help_is_of_the_command_that_is_asked_for(rt: HostRuntime) -> Result<(), Fail> {
    for (line, front) in HELPS.iter() {
        let done = run_line(rt.alloc(), line, b"", UNREAD)?;
        assert_eq!(rt; done.status, 0, "{line}");
        assert!(rt; done.output.held().starts_with(front));
        assert!(rt; done.output.held().ends_with(b"\n"));
        assert!(rt; done.notes.held().is_empty());
    }
    Ok(())
}

/// How many lines a text has, and how many bytes the longest of them.
fn extent(text: &[u8]) -> (usize, usize) {
    let (mut lines, mut longest, mut length) = (0usize, 0usize, 0usize);
    for byte in text {
        if *byte == b'\n' {
            lines = lines.saturating_add(1);
            longest = longest.max(length);
            length = 0;
        } else {
            length = length.saturating_add(1);
        }
    }
    (lines, longest)
}

#[test]
fn help_of_all_commands_fits_a_screen(rt: HostRuntime) -> Result<(), Fail> {
    let done = run_line(rt.alloc(), "help", b"", UNREAD)?;
    let (lines, longest) = extent(done.output.held());
    assert!(rt; 1 < lines && lines <= SCREEN.0);
    assert!(rt; longest <= SCREEN.1);
    Ok(())
}

#[test]
fn the_version_reads_nothing(rt: HostRuntime) -> Result<(), Fail> {
    leaves(&rt, "version", b"", UNREAD, (0, VERSION, b""))
}

#[test]
fn help_that_fails_keeps_a_prefix(rt: HostRuntime) -> Result<(), Fail> {
    let whole = run_line(rt.alloc(), "help kd", b"", UNREAD)?;
    let text = whole.output.held();
    for call in 0..calls(text, 16) {
        let kept = prefix(text, call, 16)?;
        leaves(
            &rt,
            "help kd",
            b"",
            [0, call, NEVER],
            (4, kept, WRITE_FAILED),
        )?;
    }
    Ok(())
}
