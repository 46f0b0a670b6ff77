//! The kinds of faults as numbers: the place of each in the list of kinds. They are part of the interface, so
//! a new kind comes last.

ghost use Rattle.std.specs.Prelude.{◌≡◌, Some, slice_get};

use drc_base::Kind;

/// How many kinds there are.
const KIND_COUNT: usize = 83;

/// The kinds in the order of their numbers, which is that of their type.
pub const KINDS: [Kind; KIND_COUNT] = [
    Kind::Magic,
    Kind::GeometryType,
    Kind::Version,
    Kind::KdCloud,
    Kind::Method,
    Kind::Metadata,
    Kind::Short,
    Kind::Long,
    Kind::FaceLimit,
    Kind::PointLimit,
    Kind::AttrLimit,
    Kind::ValueLimit,
    Kind::TableLimit,
    Kind::InputLimit,
    Kind::EmptyTable,
    Kind::Run,
    Kind::Sum,
    Kind::BadStart,
    Kind::BadProb,
    Kind::Scheme,
    Kind::Length,
    Kind::IndexMethod,
    Kind::IndexRange,
    Kind::Traversal,
    Kind::Count,
    Kind::EventDelta,
    Kind::NoActive,
    Kind::Gone,
    Kind::Alone,
    Kind::SamePoint,
    Kind::EventOrder,
    Kind::Taken,
    Kind::Loop,
    Kind::FaceCount,
    Kind::VertexCount,
    Kind::Degenerate,
    Kind::ContextEmpty,
    Kind::BadSymbol,
    Kind::NoAttribute,
    Kind::DataId,
    Kind::Element,
    Kind::Walk,
    Kind::AttrType,
    Kind::DataType,
    Kind::Components,
    Kind::Generic,
    Kind::Octahedral,
    Kind::Coding,
    Kind::Prediction,
    Kind::Transform,
    Kind::ByteWidth,
    Kind::FlagCount,
    Kind::WrapRange,
    Kind::FlagsShort,
    Kind::ValueRange,
    Kind::QuantBits,
    Kind::PlyMagic,
    Kind::PlyFormat,
    Kind::PlyHeader,
    Kind::PlyType,
    Kind::PlyElement,
    Kind::PlyAttr,
    Kind::PlyRow,
    Kind::PlyNumber,
    Kind::PlyFace,
    Kind::PlyIndex,
    Kind::PlyShort,
    Kind::PlyRest,
    Kind::Choice,
    Kind::Empty,
    Kind::NoPosition,
    Kind::Range,
    Kind::MapForm,
    Kind::MapKind,
    Kind::MapCount,
    Kind::BadMap,
    Kind::KdMagic,
    Kind::KdVersion,
    Kind::KdLimit,
    Kind::KdBits,
    Kind::KdSplit,
    Kind::KdMesh,
    Kind::Projection,
];

/// The number of a kind.
pub fn number_of(kind: Kind) -> u32
    ensures { slice_get KINDS result ≡ Some kind }
{
    kind as u32
}

/// The kind at a place of a list, where there is one.
fn kind_at(kinds: &[Kind], place: u32) -> Option<Kind>
    ensures { result ≡ slice_get kinds.now place }
{
    kinds.get(place as usize).copied()
}

/// The kind of a number, where there is one.
pub fn kind_numbered(number: u32) -> Option<Kind>
    ensures { result ≡ slice_get KINDS number }
{
    kind_at(&KINDS, number)
}
