//! The kinds of faults, one word each.

ghost use Rattle.std.specs.Prelude.{◌≡◌, ◌≤◌, length};
ghost use Rattle.drc_base.specs.Kind.{kind_word};

/// What is wrong with an input. A fault's `at` is the place of the item that shows it: the number of
/// bytes before the item, or for PLY text its line. Where connectivity is rebuilt it is the number of
/// the symbol, close or face, or the count that is wrong.
#[derive(Clone, Copy, Debug, PartialEq, Eq)]
pub enum Kind {
    /// The first five bytes aren't `DRACO`.
    Magic,
    /// The geometry type is neither cloud nor mesh.
    GeometryType,
    /// The version isn't the one of the geometry type.
    Version,
    /// A cloud of the kd-tree method.
    KdCloud,
    /// No method of the geometry type.
    Method,
    /// The metadata flag is set.
    Metadata,
    /// An item isn't whole.
    Short,
    /// A varint is too long or its value doesn't fit.
    Long,
    /// Too many faces.
    FaceLimit,
    /// Too many points or vertices.
    PointLimit,
    /// Too many attributes.
    AttrLimit,
    /// Too many coded values.
    ValueLimit,
    /// Too many symbols of one probability table.
    TableLimit,
    /// Too many bytes of input.
    InputLimit,
    /// A probability table without symbols.
    EmptyTable,
    /// A run of zero probabilities passes the end of its table.
    Run,
    /// The probabilities don't sum to the precision.
    Sum,
    /// The coded bytes don't hold a first state.
    BadStart,
    /// The probability of zero is 0.
    BadProb,
    /// No scheme of symbol blocks.
    Scheme,
    /// A bit length out of range.
    Length,
    /// No method of sequential indices.
    IndexMethod,
    /// An index isn't below the number of points.
    IndexRange,
    /// No accepted traversal of Edgebreaker.
    Traversal,
    /// A declared number above what it counts from.
    Count,
    /// A split event's numbers are out of range.
    EventDelta,
    /// No active side is left.
    NoActive,
    /// A side that is needed is glued already.
    Gone,
    /// C at a side that is alone in its loop.
    Alone,
    /// S at two sides one of which starts where the other ends.
    SamePoint,
    /// A split event whose source is passed.
    EventOrder,
    /// Two split events for one symbol.
    Taken,
    /// An interior start face whose loop isn't of three sides.
    Loop,
    /// Another number of faces than declared.
    FaceCount,
    /// More vertices than declared.
    VertexCount,
    /// A triangle with two equal vertices.
    Degenerate,
    /// A valence context without a symbol left.
    ContextEmpty,
    /// No Edgebreaker symbol.
    BadSymbol,
    /// No attribute.
    NoAttribute,
    /// An attribute data number that is out of range or used twice.
    DataId,
    /// No element type that fits.
    Element,
    /// No accepted walk.
    Walk,
    /// No attribute type.
    AttrType,
    /// No accepted data type.
    DataType,
    /// A number of components out of range.
    Components,
    /// Unquantised values.
    Generic,
    /// Octahedral normals.
    Octahedral,
    /// A coding that doesn't go with the data type.
    Coding,
    /// No accepted prediction.
    Prediction,
    /// No accepted prediction transform.
    Transform,
    /// A number of bytes per value out of range.
    ByteWidth,
    /// Too many flags of a prediction.
    FlagCount,
    /// A range that corrections can't wrap in.
    WrapRange,
    /// A prediction needs a flag where none is left.
    FlagsShort,
    /// A value outside its data type.
    ValueRange,
    /// A number of quantisation bits out of range.
    QuantBits,
    /// The first line isn't `ply`.
    PlyMagic,
    /// No `format ascii 1.0` line where it is due.
    PlyFormat,
    /// A header line that isn't one.
    PlyHeader,
    /// No accepted property type.
    PlyType,
    /// An element or property that doesn't stand where it may.
    PlyElement,
    /// A comment on attributes that breaks its rules.
    PlyAttr,
    /// Another number of tokens than a row has.
    PlyRow,
    /// A token that is no number of its type.
    PlyNumber,
    /// A face that isn't a triangle.
    PlyFace,
    /// A vertex index out of range.
    PlyIndex,
    /// The text ends too early.
    PlyShort,
    /// Text after the last row.
    PlyRest,
    /// An option that doesn't go with the method.
    Choice,
    /// Nothing to encode.
    Empty,
    /// The first attribute isn't the position.
    NoPosition,
    /// Values too far apart for a prediction.
    Range,
    /// A line of a map's text that isn't one.
    MapForm,
    /// A map of points for a mesh, or of faces for a cloud.
    MapKind,
    /// A map of another number of rows than the geometry has.
    MapCount,
    /// A row of a map that can't be turned back.
    BadMap,
    /// The first five bytes of a kd-tree file aren't `KDPTS`.
    KdMagic,
    /// The version of a kd-tree file isn't 1.
    KdVersion,
    /// Too many values of a kd-tree file.
    KdLimit,
    /// A component of more than 32 bits.
    KdBits,
    /// More points in a lower box than its box has.
    KdSplit,
    /// A mesh where a cloud is expected.
    KdMesh,
    /// A projection of texture coordinates that doesn't fit its numbers.
    Projection,
}

impl Kind {
    /// The kind's word, as notes spell it: at most twelve bytes of ASCII.
    #[tactic(auto, unfolding(crate::specs::Kind::kind_word))]
    pub fn word(self) -> &'static str
        ensures word { result.now ≡ kind_word self }
        ensures len { length result.now ≤ 12 }
    {
        match self {
            Kind::Magic => "Magic",
            Kind::GeometryType => "GeometryType",
            Kind::Version => "Version",
            Kind::KdCloud => "KdCloud",
            Kind::Method => "Method",
            Kind::Metadata => "Metadata",
            Kind::Short => "Short",
            Kind::Long => "Long",
            Kind::FaceLimit => "FaceLimit",
            Kind::PointLimit => "PointLimit",
            Kind::AttrLimit => "AttrLimit",
            Kind::ValueLimit => "ValueLimit",
            Kind::TableLimit => "TableLimit",
            Kind::InputLimit => "InputLimit",
            Kind::EmptyTable => "EmptyTable",
            Kind::Run => "Run",
            Kind::Sum => "Sum",
            Kind::BadStart => "BadStart",
            Kind::BadProb => "BadProb",
            Kind::Scheme => "Scheme",
            Kind::Length => "Length",
            Kind::IndexMethod => "IndexMethod",
            Kind::IndexRange => "IndexRange",
            Kind::Traversal => "Traversal",
            Kind::Count => "Count",
            Kind::EventDelta => "EventDelta",
            Kind::NoActive => "NoActive",
            Kind::Gone => "Gone",
            Kind::Alone => "Alone",
            Kind::SamePoint => "SamePoint",
            Kind::EventOrder => "EventOrder",
            Kind::Taken => "Taken",
            Kind::Loop => "Loop",
            Kind::FaceCount => "FaceCount",
            Kind::VertexCount => "VertexCount",
            Kind::Degenerate => "Degenerate",
            Kind::ContextEmpty => "ContextEmpty",
            Kind::BadSymbol => "BadSymbol",
            Kind::NoAttribute => "NoAttribute",
            Kind::DataId => "DataId",
            Kind::Element => "Element",
            Kind::Walk => "Walk",
            Kind::AttrType => "AttrType",
            Kind::DataType => "DataType",
            Kind::Components => "Components",
            Kind::Generic => "Generic",
            Kind::Octahedral => "Octahedral",
            Kind::Coding => "Coding",
            Kind::Prediction => "Prediction",
            Kind::Transform => "Transform",
            Kind::ByteWidth => "ByteWidth",
            Kind::FlagCount => "FlagCount",
            Kind::WrapRange => "WrapRange",
            Kind::FlagsShort => "FlagsShort",
            Kind::ValueRange => "ValueRange",
            Kind::QuantBits => "QuantBits",
            Kind::PlyMagic => "PlyMagic",
            Kind::PlyFormat => "PlyFormat",
            Kind::PlyHeader => "PlyHeader",
            Kind::PlyType => "PlyType",
            Kind::PlyElement => "PlyElement",
            Kind::PlyAttr => "PlyAttr",
            Kind::PlyRow => "PlyRow",
            Kind::PlyNumber => "PlyNumber",
            Kind::PlyFace => "PlyFace",
            Kind::PlyIndex => "PlyIndex",
            Kind::PlyShort => "PlyShort",
            Kind::PlyRest => "PlyRest",
            Kind::Choice => "Choice",
            Kind::Empty => "Empty",
            Kind::NoPosition => "NoPosition",
            Kind::Range => "Range",
            Kind::MapForm => "MapForm",
            Kind::MapKind => "MapKind",
            Kind::MapCount => "MapCount",
            Kind::BadMap => "BadMap",
            Kind::KdMagic => "KdMagic",
            Kind::KdVersion => "KdVersion",
            Kind::KdLimit => "KdLimit",
            Kind::KdBits => "KdBits",
            Kind::KdSplit => "KdSplit",
            Kind::KdMesh => "KdMesh",
            Kind::Projection => "Projection",
        }
    }
}
