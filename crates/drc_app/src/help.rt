//! What `help` and `version` write.

ghost use Rattle.std.specs.Prelude.{◌≡◌};
ghost use Rattle.drc_app.specs.Help.{all_help, enc_help, dec_help, info_help, gen_help, recode_help, verify_help, kd_help, help_text, version_text};

/// What help is wanted of.
#[derive(Clone, Copy, Debug, PartialEq, Eq)]
pub enum HelpTopic {
    /// All commands.
    All,
    /// `enc`
    Enc,
    /// `dec`
    Dec,
    /// `info`
    Info,
    /// `gen`
    Gen,
    /// `recode`, also with `--restore`
    Recode,
    /// `verify`
    Verify,
    /// `kd enc` and `kd dec`
    Kd,
}

/// The version that the file `VERSION` has; its second number is that of the interface in C. tests/install
/// compares them.
#[tactic(auto, unfolding(crate::specs::Help::version_text))]
pub fn version_text() -> &'static str
    ensures { result.now ≡ version_text }
{
    "drc 2.3.0\n"
}

/// What a command takes, what it reads and writes; or all commands, on a screen of 24 lines of 80
/// characters.
pub fn help_text(topic: HelpTopic) -> &'static str
    ensures { result.now ≡ help_text topic }
{
    match topic {
        HelpTopic::All => all_help(),
        HelpTopic::Enc => enc_help(),
        HelpTopic::Dec => dec_help(),
        HelpTopic::Info => info_help(),
        HelpTopic::Gen => gen_help(),
        HelpTopic::Recode => recode_help(),
        HelpTopic::Verify => verify_help(),
        HelpTopic::Kd => kd_help(),
    }
}

/// Help of all commands, on a screen of 24 lines of 80 characters.
#[tactic(auto, unfolding(crate::specs::Help::all_help))]
fn all_help() -> &'static str
    ensures { result.now ≡ all_help }
{
    "\
drc COMMAND [OPTION ..] < INPUT > OUTPUT 2> NOTE

  enc               PLY text to a stream, a .drc file; the note is its map
  dec               a stream to PLY text
  info              a stream to a report of what it has
  recode            a stream to one coded in another way; the note is its map
  recode --restore  a map and a stream to a stream in the order before the map
  verify            a map, a text and a stream: whether the stream is the text
  gen               a mesh from a number: how many bytes each method gives
  kd enc            PLY text of a cloud to a kd-tree file; the note is its map
  kd dec            a kd-tree file to PLY text
  help              this text; help COMMAND: what a command takes and gives
  version           which version this is

COMMAND of help is enc, dec, info, gen, recode, verify or kd. Every command but
gen, help and version reads standard input. A line on standard error says what
was refused. With --profile 3 enc, dec, info, recode and verify also read
octahedral normals, and values that are predicted from positions.

Status: 0 done, 1 bad words, 2 the input is refused, 3 reading failed,
4 writing failed, 5 out of memory, 6 verify: not the same, 7 a word isn't UTF-8
"
}

/// Help of `enc`.
#[tactic(auto, unfolding(crate::specs::Help::enc_help))]
fn enc_help() -> &'static str
    ensures { result.now ≡ enc_help }
{
    "\
drc enc [OPTION ..] < TEXT > STREAM 2> MAP

Reads PLY text of integers, a mesh or a cloud, and writes a stream, a .drc file.
The note is the map: a line `map mesh N` or `map cloud N`, then a line for each
face of the stream, the number of the text's face and its turn; of a cloud for
each point of the stream, the number of the text's point and 0.

Options, in any order, each at most once:
  --method seq | eb | valence
      faces as indices, or a cloud; Edgebreaker; Edgebreaker by valence.
      Without it: eb for a mesh, seq for a cloud
  --index plain | packed
      each index by itself; differences in one block. Sequential meshes alone.
      Without it: plain
  --predict none | diff | para | multi | shape
      not at all; by the entry before; by a parallelogram; by the mean of up to
      four; by positions: normals by faces, texture coordinates by projection.
      The last three with Edgebreaker alone, shape with --profile 3 alone.
      Without it: diff for seq, else para
  --walk depth | degree
      entries depth first; by prediction degree. With Edgebreaker alone.
      Without it: depth
  --plain-values
      numbers as they are. Without it: in symbol blocks
  --profile 2 | 3
      which texts are read and which streams are written. Profile 3 adds
      octahedral normals, and --predict shape. Without it: 2
"
}

/// Help of `dec`.
#[tactic(auto, unfolding(crate::specs::Help::dec_help))]
fn dec_help() -> &'static str
    ensures { result.now ≡ dec_help }
{
    "\
drc dec < STREAM > TEXT

Reads a stream, a .drc file, and writes the PLY text of the mesh or cloud that
it means. Bytes after the stream's end are ignored. There is no note.

Option:
  --profile 2 | 3
      which streams are read. Profile 3 adds octahedral normals, and predictions
      of normals and texture coordinates from positions. Without it: 2
"
}

/// Help of `info`.
#[tactic(auto, unfolding(crate::specs::Help::info_help))]
fn info_help() -> &'static str
    ensures { result.now ≡ info_help }
{
    "\
drc info < STREAM > REPORT

Reads a stream, a .drc file, and writes what it has: version, kind and method;
the place of the connectivity; how many faces and points; of each attribute its
head, its prediction, how many entries it has and where they stand; where the
stream ends, and how many bytes follow. There is no note.

Option:
  --profile 2 | 3
      which streams are read. Profile 3 adds octahedral normals, and predictions
      of normals and texture coordinates from positions. Without it: 2
"
}

/// Help of `gen`.
#[tactic(auto, unfolding(crate::specs::Help::gen_help))]
fn gen_help() -> &'static str
    ensures { result.now ≡ gen_help }
{
    "\
drc gen KIND SIZE SEED > SUMMARY

Makes a mesh from these words, encodes it by each method with no other option,
and writes how many faces and points it has and how many bytes each method
gives. It reads nothing, and there is no note.

  KIND   grid, torus, holes, fans or seams
  SIZE   how many cells it has each way, 3 to 512
  SEED   0 to 18446744073709551615

Numbers are decimal, without a sign and without a leading zero.

It takes no options.
"
}

/// Help of `recode`, also with `--restore`.
#[tactic(auto, unfolding(crate::specs::Help::recode_help))]
fn recode_help() -> &'static str
    ensures { result.now ≡ recode_help }
{
    "\
drc recode [OPTION ..] < STREAM > STREAM 2> MAP

Reads a stream and writes one of the same geometry, coded as the options say.
The note is the map from its faces, or points, to those of the stream that was
read.

Options, in any order, each at most once. `drc help enc` says what they do:
  --method seq | eb | valence
  --index plain | packed
  --predict none | diff | para | multi | shape
  --walk depth | degree
  --plain-values
  --profile 2 | 3
      which streams are read and written; `drc help dec` says what 3 adds

drc recode --restore [--profile 2 | 3] < MAP-AND-STREAM > STREAM

Reads a map and, right behind it, the stream that it belongs to, and writes a
sequential stream in the order before the map. There is no note.

With --restore it takes --profile alone, behind it.
"
}

/// Help of `verify`.
#[tactic(auto, unfolding(crate::specs::Help::verify_help))]
fn verify_help() -> &'static str
    ensures { result.now ≡ verify_help }
{
    "\
drc verify [--surface] [--profile 2 | 3] < PARTS > YES

Reads a map, a line `ply N`, N bytes of PLY text, and a stream, and writes
`same ROWS` where the stream means the text's mesh, or cloud, by the map. Else
it writes nothing, the note says where they differ first, and the status is 6.

With --surface also the pairs of sides are compared that are glued in the stream
and in the text's mesh as enc pairs it.

With --profile 3, behind --surface, text and stream may have what came with
profile 3; with --profile 2, or without it, what profile 2 has.

It takes no other options.
"
}

/// Help of `kd enc` and `kd dec`.
#[tactic(auto, unfolding(crate::specs::Help::kd_help))]
fn kd_help() -> &'static str
    ensures { result.now ≡ kd_help }
{
    "\
drc kd enc < TEXT > FILE 2> MAP

Reads PLY text of a cloud and writes a kd-tree file, a form of this project,
which has the points in an order of its own. The note is the map of its points.

drc kd dec < FILE > TEXT

Reads a kd-tree file and writes the PLY text of the cloud that it means. There
is no note.

Neither takes options.
"
}
