//! The options of command lines. They take no memory.

ghost use Rattle.std.specs.Prelude.{◌≡◌};
ghost use Rattle.drc_container.specs.choice.Predicts.{predict_word};
ghost use Rattle.drc_app.specs.Options.{no_choice, none_chosen, method_word, index_word, walk_word, profile_words, option_row, option_word};
ghost use Rattle.drc_app.specs.Options.{profile_of, needs_three, goes_together, may_stand};
ghost use Rattle.drc_app.specs.Progress.{behind_kind, option_read, valued, with_value};
ghost use Rattle.drc_app.specs.Words.{value_named};

use crate::words::{Worded, named};
use drc_base::{PROFILE_THREE, PROFILE_TWO, Profile};
use drc_container::{Choice, Index, Method, Predict, Walk};

/// The methods that can be chosen.
const METHODS: [Method; 3] = [Method::Seq, Method::Eb, Method::Valence];

/// How indices can be written.
const INDICES: [Index; 2] = [Index::Plain, Index::Packed];

/// The orders of entries.
const WALKS: [Walk; 2] = [Walk::Depth, Walk::Degree];

impl Worded for Method {
    ghost spelling = { method_word };

    fn word(self) -> &'static str {
        match self {
            Method::Seq => "seq",
            Method::Eb => "eb",
            Method::Valence => "valence",
        }
    }
}

impl Worded for Index {
    ghost spelling = { index_word };

    fn word(self) -> &'static str {
        match self {
            Index::Plain => "plain",
            Index::Packed => "packed",
        }
    }
}

impl Worded for Predict {
    ghost spelling = { predict_word };

    fn word(self) -> &'static str {
        Predict::word(self)
    }
}

impl Worded for Walk {
    ghost spelling = { walk_word };

    fn word(self) -> &'static str {
        match self {
            Walk::Depth => "depth",
            Walk::Degree => "degree",
        }
    }
}

/// An option that takes a value.
#[derive(Clone, Copy, Debug, PartialEq, Eq)]
pub enum ValueOption {
    /// `--method`
    Method,
    /// `--index`
    Index,
    /// `--predict`
    Predict,
    /// `--walk`
    Walk,
    /// `--profile`
    Profile,
}

/// An option of a command line.
#[derive(Clone, Copy, Debug, PartialEq, Eq)]
pub enum LineOption {
    /// One that takes a value.
    Valued(ValueOption),
    /// `--plain-values`
    PlainValues,
}

/// What the options of a line choose.
#[derive(Clone, Copy, Debug, PartialEq, Eq)]
pub struct LineChoice {
    /// How a geometry is coded.
    pub coding: Choice,
    /// The profile in which a stream or a text is read, and a stream is written; without one it is profile 2.
    pub profile: Option<Profile>,
}

/// The options of the commands that encode.
pub static CODING_OPTIONS: [LineOption; 6] = [
    LineOption::Valued(ValueOption::Method),
    LineOption::Valued(ValueOption::Index),
    LineOption::Valued(ValueOption::Predict),
    LineOption::Valued(ValueOption::Walk),
    LineOption::PlainValues,
    LineOption::Valued(ValueOption::Profile),
];

/// The options of the other commands that read a stream.
pub static READING_OPTIONS: [LineOption; 1] = [LineOption::Valued(ValueOption::Profile)];

impl Worded for LineOption {
    ghost spelling = { option_word };

    fn word(self) -> &'static str {
        match self {
            LineOption::Valued(ValueOption::Method) => "--method",
            LineOption::Valued(ValueOption::Index) => "--index",
            LineOption::Valued(ValueOption::Predict) => "--predict",
            LineOption::Valued(ValueOption::Walk) => "--walk",
            LineOption::Valued(ValueOption::Profile) => "--profile",
            LineOption::PlainValues => "--plain-values",
        }
    }
}

/// What no option chooses of the coding: the one choice of which every field is written.
pub fn no_choice() -> Choice
    ensures { result ≡ no_choice }
{
    Choice {
        method: None,
        index: None,
        predict: None,
        walk: None,
        plain_values: false,
    }
}

/// What a line without options chooses.
pub fn none_chosen() -> LineChoice
    ensures { result ≡ none_chosen }
{
    LineChoice {
        coding: no_choice(),
        profile: None,
    }
}

/// The profile of a line: the one that it chooses, else profile 2.
pub fn profile_of(choice: LineChoice) -> Profile
    ensures { result ≡ profile_of choice }
{
    match choice.profile {
        Some(profile) => profile,
        None => PROFILE_TWO,
    }
}

/// The profile of this word, its number.
fn profile_named(word: &str) -> Option<Profile>
    ensures { result ≡ value_named profile_words word.now }
{
    match word {
        "2" => Some(PROFILE_TWO),
        "3" => Some(PROFILE_THREE),
        _ => None,
    }
}

/// Whether a choice has an option.
fn has_option(choice: LineChoice, option: LineOption) -> bool
    ensures { result ≡ (option_row option).has choice }
{
    match option {
        LineOption::Valued(ValueOption::Method) => choice.coding.method.is_some(),
        LineOption::Valued(ValueOption::Index) => choice.coding.index.is_some(),
        LineOption::Valued(ValueOption::Predict) => choice.coding.predict.is_some(),
        LineOption::Valued(ValueOption::Walk) => choice.coding.walk.is_some(),
        LineOption::Valued(ValueOption::Profile) => choice.profile.is_some(),
        LineOption::PlainValues => choice.coding.plain_values,
    }
}

/// The choice behind an option, and the option whose value is due, where it takes one.
fn entered(choice: LineChoice, option: LineOption) -> (LineChoice, Option<ValueOption>)
    ensures { result ≡ behind_kind (option_row option).takes choice }
{
    let mut choice = choice;
    match option {
        LineOption::Valued(option) => (choice, Some(option)),
        LineOption::PlainValues => {
            choice.coding.plain_values = true;
            (choice, None)
        }
    }
}

/// The choice behind the option of this word, and the option whose value is due, where it takes one.
/// None, if it is none of these options or the choice has it.
pub fn option_read(
    options: &[LineOption],
    choice: LineChoice,
    word: &str,
) -> Option<(LineChoice, Option<ValueOption>)>
    ensures { result ≡ option_read options.now choice word.now }
{
    let option = named(options, word)?;
    if has_option(choice, option) {
        return None;
    }
    Some(entered(choice, option))
}

/// Whether what is chosen of predictions needs profile 3: a prediction from positions.
fn needs_three(choice: LineChoice) -> bool
    ensures { result ≡ needs_three choice }
{
    match choice.coding.predict {
        Some(predict) => predict.takes_texture(),
        None => false,
    }
}

/// Whether the options of a choice go together: where predictions need profile 3, it is chosen.
pub fn goes_together(choice: LineChoice) -> bool
    ensures { result ≡ goes_together choice }
{
    !needs_three(choice) || profile_of(choice).has(u32::from(PROFILE_THREE.number))
}

/// Whether the options of a choice may stand in one line, in which others may follow: where predictions need profile 3,
/// no other is chosen.
fn may_stand(choice: LineChoice) -> bool
    ensures { result ≡ may_stand choice }
{
    choice.profile.is_none() || goes_together(choice)
}

/// The choice with the value of this word for an option, where it may stand beside the others.
pub fn with_value(choice: LineChoice, option: ValueOption, word: &str) -> Option<LineChoice>
    ensures { result ≡ with_value choice option word.now }
{
    let valued = valued(choice, option, word)?;
    if may_stand(valued) {
        Some(valued)
    } else {
        None
    }
}

/// The choice with the value of this word for an option.
#[tactic(auto, using(crate::proofs::Tables::named_naming))]
fn valued(choice: LineChoice, option: ValueOption, word: &str) -> Option<LineChoice>
    ensures { result ≡ valued choice option word.now }
{
    let mut choice = choice;
    match option {
        ValueOption::Method => choice.coding.method = Some(named(&METHODS, word)?),
        ValueOption::Index => choice.coding.index = Some(named(&INDICES, word)?),
        ValueOption::Predict => choice.coding.predict = Some(named(&Predict::all(), word)?),
        ValueOption::Walk => choice.coding.walk = Some(named(&WALKS, word)?),
        ValueOption::Profile => choice.profile = Some(profile_named(word)?),
    }
    Some(choice)
}
