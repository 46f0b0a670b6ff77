//! The predictions of attribute values, each by its row of one table.

ghost use Rattle.std.specs.Prelude.{◌≡◌, ◌==◌, find};
ghost use Rattle.std.specs.Str.{bytes_eq};
ghost use Rattle.predict.specs.Schemes.{facts, prediction_word, predictions, byte_of, code_of, prediction_of, prediction_coded, prediction_worded};

/// How values are predicted (Draco Bitstream Specification 2.2, section "Prediction Decoder").
#[derive(Clone, Copy, Debug, PartialEq, Eq)]
pub enum Prediction {
    /// Not at all.
    Off,
    /// By the difference to the entry before.
    Difference,
    /// By the parallelogram across a side, over a surface.
    Parallelogram,
    /// By the mean of those parallelograms round a vertex that flags keep, over a surface: constrained
    /// multi-parallelogram prediction.
    Multi,
}

/// What stands behind the corrections of a prediction, beside the range of its values.
#[derive(Clone, Copy, Debug)]
pub enum Behind {
    /// Nothing.
    Nothing,
    /// So many lists of flags, before the range.
    FlagLists(u32),
}

/// What is known of a prediction.
#[derive(Clone, Copy, Debug)]
pub struct Facts {
    /// Its byte in a stream.
    pub byte: u8,
    /// Whether values are restored from corrections.
    pub corrects: bool,
    /// Whether values stand on a surface.
    pub needs_surface: bool,
    /// What stands behind the corrections.
    pub behind: Behind,
    /// The first profile of the stream that has it.
    pub since: u32,
}

impl Prediction {
    /// All predictions.
    pub fn all() -> [Prediction; 4]
        ensures { result ≡ predictions }
    {
        [
            Prediction::Off,
            Prediction::Difference,
            Prediction::Parallelogram,
            Prediction::Multi,
        ]
    }

    /// The row of the prediction.
    pub fn facts(self) -> Facts
        ensures { result ≡ facts self }
    {
        let (byte, corrects, needs_surface, behind, since) = match self {
            Prediction::Off => (254, false, false, Behind::Nothing, 1),
            Prediction::Difference => (0, true, false, Behind::Nothing, 1),
            Prediction::Parallelogram => (1, true, true, Behind::Nothing, 1),
            Prediction::Multi => (4, true, true, Behind::FlagLists(4), 2),
        };
        Facts {
            byte,
            corrects,
            needs_surface,
            behind,
            since,
        }
    }

    /// The word of the prediction on the command line.
    pub fn word(self) -> &'static str
        ensures { result.now ≡ prediction_word self }
    {
        match self {
            Prediction::Off => "none",
            Prediction::Difference => "diff",
            Prediction::Parallelogram => "para",
            Prediction::Multi => "multi",
        }
    }

    /// The number of the prediction: its byte with a sign.
    pub fn code(self) -> i8
        ensures { result ≡ code_of self }
    {
        self.facts().byte.cast_signed()
    }

    /// Whether this is the word of the prediction.
    fn has_word(self, word: &str) -> bool
        ensures { result ≡ bytes_eq (prediction_word self) word.now }
    {
        self.word() == word
    }

    /// The prediction of a byte, where there is one.
    pub fn of_byte(byte: u8) -> Option<Prediction>
        ensures { result ≡ prediction_of byte }
    {
        Prediction::all()
            .into_iter()
            .find(|q| q.facts().byte == byte)
    }

    /// The prediction of a number, where there is one.
    pub fn of_code(code: i8) -> Option<Prediction>
        ensures { result ≡ prediction_coded code }
    {
        Prediction::of_byte(code.cast_unsigned())
    }

    /// The prediction of a word, where there is one.
    pub fn named(word: &str) -> Option<Prediction>
        ensures { result ≡ prediction_worded word.now }
    {
        Prediction::all().into_iter().find(|q| q.has_word(word))
    }
}
