//! The predictions of octahedral values, each by its row of one table.

ghost use Rattle.std.specs.Prelude.{◌≡◌};
ghost use Rattle.attr_section.specs.Squared.{square_facts, square_prediction_of};
ghost use Rattle.attr_section.specs.WrittenSquares.{square_code, square_prediction_coded};

use attr_heads::OCTAHEDRAL_SINCE;

/// How octahedral values are predicted (Draco 1.5.5, prediction scheme methods).
#[derive(Clone, Copy, Debug, PartialEq, Eq)]
pub enum SquarePrediction {
    /// Not at all.
    Off,
    /// By the difference to the entry before.
    Difference,
    /// By the normals of the faces round each entry, over a surface.
    Normals,
}

/// What is known of a prediction of octahedral values.
#[derive(Clone, Copy, Debug)]
pub struct SquareFacts {
    /// Its byte in a stream.
    pub byte: u8,
    /// Whether values are restored from corrections.
    pub corrects: bool,
    /// Whether it takes positions, over a surface, and a flip for each entry.
    pub takes_positions: bool,
    /// The first profile of the stream that has it.
    pub since: u32,
}

impl SquarePrediction {
    /// The row of the prediction.
    pub fn facts(self) -> SquareFacts
        ensures { result ≡ square_facts self }
    {
        let (byte, corrects, takes_positions, since) = match self {
            SquarePrediction::Off => (254, false, false, OCTAHEDRAL_SINCE),
            SquarePrediction::Difference => (0, true, false, OCTAHEDRAL_SINCE),
            SquarePrediction::Normals => (6, true, true, OCTAHEDRAL_SINCE),
        };
        SquareFacts {
            byte,
            corrects,
            takes_positions,
            since,
        }
    }

    /// The prediction of a byte, where there is one.
    pub fn of_byte(byte: u8) -> Option<SquarePrediction>
        ensures { result ≡ square_prediction_of byte }
    {
        match byte {
            254 => Some(SquarePrediction::Off),
            0 => Some(SquarePrediction::Difference),
            6 => Some(SquarePrediction::Normals),
            _ => None,
        }
    }

    /// Its number, which is its byte with a sign.
    pub fn code(self) -> i8
        ensures { result ≡ square_code self }
    {
        self.facts().byte.cast_signed()
    }

    /// The prediction of a number, where there is one.
    pub fn of_code(code: i8) -> Option<SquarePrediction>
        ensures { result ≡ square_prediction_coded code }
    {
        match code {
            -2 => Some(SquarePrediction::Off),
            0 => Some(SquarePrediction::Difference),
            6 => Some(SquarePrediction::Normals),
            _ => None,
        }
    }
}
