//! The decoders of a stream that are still to be read. What was made of a surface for one decoder is kept as long as another may use it,
//! so that less memory is held at once. What is read doesn't depend on it.

use attr_section::DecoderHead;

/// How many decoders are still to be read, by what their values stand on.
#[derive(Clone, Copy, Debug)]
pub struct Ahead {
    /// On the stream's surface, ordered depth first.
    depth_first: u32,
    /// On the stream's surface, ordered by prediction degree.
    by_degree: u32,
    /// On a surface that is cut at seams.
    cut: u32,
}

/// Whether the values of a decoder stand on a surface that is cut at seams.
fn is_cut(decoder: &DecoderHead) -> bool {
    decoder.corner && decoder.data_id.is_some()
}

impl Ahead {
    /// All of these decoders.
    pub fn of(decoders: &[DecoderHead]) -> Ahead {
        let mut ahead = Ahead {
            depth_first: 0,
            by_degree: 0,
            cut: 0,
        };
        for decoder in decoders {
            ahead = ahead.with(decoder);
        }
        ahead
    }

    /// One more decoder.
    fn with(self, decoder: &DecoderHead) -> Ahead {
        let mut ahead = self;
        if is_cut(decoder) {
            ahead.cut = self.cut.saturating_add(1);
        } else if decoder.degree {
            ahead.by_degree = self.by_degree.saturating_add(1);
        } else {
            ahead.depth_first = self.depth_first.saturating_add(1);
        }
        ahead
    }

    /// Passes a decoder, and says whether another may stand where it does: on the stream's surface in the same order, or on a surface that
    /// is cut.
    pub fn pass(&mut self, decoder: &DecoderHead) -> bool {
        if is_cut(decoder) {
            self.cut = self.cut.saturating_sub(1);
            return self.cut > 0;
        }
        if decoder.degree {
            self.by_degree = self.by_degree.saturating_sub(1);
            return self.by_degree > 0;
        }
        self.depth_first = self.depth_first.saturating_sub(1);
        self.depth_first > 0
    }
}
