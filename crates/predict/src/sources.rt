//! Sources of corrections.

ghost use Rattle.std.specs.Prelude.{◌≡◌, ◌<◌, ◌∷◌, ℤ, List, length};

/// Corrections that are taken one after another, each once.
pub trait CorrectionSource: Drop {
    /// Those that are still to come.
    ghost left: { Self → List ℤ };

    /// How many are still to come.
    fn len(&self) -> usize
        ensures { result ≡ length (left self.now) };

    /// Takes the next one. It takes no memory.
    fn next(&mut self) -> i32
        requires { 0 < length (left self.old) }
        ensures { left self.old ≡ result ∷ left self.new };
}
