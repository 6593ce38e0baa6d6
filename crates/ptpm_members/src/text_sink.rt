//! What a text is written to, piece by piece.

/// Takes a text in pieces, each of them after those before it. A piece is never refused: a sink that has no room for one leaves
/// it out, and knows that it did. So what is said of a sink holds whether there was room or not, which std's `fmt::Write` does
/// not say of a writer that fails.
pub trait TextSink {
    ghost use Rattle.std.specs.Prelude.{◌<◌, [], ◌∷◌, ◌++◌, ℕ, List};

    /// The second is the first after it took this text.
    ghost pushed: { Self → List ℕ → Self → Type 0 };

    fn push_str(&mut self, text: &str)
        ensures { pushed self.old text.now self.new };

    /// Takes a character of ASCII.
    fn push_ascii(&mut self, character: u8)
        requires { character < 128 }
        ensures { pushed self.old (character ∷ []) self.new };

    ghost pushed_none: { (s : Self) → pushed s [] s };

    ghost pushed_twice: { (r s t : Self) (a b : List ℕ) → pushed r a s → pushed s b t → pushed r (a ++ b) t };
}
