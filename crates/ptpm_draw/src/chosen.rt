//! Which lines of a script are drawn.

ghost use Rattle.std.specs.Prelude.{◌≡◌};
ghost use Rattle.ptpm_draw.specs.Chosen.{is_chosen};

/// Which event lines are drawn: those of these numbers and between, counted from 1 after the divider.
#[derive(Clone, Copy)]
pub struct Chosen {
    pub from: u32,
    pub to: u32,
}

impl Chosen {
    /// Whether the line of a number is drawn.
    pub fn contains(&self, line: u32) -> bool
        ensures { result ≡ is_chosen self.now line }
    {
        self.from <= line && line <= self.to
    }
}
