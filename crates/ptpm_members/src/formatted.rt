//! A formatter that takes a text in pieces.

ghost use Rattle.std.specs.Prelude.{◌≡◌};
ghost use Rattle.ptpm_members.specs.Formatted.{HasPushed};

use crate::text_sink::TextSink;
use std::fmt;

/// A formatter, and whether it took all pieces. After the first write that fails it leaves out what comes.
#[derive(Drop)]
pub(crate) struct Formatted<'a, W> {
    pub(crate) formatter: &'a mut fmt::Formatter<W>,
    pub(crate) result: fmt::Result,
}

impl<W: fmt::Write> TextSink for Formatted<'_, W> {
    ghost use Rattle.ptpm_members.specs.Formatted.{has_pushed_none, has_pushed_twice};

    ghost pushed = { HasPushed W.write_str_gives };

    ghost pushed_none = { has_pushed_none W.write_str_gives };

    ghost pushed_twice = { has_pushed_twice W.write_str_gives };

    fn push_str(&mut self, text: &str) {
        if self.result.is_ok() {
            self.result = self.formatter.write_str(text);
        }
    }

    fn push_ascii(&mut self, character: u8) {
        if self.result.is_ok() {
            self.result = self.formatter.write_char(char::from(character));
        }
    }
}
