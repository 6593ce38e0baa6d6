//! What a SET takes for a member, in words.

ghost use Rattle.std.specs.Prelude.{◌≡◌, Some};
ghost use Rattle.ptpm_members.specs.Takes.{names_text, next_name, takes_text, unnamed_text};

use crate::formatted::Formatted;
use crate::forms::Form;
use crate::number_names::Enumeration;
use crate::text_sink::TextSink;
use crate::value_text::push_named;
use std::fmt;

/// What a SET takes for a member of this form, in words: `no value` if no SET has such a member.
#[derive(Clone, Copy)]
pub struct Takes(pub Form);

impl Takes {
    /// Puts the words in a sink.
    #[tactic(auto, unfolding(crate::specs::Takes::takes_text))]
    pub fn push_into<T: TextSink>(self, sink: &mut T)
        ensures { T.pushed sink.old (takes_text self.0) sink.new }
    {
        match self.0 {
            Form::Named(Enumeration::DelayMechanism) => {
                push_names(Enumeration::DelayMechanism, sink);
                sink.push_str(" or a number from 0 to 255");
            }
            form => sink.push_str(unnamed_text(form)),
        }
    }
}

impl fmt::Display for Takes {
    ghost output = { λ takes. Some (takes_text takes.0) };

    fn fmt<W: fmt::Write>(&self, f: &mut fmt::Formatter<W>) -> fmt::Result {
        let mut sink = Formatted {
            formatter: f,
            result: Ok(()),
        };
        self.push_into(&mut sink);
        sink.result
    }
}

/// The names of an enumeration, with a comma between two of them.
fn push_names<T: TextSink>(enumeration: Enumeration, sink: &mut T)
    ensures { T.pushed sink.old (names_text enumeration) sink.new }
{
    if let [first, others @ ..] = enumeration.named_numbers() {
        push_named(enumeration, *first, sink);
        for number in others {
            push_next_name(enumeration, *number, sink);
        }
    }
}

/// A name after another one.
#[tactic(auto, unfolding(crate::specs::Takes::next_name))]
fn push_next_name<T: TextSink>(enumeration: Enumeration, number: u8, sink: &mut T)
    ensures { T.pushed sink.old (next_name enumeration number) sink.new }
{
    sink.push_str(", ");
    push_named(enumeration, number, sink);
}

/// What is taken for a member whose numbers have no names.
fn unnamed_text(form: Form) -> &'static str
    ensures { result.now ≡ unnamed_text form }
{
    match form {
        Form::Unsigned(1) | Form::Hexadecimal(1) => {
            "a number from 0 to 255, or 0x and two hexadecimal digits"
        }
        Form::Signed(1) => "a number from -128 to 127",
        Form::Signed(2) => "a number from -32768 to 32767",
        Form::Flag(_) | Form::EitherFlag => "true or false",
        Form::LowNibble => "a number from 0 to 15, or 0x and two hexadecimal digits",
        Form::Text => "a text of at most 128 octets in UTF-8",
        _ => "no value",
    }
}
