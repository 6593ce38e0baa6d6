//! Events as the lines of a script.

ghost use Rattle.std.specs.Prelude.{◌≡◌};
ghost use Rattle.ptpm_schedule.specs.EventText.{action_text};

use ptpm_codec::Action;
use ptpm_data::row;
use ptpm_manager::Ask;
use ptpm_script::Event;
use ptpm_text::Hexadecimal;
use std::fmt;

/// An event that prints as its line, without an end.
#[derive(Clone, Copy)]
pub(crate) struct EventText<'a>(pub &'a Event);

impl fmt::Display for EventText<'_> {
    ghost use Rattle.std.specs.Prelude.{Some};
    ghost use Rattle.ptpm_schedule.specs.EventText.{event_text};

    ghost output = { λ e. Some (event_text e.0.now) };

    fn fmt<W: fmt::Write>(&self, f: &mut fmt::Formatter<W>) -> fmt::Result {
        match self.0 {
            Event::Begin(session, ask) => write!(f, "begin {} {}", session.as_str(), AskText(ask)),
            Event::Send(session) => write!(f, "send {}", session.as_str()),
            Event::Resume(session, count) => write!(f, "resume {} {count}", session.as_str()),
            Event::Retune(session, domain) => write!(f, "retune {} {domain}", session.as_str()),
            Event::Deliver(frame) => write!(f, "deliver {frame}"),
            Event::Stranger(clock, port, octets) => {
                let octets = Hexadecimal(octets.as_slice());
                write!(f, "stranger {} {port} {octets}", clock.as_str())
            }
        }
    }
}

/// What is asked, as the words ACTION, ID, PORT and HEX.
#[derive(Clone, Copy)]
struct AskText<'a>(&'a Ask);

impl fmt::Display for AskText<'_> {
    ghost use Rattle.std.specs.Prelude.{Some};
    ghost use Rattle.ptpm_schedule.specs.EventText.{ask_text};

    ghost output = { λ a. Some (ask_text a.0.now) };

    #[tactic(auto, unfolding(crate::specs::EventText::ask_text))]
    fn fmt<W: fmt::Write>(&self, f: &mut fmt::Formatter<W>) -> fmt::Result {
        let ask = self.0;
        let (id, port) = (IdText(ask.id), PortText(ask.port));
        let octets = Hexadecimal(ask.octets.as_slice());
        write!(f, "{} {id} {port} {octets}", word_of(ask.action))
    }
}

/// A managementId by its name, or by four hexadecimal digits if the table of ids has none.
#[derive(Clone, Copy)]
struct IdText(u16);

impl fmt::Display for IdText {
    ghost use Rattle.std.specs.Prelude.{Some};
    ghost use Rattle.ptpm_data.specs.ManagementId.{row_of};
    ghost use Rattle.ptpm_schedule.specs.EventText.{id_text_by};

    ghost output = { λ i. Some (id_text_by (row_of i.0) i.0) };

    fn fmt<W: fmt::Write>(&self, f: &mut fmt::Formatter<W>) -> fmt::Result {
        match row(self.0) {
            Some(row) => f.write_str(row.name),
            None => write!(f, "{}", Hexadecimal(&self.0.to_be_bytes())),
        }
    }
}

/// A port, or `-` if none is named.
#[derive(Clone, Copy)]
struct PortText(Option<u16>);

impl fmt::Display for PortText {
    ghost use Rattle.std.specs.Prelude.{Some};
    ghost use Rattle.ptpm_schedule.specs.EventText.{port_text};

    ghost output = { λ p. Some (port_text p.0) };

    fn fmt<W: fmt::Write>(&self, f: &mut fmt::Formatter<W>) -> fmt::Result {
        match self.0 {
            Some(port) => write!(f, "{port}"),
            None => f.write_str("-"),
        }
    }
}

/// The word for the action of a request. No event that is read from a line has another.
fn word_of(action: Action) -> &'static str
    ensures { result.now ≡ action_text action }
{
    match action {
        Action::Set => "set",
        Action::Command => "command",
        Action::Get | Action::Response | Action::Acknowledge => "get",
    }
}
