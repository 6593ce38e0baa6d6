//! The answers that clocks gave, in the order in which they came. The last one counts.

ghost use Rattle.std.specs.Prelude.{◌≡◌, ◌++◌, OnOk, []};
ghost use Rattle.std.specs.Option.{option_copied, option_map, option_to_list};
ghost use Rattle.ptpm_plan.specs.Answers.{answer_in, description_by, is_answer_of, is_of, last_answer, text_in, text_said};

use crate::answer::{Answer, Said};
use ptpm_codec::{ClockIdentity, is_ptp_text, text_of_ptp_text, view};
use std::alloc::{AllocError, Global};

/// managementId of USER_DESCRIPTION.
const USER_DESCRIPTION: u16 = 0x0002;

/// All answers of a survey.
#[derive(Drop)]
pub struct Answers {
    pub list: Vec<Answer>,
    /// How many answers came for which the program that asked had no room.
    pub left_out: u64,
}

impl Answers {
    /// No answers.
    pub fn new(alloc: Global) -> Answers
        ensures { result.list.items ≡ [] }
    {
        Answers {
            list: Vec::new(alloc),
            left_out: 0,
        }
    }

    /// Takes the answer that a datagram has. A datagram without one is passed over.
    pub fn take(&mut self, datagram: &[u8]) -> Result<(), AllocError>
        ensures { OnOk result (self.new.list.items ≡ self.old.list.items ++ option_to_list (answer_in datagram.now)) }
    {
        if let Some(answer) = answer_in(datagram) {
            self.list.push(answer)?;
        }
        Ok(())
    }

    /// What a clock answered last for an id, of this port if the number is not 0.
    pub fn last(&self, domain: u8, clock: ClockIdentity, port: u16, id: u16) -> Option<&Answer>
        ensures { option_copied result ≡ last_answer domain clock port id self.now.list.items }
    {
        self.list
            .iter()
            .rev()
            .find(|answer| is_of(answer, domain, clock, port, id))
    }

    /// The text of a clock's userDescription, if it answered with it.
    pub fn description(&self, domain: u8, clock: ClockIdentity) -> Option<&[u8]>
        ensures { option_map (λ t. t.now) result ≡ description_by domain clock self.now.list.items }
    {
        text_said(&self.last(domain, clock, 0, USER_DESCRIPTION)?.said)
    }
}

/// The text of a dataField that is a PTPText (5.3.9).
fn text_said(said: &Said) -> Option<&[u8]>
    ensures { option_map (λ t. t.now) result ≡ text_said said.now }
{
    match said {
        Said::Is(field) => text_in(field.as_slice()),
        Said::Refused(_) => None,
    }
}

/// The text that octets are, if they are a PTPText.
pub(crate) fn text_in(octets: &[u8]) -> Option<&[u8]>
    ensures { option_map (λ t. t.now) result ≡ text_in octets.now }
{
    if is_ptp_text(octets) {
        Some(text_of_ptp_text(octets))
    } else {
        None
    }
}

/// The answer that a datagram has.
fn answer_in(datagram: &[u8]) -> Option<Answer>
    ensures { result ≡ answer_in datagram.now }
{
    Answer::of(&view(datagram).ok()?)
}

/// Whether an answer is of a clock of a domain.
pub(crate) fn is_answer_of(answer: &Answer, domain: u8, clock: ClockIdentity) -> bool
    ensures { result ≡ is_answer_of domain clock answer.now }
{
    answer.domain == domain && answer.source.clock == clock
}

/// Whether an answer is of a clock of a domain and for an id, and of this port if the number is not 0.
fn is_of(answer: &Answer, domain: u8, clock: ClockIdentity, port: u16, id: u16) -> bool
    ensures { result ≡ is_of domain clock port id answer.now }
{
    is_answer_of(answer, domain, clock)
        && answer.id == id
        && (port == 0 || answer.source.port == port)
}
