//! A survey: one GET to every port of every clock, or of one, and the first answer of each port.

ghost use Rattle.std.specs.Prelude.{◌≡◌, ◌++◌, ◌∷◌, [], IfOk, List, OnErr, OnOk, ℕ};
ghost use Rattle.ptpm_codec.specs.Canonical.{canonical};
ghost use Rattle.ptpm_codec.specs.Identity.{every_clock};
ghost use Rattle.ptpm_codec.specs.Message.{Fits, IsValid};
ghost use Rattle.ptpm_manager.specs.declared.receiving.Surveyed.{Surveyed};
ghost use Rattle.ptpm_manager.specs.Answers.{first_of_each_source, heard, kept_by, surveyed_by};
ghost use Rattle.ptpm_manager.specs.Enquiry.{survey_message};

use crate::answers::keep;
use crate::enquiry::Enquiry;
use crate::receiving::Surveyed;
use crate::report::Outcome;
use indexmap::IndexMap;
use ptpm_codec::{Buffer, ClockIdentity, OutOfMemory, PortIdentity, encode};
use std::alloc::Global;
use std::marker::Model;

/// One GET to every port of every clock, or of one, and the first answer of each port that answers. Contracts see what it asks
/// and the list of its answers.
#[derive(Drop)]
pub struct Survey {
    alloc: Global,
    enquiry: Enquiry,
    answers: IndexMap<PortIdentity, Outcome>,
}

impl Model for Survey {
    ghost use Rattle.ptpm_manager.specs.Survey.{SurveyValue, survey_value};

    ghost Value = { SurveyValue };

    ghost view = { survey_value };
}

impl Survey {
    /// A survey of an id, with no answers. Its GET goes to every clock. It has this sequence number, and `hops` in both hop fields.
    /// Takes no memory.
    pub fn new(
        alloc: Global,
        me: PortIdentity,
        domain: u8,
        number: u16,
        hops: u8,
        id: u16,
    ) -> Survey
        ensures enquiry { result.enquiry
            ≡ record { me = me; target = every_clock; domain = domain; number = number; hops = hops; id = id } }
        ensures answers { result.answers ≡ [] }
        ensures first { result.answers ≡ first_of_each_source result.enquiry [] }
    {
        Survey::of_clock(alloc, me, ClockIdentity::EVERY, domain, number, hops, id)
    }

    /// The same of every port of one clock: no other clock is asked, and what another says is no answer. Takes no memory.
    #[tactic(auto, unfolding(crate::specs::Answers::first_of_each_source))]
    pub fn of_clock(
        alloc: Global,
        me: PortIdentity,
        target: ClockIdentity,
        domain: u8,
        number: u16,
        hops: u8,
        id: u16,
    ) -> Survey
        ensures enquiry { result.enquiry
            ≡ record { me = me; target = target; domain = domain; number = number; hops = hops; id = id } }
        ensures answers { result.answers ≡ [] }
        ensures first { result.answers ≡ first_of_each_source result.enquiry [] }
    {
        Survey {
            alloc,
            enquiry: Enquiry {
                me,
                target,
                domain,
                number,
                hops,
                id,
            },
            answers: IndexMap::new(alloc),
        }
    }

    /// Leaves the GET in the buffer. Takes no memory.
    pub fn send(&self, buffer: &mut Buffer)
        ensures octets { buffer.new.items ≡ canonical (survey_message self.now.enquiry) }
        ensures valid { IsValid (survey_message self.now.enquiry)
            × Fits (survey_message self.now.enquiry) }
    {
        encode(&self.enquiry.draft(), buffer);
    }

    /// The answers, each under the port that gave it, in the order in which they came.
    pub fn answers(&self) -> &IndexMap<PortIdentity, Outcome>
        ensures { result.now.entries ≡ self.now.answers }
    {
        &self.answers
    }

    /// Judges a datagram, and keeps its answer if it is the first of its port and there is room. Memory is asked only
    /// for that; if it is refused, the survey stays as it was.
    pub fn receive(&mut self, datagram: &[u8]) -> Result<Surveyed, OutOfMemory>
        ensures exact { IfOk result
            (λ surveyed.
            surveyed ≡ surveyed_by self.old.answers (heard self.old.enquiry datagram.now)) }
        ensures kept { OnOk result
            (self.new.answers ≡ kept_by self.old.answers (heard self.old.enquiry datagram.now)) }
        // Answers that are the first of each source of some datagrams, are so with this one.
        ensures first { (datagrams : List (List ℕ))
            → self.old.answers ≡ first_of_each_source self.old.enquiry datagrams
            → OnOk result
            (self.new.answers
            ≡ first_of_each_source self.old.enquiry (datagrams ++ datagram.now ∷ [])) }
        ensures enquiry { self.new.enquiry ≡ self.old.enquiry }
        ensures memory { OnErr result
            (surveyed_by self.old.answers (heard self.old.enquiry datagram.now) ≡ Surveyed.Taken) }
        ensures unchanged { OnErr result (self.new ≡ self.old) }
    {
        match self.enquiry.answer_in(datagram) {
            Ok(message) => keep(self.alloc, &mut self.answers, &message),
            Err(reason) => Ok(Surveyed::Ignored(reason)),
        }
    }
}
