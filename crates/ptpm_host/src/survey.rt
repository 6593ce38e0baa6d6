//! A survey, as a host keeps it.

ghost use Rattle.std.specs.Prelude.{◌≡◌, ◌≤◌, ◌++◌, ◌∷◌, [], ℕ, List, None, Some, IfOk, MatchResult, OnErr, OnOk, drop, length, slice_get, take};
ghost use Rattle.ptpm_codec.specs.Canonical.{canonical};
ghost use Rattle.ptpm_manager.specs.declared.receiving.Surveyed.{Surveyed};
ghost use Rattle.ptpm_manager.specs.Answers.{Answer, first_of_each_source, heard, kept_by, surveyed_by};
ghost use Rattle.ptpm_manager.specs.Enquiry.{survey_message};
ghost use Rattle.ptpm_host.specs.Session.{message_refusal};
ghost use Rattle.ptpm_host.specs.Survey.{answer_refusal, source_of};
ghost use Rattle.ptpm_host.specs.SurveySettings.{enquiry_at, enquiry_of, survey_refusal, survey_refusal_at};
ghost use Rattle.ptpm_host.specs.ReportedOutcome.{outcome_octets, reported_of, reported_size};

use crate::refusal::{ReportRefusal, SendRefusal, SessionRefusal};
use crate::reported_outcome::{ReportedOutcome, report_outcome};
use crate::settings::NO_IDENTITY;
use crate::survey_settings::SurveySettings;
use ptpm_codec::{Buffer, ClockIdentity, MESSAGE_OCTETS, OutOfMemory, PortIdentity};
use ptpm_manager::{Survey, Surveyed};
use std::alloc::Global;

/// One GET to every port of every clock, or of one, and the first answer of each port that answers.
#[derive(Drop)]
pub struct HostedSurvey {
    survey: Survey,
}

/// A portIdentity, as a host in C takes it over.
#[repr(C)]
#[derive(Clone, Copy)]
pub struct Source {
    pub clock: [u8; 8],
    pub port: u16,
}

const _: () = prove!(size_of::<Source>() == 10);

impl Source {
    fn of(identity: &PortIdentity) -> Source
        ensures { result ≡ source_of identity.now }
    {
        Source {
            clock: identity.clock.0,
            port: identity.port,
        }
    }
}

/// An answer to a survey.
#[derive(Clone, Copy)]
pub struct SurveyAnswer {
    /// The port that gave it.
    pub source: Source,
    pub outcome: ReportedOutcome,
}

impl HostedSurvey {
    /// A survey of every clock, without answers. Takes no memory.
    pub fn start(alloc: Global, settings: &SurveySettings) -> Result<HostedSurvey, SessionRefusal>
        ensures enquiry { IfOk result (λ s. s.survey.enquiry ≡ enquiry_of settings.now) }
        ensures answers { IfOk result (λ s. s.survey.answers ≡ []) }
        ensures first { IfOk result
            (λ s. s.survey.answers ≡ first_of_each_source s.survey.enquiry []) }
        ensures refusal { MatchResult result (λ _. survey_refusal settings.now ≡ None)
            (λ e. survey_refusal settings.now ≡ Some e) }
    {
        if settings.manager().clock == ClockIdentity::EVERY {
            return Err(SessionRefusal::ManagerIsEvery);
        }
        Ok(HostedSurvey::asking(alloc, settings, ClockIdentity::EVERY))
    }

    /// The same for only the clock of this identity: every port of it is asked, and what another clock says is no answer.
    /// Takes no memory.
    pub fn start_at(
        alloc: Global,
        settings: &SurveySettings,
        target: &[u8; 8],
    ) -> Result<HostedSurvey, SessionRefusal>
        ensures enquiry { IfOk result
            (λ s. s.survey.enquiry ≡ enquiry_at settings.now (record { 0 = target.now })) }
        ensures answers { IfOk result (λ s. s.survey.answers ≡ []) }
        ensures first { IfOk result
            (λ s. s.survey.answers ≡ first_of_each_source s.survey.enquiry []) }
        ensures refusal { MatchResult result
            (λ _. survey_refusal_at settings.now (record { 0 = target.now }) ≡ None)
            (λ e. survey_refusal_at settings.now (record { 0 = target.now }) ≡ Some e) }
    {
        let me = settings.manager().clock;
        let target = ClockIdentity(*target);
        if me == ClockIdentity::EVERY {
            return Err(SessionRefusal::ManagerIsEvery);
        }
        if target == ClockIdentity::EVERY {
            return Err(SessionRefusal::TargetIsEvery);
        }
        if me == target {
            return Err(SessionRefusal::SameClock);
        }
        if target == NO_IDENTITY {
            return Err(SessionRefusal::TargetIsZero);
        }
        Ok(HostedSurvey::asking(alloc, settings, target))
    }

    /// A survey of this clock, or of every clock, without answers.
    fn asking(alloc: Global, settings: &SurveySettings, target: ClockIdentity) -> HostedSurvey
        ensures enquiry { result.survey.enquiry ≡ enquiry_at settings.now target }
        ensures answers { result.survey.answers ≡ [] }
        ensures first { result.survey.answers ≡ first_of_each_source result.survey.enquiry [] }
    {
        HostedSurvey {
            survey: Survey::of_clock(
                alloc,
                settings.manager(),
                target,
                settings.domain,
                settings.number,
                settings.hops,
                settings.id,
            ),
        }
    }

    /// Leaves the GET at the head of `octets`, and answers how many octets it has, the same each time. What follows it
    /// stays. If there is too little room, nothing is written. Takes no memory.
    pub fn send(&self, octets: &mut [u8]) -> Result<usize, SendRefusal>
        ensures refusal { MatchResult result (λ _. message_refusal (length octets.old) ≡ None)
            (λ e. message_refusal (length octets.old) ≡ Some e) }
        ensures octets { IfOk result
            (λ n. take n octets.new ≡ canonical (survey_message self.now.survey.enquiry)) }
        ensures within { IfOk result (λ n. n ≤ length octets.new) }
        ensures behind { IfOk result (λ n. drop n octets.new ≡ drop n octets.old) }
        ensures size { length octets.new ≡ length octets.old }
        ensures untouched { OnErr result (octets.new ≡ octets.old) }
    {
        if octets.len() < MESSAGE_OCTETS {
            return Err(SendRefusal::NoRoom);
        }
        let mut buffer = Buffer::new();
        self.survey.send(&mut buffer);
        let message = buffer.as_slice();
        octets[..message.len()].copy_from_slice(message);
        Ok(message.len())
    }

    /// What the survey makes of a datagram: an answer is kept if it is the first of its port and there is room. Memory is
    /// asked only for that; if it is refused, nothing changes.
    pub fn receive(&mut self, datagram: &[u8]) -> Result<Surveyed, OutOfMemory>
        ensures surveyed { IfOk result
            (λ surveyed.
            surveyed
            ≡ surveyed_by self.old.survey.answers
            (heard self.old.survey.enquiry datagram.now)) }
        ensures kept { OnOk result
            (self.new.survey.answers
            ≡ kept_by self.old.survey.answers (heard self.old.survey.enquiry datagram.now)) }
        // If the answers are the first of each source of some datagrams, they are so with this one.
        ensures first { (datagrams : List (List ℕ))
            → self.old.survey.answers ≡ first_of_each_source self.old.survey.enquiry datagrams
            → OnOk result
            (self.new.survey.answers
            ≡ first_of_each_source self.old.survey.enquiry
            (datagrams ++ datagram.now ∷ [])) }
        ensures enquiry { self.new.survey.enquiry ≡ self.old.survey.enquiry }
        ensures memory { OnErr result
            (surveyed_by self.old.survey.answers (heard self.old.survey.enquiry datagram.now)
            ≡ Surveyed.Taken) }
        ensures unchanged { OnErr result (self.new ≡ self.old) }
    {
        self.survey.receive(datagram)
    }

    /// How many answers are kept, at most 16,384.
    pub fn count(&self) -> usize
        ensures { result ≡ length self.now.survey.answers }
    {
        self.survey.answers().len()
    }

    /// The answer at a place, counted from 0 in the order in which they came. A dataField is left at the head of `octets`, and
    /// what follows it stays. If it is refused, nothing is written. Takes no memory.
    pub fn answer(&self, place: usize, octets: &mut [u8]) -> Result<SurveyAnswer, ReportRefusal>
        ensures refusal { MatchResult result
            (λ _.
            answer_refusal (length octets.old) (slice_get self.now.survey.answers place) ≡ None)
            (λ e.
            answer_refusal (length octets.old) (slice_get self.now.survey.answers place)
            ≡ Some e) }
        ensures source { (a : Answer) → slice_get self.now.survey.answers place ≡ Some a →
            IfOk result (λ t. t.source ≡ source_of a.0) }
        ensures outcome { (a : Answer) → slice_get self.now.survey.answers place ≡ Some a →
            IfOk result (λ t. t.outcome ≡ reported_of a.1) }
        ensures octets { (a : Answer) → slice_get self.now.survey.answers place ≡ Some a →
            IfOk result (λ t. take (reported_size t.outcome) octets.new ≡ outcome_octets a.1) }
        ensures within { IfOk result (λ t. reported_size t.outcome ≤ length octets.new) }
        ensures behind { IfOk result
            (λ t. drop (reported_size t.outcome) octets.new ≡ drop (reported_size t.outcome) octets.old) }
        ensures size { length octets.new ≡ length octets.old }
        ensures untouched { OnErr result (octets.new ≡ octets.old) }
    {
        let Some((source, outcome)) = self.survey.answers().get_index(place) else {
            return Err(ReportRefusal::NoReport);
        };
        let outcome = report_outcome(outcome, octets)?;
        Ok(SurveyAnswer {
            source: Source::of(source),
            outcome,
        })
    }
}
