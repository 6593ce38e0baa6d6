//! Which clock of a domain a table of the file names.

ghost use Rattle.std.specs.Prelude.{◌≡◌, count_by};
ghost use Rattle.std.specs.List.{find};
ghost use Rattle.std.specs.Option.{option_map};
ghost use Rattle.ptpm_plan.specs.Naming.{clock_called, clock_named, is_called, named_of};

use crate::answers::Answers;
use crate::surveyed::SurveyedClock;
use crate::wish::Target;
use ptpm_codec::ClockIdentity;

/// Which clock a table names.
#[derive(Clone, Copy)]
pub enum Named {
    One(ClockIdentity),
    /// This many clocks of the domain have the description: none, or several.
    Other(usize),
}

/// The clock that a target names among those that answered in a domain.
pub(crate) fn clock_named(
    clocks: &[SurveyedClock],
    answers: &Answers,
    domain: u8,
    target: &Target,
) -> Named
    ensures { result ≡ clock_named clocks.now answers.now.list.items domain target.now }
{
    match target {
        Target::Identity(identity) => Named::One(*identity),
        Target::Description(text) => {
            clock_called(clocks, answers, domain, text.as_str().as_bytes())
        }
    }
}

/// The clock of a domain that alone has a description.
#[tactic(auto, unfolding(crate::specs::Naming::clock_called))]
fn clock_called(clocks: &[SurveyedClock], answers: &Answers, domain: u8, text: &[u8]) -> Named
    ensures { result ≡ clock_called clocks.now answers.now.list.items domain text.now }
{
    let first = first_called(clocks, answers, domain, text);
    named_of(count_called(clocks, answers, domain, text), first)
}

/// How many clocks of a domain have a description.
fn count_called(clocks: &[SurveyedClock], answers: &Answers, domain: u8, text: &[u8]) -> usize
    ensures { result ≡ count_by (is_called answers.now.list.items domain text.now) clocks.now }
{
    clocks
        .iter()
        .filter(|clock| is_called(answers, domain, text, clock))
        .count()
}

/// The first clock of a domain that has a description.
fn first_called(
    clocks: &[SurveyedClock],
    answers: &Answers,
    domain: u8,
    text: &[u8],
) -> Option<ClockIdentity>
    ensures { result ≡ option_map (λ c. c.identity) (find (is_called answers.now.list.items domain text.now) clocks.now) }
{
    let first = clocks
        .iter()
        .find(|clock| is_called(answers, domain, text, clock))?;
    Some(first.identity)
}

/// Whether a clock is of a domain and has a description.
fn is_called(answers: &Answers, domain: u8, text: &[u8], clock: &SurveyedClock) -> bool
    ensures { result ≡ is_called answers.now.list.items domain text.now clock.now }
{
    if clock.domain != domain {
        return false;
    }
    match answers.description(domain, clock.identity) {
        Some(description) => description == text,
        None => false,
    }
}

/// The clock that is named, if it alone has the description.
fn named_of(count: usize, first: Option<ClockIdentity>) -> Named
    ensures { result ≡ named_of count first }
{
    match first {
        Some(clock) if count == 1 => Named::One(clock),
        _ => Named::Other(count),
    }
}
