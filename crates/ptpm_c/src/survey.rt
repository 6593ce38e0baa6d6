//! The calls of a survey for hosts in C, each one of `ptpm_host`.

ghost use Rattle.std.specs.Prelude.{◌≡◌, ◌≢◌, ◌≤◌, ◌++◌, ◌∷◌, [], ℕ, List, IfNone, IfSome, IsSomeAnd, None, Some, drop, length, slice_get, take};
ghost use Rattle.ptpm_codec.specs.Canonical.{canonical};
ghost use Rattle.ptpm_manager.specs.declared.receiving.Surveyed.{Surveyed};
ghost use Rattle.ptpm_manager.specs.Answers.{Answer, first_of_each_source, heard, surveyed_by};
ghost use Rattle.ptpm_manager.specs.Enquiry.{survey_message};
ghost use Rattle.ptpm_host.specs.declared.refusal.ReportRefusal.{ReportRefusal};
ghost use Rattle.ptpm_host.specs.declared.refusal.SendRefusal.{SendRefusal};
ghost use Rattle.ptpm_host.specs.declared.refusal.SessionRefusal.{SessionRefusal};
ghost use Rattle.ptpm_host.specs.declared.survey.HostedSurvey.{HostedSurvey};
ghost use Rattle.ptpm_host.specs.Numbers.{no_memory, no_survey, report_number, send_number, session_number, surveyed_number, outcome_number};
ghost use Rattle.ptpm_host.specs.Session.{message_refusal};
ghost use Rattle.ptpm_host.specs.Survey.{answer_refusal, source_of};
ghost use Rattle.ptpm_host.specs.SurveySettings.{enquiry_at, enquiry_of, survey_refusal, survey_refusal_at};
ghost use Rattle.ptpm_host.specs.ReportedOutcome.{reported_error, outcome_octets, reported_of};
ghost use Rattle.ptpm_c.specs.declared.kept.Hosted.TheVariants.{Nothing};
ghost use Rattle.ptpm_c.specs.Held.{held, survey_held};
ghost use Rattle.ptpm_c.specs.Survey.{HasSurveyed, IsAt};

use crate::handle::{Handle, held};
use crate::kept::Hosted;
use ptpm_host::{
    HostedSurvey, NO_MEMORY, NO_SURVEY, Source, SurveySettings, outcome_number, report_number,
    send_number, session_number, surveyed_number,
};
use std::alloc::Global;

/// Starts a survey in a handle, in place of what it holds: 0. If it is refused, answers the number of the refusal, and the
/// handle holds none.
#[unsafe(no_mangle)]
pub extern "C" fn ptpm_survey_start(
    alloc: Global,
    handle: &mut Handle,
    settings: &SurveySettings,
) -> u32
    ensures started { IfSome (survey_held handle.new.keeping)
        (λ s. (result ≡ 0) × IsAt s (enquiry_of settings.now) []) }
    ensures refused { IfNone (survey_held handle.new.keeping)
        ((1 ≤ result) × (held handle.new.keeping ≡ Nothing)) }
    ensures number { (e : SessionRefusal)
        → survey_refusal settings.now ≡ Some e
        → result ≡ session_number e }
    ensures memory { survey_refusal settings.now ≡ None → result ≢ 0 → result ≡ no_memory }
{
    handle.end(alloc);
    match HostedSurvey::start(alloc, settings) {
        Ok(survey) => put(alloc, handle, survey),
        Err(refusal) => session_number(refusal),
    }
}

/// Does what `ptpm_survey_start` does, only of the clock of this identity.
#[unsafe(no_mangle)]
pub extern "C" fn ptpm_survey_start_at(
    alloc: Global,
    handle: &mut Handle,
    settings: &SurveySettings,
    target: &[u8; 8],
) -> u32
    ensures started { IfSome (survey_held handle.new.keeping)
        (λ s. (result ≡ 0) × IsAt s (enquiry_at settings.now (record { 0 = target.now })) []) }
    ensures refused { IfNone (survey_held handle.new.keeping)
        ((1 ≤ result) × (held handle.new.keeping ≡ Nothing)) }
    ensures number { (e : SessionRefusal)
        → survey_refusal_at settings.now (record { 0 = target.now }) ≡ Some e
        → result ≡ session_number e }
    ensures memory { survey_refusal_at settings.now (record { 0 = target.now }) ≡ None
        → result ≢ 0
        → result ≡ no_memory }
{
    handle.end(alloc);
    match HostedSurvey::start_at(alloc, settings, target) {
        Ok(survey) => put(alloc, handle, survey),
        Err(refusal) => session_number(refusal),
    }
}

/// Puts a survey into a handle that holds nothing: 0, or the number of the refusal, and then the handle holds nothing.
fn put(alloc: Global, handle: &mut Handle, survey: HostedSurvey) -> u32
    requires { held handle.old.keeping ≡ Nothing }
    ensures put { IfSome (survey_held handle.new.keeping)
        (λ s. (result ≡ 0) × IsAt s survey.survey.enquiry survey.survey.answers) }
    ensures refused { IfNone (survey_held handle.new.keeping)
        ((result ≡ no_memory) × (held handle.new.keeping ≡ Nothing)) }
{
    let Ok(survey) = Box::new(alloc, survey) else {
        return NO_MEMORY;
    };
    match handle.put(alloc, Hosted::Survey(survey)) {
        Ok(()) => 0,
        Err(_) => NO_MEMORY,
    }
}

/// Leaves the GET at the head of `octets`, `size` octets: 0, or the number of the refusal. What follows them stays. Takes
/// no memory.
#[unsafe(no_mangle)]
pub extern "C" fn ptpm_survey_send(handle: &mut Handle, octets: &mut [u8], size: &mut usize) -> u32
    ensures kept { held handle.new.keeping ≡ held handle.old.keeping }
    ensures sent { (s : HostedSurvey)
        → survey_held handle.old.keeping ≡ Some s
        → message_refusal (length octets.old) ≡ None
        → (result ≡ 0) × (take size.new octets.new ≡ canonical (survey_message s.survey.enquiry)) }
    ensures within { size.new ≤ length octets.new }
    ensures behind { drop size.new octets.new ≡ drop size.new octets.old }
    ensures refused { (s : HostedSurvey) (e : SendRefusal)
        → survey_held handle.old.keeping ≡ Some s
        → message_refusal (length octets.old) ≡ Some e
        → (result ≡ send_number e) × (size.new ≡ 0) }
    ensures empty { survey_held handle.old.keeping ≡ None → (result ≡ no_survey) × (size.new ≡ 0) }
{
    *size = 0;
    held!(handle, Hosted::Survey(survey), NO_SURVEY);
    match survey.send(octets) {
        Ok(count) => {
            *size = count;
            0
        }
        Err(refusal) => send_number(refusal),
    }
}

/// What the survey makes of a datagram, as a number. If memory is refused, nothing changes.
#[unsafe(no_mangle)]
pub extern "C" fn ptpm_survey_receive(handle: &mut Handle, datagram: &[u8]) -> u32
    ensures surveyed { (s : HostedSurvey)
        → survey_held handle.old.keeping ≡ Some s
        → result ≢ no_memory
        → (result
        ≡ surveyed_number
        (surveyed_by s.survey.answers (heard s.survey.enquiry datagram.now)))
        × IsSomeAnd (survey_held handle.new.keeping) (λ t. HasSurveyed s datagram.now t) }
    // Answers that are the first of each source of some datagrams, are so with this one.
    ensures first { (s : HostedSurvey) (datagrams : List (List ℕ))
        → survey_held handle.old.keeping ≡ Some s
        → result ≢ no_memory
        → s.survey.answers ≡ first_of_each_source s.survey.enquiry datagrams
        → IsSomeAnd (survey_held handle.new.keeping)
        (λ t.
        t.survey.answers
        ≡ first_of_each_source s.survey.enquiry (datagrams ++ datagram.now ∷ [])) }
    ensures refused { (s : HostedSurvey)
        → survey_held handle.old.keeping ≡ Some s
        → result
        ≢ surveyed_number (surveyed_by s.survey.answers (heard s.survey.enquiry datagram.now))
        → (result ≡ no_memory)
        × ((surveyed_by s.survey.answers (heard s.survey.enquiry datagram.now) ≡ Surveyed.Taken)
        × (survey_held handle.new.keeping ≡ Some s)) }
    ensures empty { survey_held handle.old.keeping ≡ None
        → (result ≡ no_survey) × (held handle.new.keeping ≡ held handle.old.keeping) }
{
    held!(handle, Hosted::Survey(survey), NO_SURVEY);
    match survey.receive(datagram) {
        Ok(surveyed) => surveyed_number(surveyed),
        Err(_) => NO_MEMORY,
    }
}

/// How many answers are kept; 0 if the handle holds no survey. Takes no memory.
#[unsafe(no_mangle)]
pub extern "C" fn ptpm_survey_count(handle: &mut Handle) -> usize
    ensures kept { held handle.new.keeping ≡ held handle.old.keeping }
    ensures count { (s : HostedSurvey)
        → survey_held handle.old.keeping ≡ Some s
        → result ≡ length s.survey.answers }
    ensures empty { survey_held handle.old.keeping ≡ None → result ≡ 0 }
{
    held!(handle, Hosted::Survey(survey), 0);
    survey.count()
}

/// What the answer at a place says, as a number, and who gave it. Places are counted from 0. A dataField is left at the
/// head of `octets`, `size` octets, and a managementErrorId in `error`. If there is none, they are 0. What follows a
/// dataField stays. Takes no memory.
#[unsafe(no_mangle)]
pub extern "C" fn ptpm_survey_answer(
    handle: &mut Handle,
    place: usize,
    source: &mut Source,
    octets: &mut [u8],
    size: &mut usize,
    error: &mut u16,
) -> u32
    ensures kept { held handle.new.keeping ≡ held handle.old.keeping }
    ensures outcome { (s : HostedSurvey) (a : Answer)
        → survey_held handle.old.keeping ≡ Some s
        → slice_get s.survey.answers place ≡ Some a
        → answer_refusal (length octets.old) (slice_get s.survey.answers place) ≡ None
        → (result ≡ outcome_number (reported_of a.1)) × (take size.new octets.new ≡ outcome_octets a.1) }
    ensures who { (s : HostedSurvey) (a : Answer)
        → survey_held handle.old.keeping ≡ Some s
        → slice_get s.survey.answers place ≡ Some a
        → answer_refusal (length octets.old) (slice_get s.survey.answers place) ≡ None
        → (source.new ≡ source_of a.0) × (error.new ≡ reported_error (reported_of a.1)) }
    ensures within { size.new ≤ length octets.new }
    ensures behind { drop size.new octets.new ≡ drop size.new octets.old }
    ensures refused { (s : HostedSurvey) (e : ReportRefusal)
        → survey_held handle.old.keeping ≡ Some s
        → answer_refusal (length octets.old) (slice_get s.survey.answers place) ≡ Some e
        → (result ≡ report_number e)
        × ((size.new ≡ 0) × ((error.new ≡ 0) × (source.new ≡ source.old))) }
    ensures empty { survey_held handle.old.keeping ≡ None
        → (result ≡ no_survey)
        × ((size.new ≡ 0) × ((error.new ≡ 0) × (source.new ≡ source.old))) }
{
    *size = 0;
    *error = 0;
    held!(handle, Hosted::Survey(survey), NO_SURVEY);
    match survey.answer(place, octets) {
        Ok(answer) => {
            *source = answer.source;
            *size = answer.outcome.size();
            *error = answer.outcome.error();
            outcome_number(answer.outcome)
        }
        Err(refusal) => report_number(refusal),
    }
}

/// Ends what a handle holds, if it holds anything.
#[unsafe(no_mangle)]
pub extern "C" fn ptpm_survey_stop(alloc: Global, handle: &mut Handle)
    ensures { held handle.new.keeping ≡ Nothing }
{
    handle.end(alloc);
}
