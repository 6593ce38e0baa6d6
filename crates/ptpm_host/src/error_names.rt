//! Names of managementErrorIds.

ghost use Rattle.std.specs.Prelude.{◌≡◌, option_map};
ghost use Rattle.ptpm_host.specs.ErrorNames.{error_name};

/// The standard's name of a managementErrorId, such as `WRONG_VALUE` (15.5.4.3, table 109); `None` if the standard names none.
#[tactic(auto, unfolding(crate::specs::AnswerNames::name_in))]
pub fn error_name(number: u16) -> Option<&'static str>
    ensures { option_map (λ name. name.now) result ≡ error_name number }
{
    match number {
        0x0001 => Some("RESPONSE_TOO_BIG"),
        0x0002 => Some("NO_SUCH_ID"),
        0x0003 => Some("WRONG_LENGTH"),
        0x0004 => Some("WRONG_VALUE"),
        0x0005 => Some("NOT_SETABLE"),
        0x0006 => Some("NOT_SUPPORTED"),
        0xfffe => Some("GENERAL_ERROR"),
        _ => None,
    }
}
