//! What a request asks, by the names that texts have for it (this project's profile).

ghost use Rattle.std.specs.Prelude.{◌≡◌, IfSome};
ghost use Rattle.ptpm_codec.specs.Message.{IsRequestAction};
ghost use Rattle.ptpm_text.specs.RequestNames.{action_named, id_named};

use crate::numbers::four_digits;
use ptpm_codec::Action;
use ptpm_data::by_name;

/// The action that a word in lower case names: `get`, `set` or `command`.
pub fn action_named(word: &str) -> Option<Action>
    ensures action { result ≡ action_named word.now }
    ensures request { IfSome result (λ action. IsRequestAction action) }
{
    match word {
        "get" => Some(Action::Get),
        "set" => Some(Action::Set),
        "command" => Some(Action::Command),
        _ => None,
    }
}

/// The managementId that a word means. The word is a name of the table, for example `PRIORITY1`, or four hexadecimal
/// digits of either case.
#[tactic(auto, unfolding(crate::specs::RequestNames::id_named))]
pub fn id_named(word: &str) -> Option<u16>
    ensures { result ≡ id_named word.now }
{
    match by_name(word) {
        Some(row) => Some(row.id),
        None => four_digits(word),
    }
}
