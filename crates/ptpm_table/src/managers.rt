//! The configured managers of a clock.

ghost use Rattle.std.specs.Prelude.{◌≡◌, ◌≤◌, None, length};
ghost use Rattle.ptpm_table.specs.Entries.{is_known};
ghost use Rattle.ptpm_table.specs.Managers.{block_refusal, has_twice, identities, most_managers, refusal_above, rights_in, slots_refusal};

use crate::error::TableError;
use ptpm_codec::PortIdentity;
use ptpm_data::Rights;

/// How many managers a table takes at most, if its slots lie in the value.
pub(crate) const MANAGERS: usize = 16;

/// How many managers a clock has at most. Then the slots of its table lie in a block of memory.
pub const MOST_MANAGERS: usize = 64;

/// Why these can't be the managers of a clock, if they can't: at most `MOST_MANAGERS`, each identity once.
pub fn managers_refusal(managers: &[(PortIdentity, Rights)]) -> Option<TableError>
    ensures refusal { result ≡ block_refusal (identities managers.now) }
    ensures few { result ≡ None → length managers.now ≤ MOST_MANAGERS }
{
    refusal_above(managers, MOST_MANAGERS)
}

/// Why no table of this many slots is made for these managers.
pub(crate) fn refusal(managers: &[(PortIdentity, Rights)], slots: usize) -> Option<TableError>
    ensures refusal { result ≡ slots_refusal slots (identities managers.now) }
    ensures few { result ≡ None → length managers.now ≤ most_managers slots }
{
    refusal_above(managers, slots.min(MANAGERS))
}

/// Why these are not the managers of a table that takes this many.
fn refusal_above(managers: &[(PortIdentity, Rights)], most: usize) -> Option<TableError>
    ensures refusal { result ≡ refusal_above most (identities managers.now) }
    ensures few { result ≡ None → length managers.now ≤ most }
{
    if managers.len() > most {
        Some(TableError::TooMany)
    } else if stands_twice(managers) {
        Some(TableError::Twice)
    } else {
        None
    }
}

fn stands_twice(managers: &[(PortIdentity, Rights)]) -> bool
    ensures { result ≡ has_twice (identities managers.now) }
{
    match managers {
        [] => false,
        [first, rest @ ..] => is_configured(rest, &first.0) || stands_twice(rest),
    }
}

/// Whether a manager is one of these.
pub(crate) fn is_configured(managers: &[(PortIdentity, Rights)], who: &PortIdentity) -> bool
    ensures { result ≡ is_known who.now (identities managers.now) }
{
    match managers {
        [] => false,
        [first, rest @ ..] => *who == first.0 || is_configured(rest, who),
    }
}

/// The rights of a manager; none for anyone else.
pub(crate) fn rights_of(managers: &[(PortIdentity, Rights)], who: &PortIdentity) -> Rights
    ensures { result ≡ rights_in managers.now who.now }
{
    match managers {
        [] => Rights::NONE,
        [first, rest @ ..] => {
            if *who == first.0 {
                first.1
            } else {
                rights_of(rest, who)
            }
        }
    }
}
