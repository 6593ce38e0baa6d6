//! The keys that the tables of a plan file may have.

ghost use Rattle.std.specs.Prelude.{◌≡◌, option_map, string_bytes};
ghost use Rattle.std.specs.Option.{option_copied};
ghost use Rattle.toml.specs.View.{table_view};
ghost use Rattle.ptpm_plan.specs.FileText.{has_id, is_key, is_own_key, names_id, other_key};

use crate::change::PlannedId;
use toml::Table;

/// managementId of USER_DESCRIPTION.
const USER_DESCRIPTION: u16 = 0x0002;

/// What a table of a plan file is of.
#[derive(Clone, Copy, PartialEq, Eq)]
pub(crate) enum TableKind {
    /// The file itself.
    File,
    Clock,
    /// Every clock: of these no plan sets the USER_DESCRIPTION.
    EveryClock,
    Port,
    EveryPort,
    /// The members of UTC_PROPERTIES.
    UtcProperties,
}

/// The first key that a table of this kind may not have.
pub(crate) fn other_key(table: &Table, kind: TableKind) -> Option<&String>
    ensures { option_map string_bytes (option_copied result) ≡ other_key kind (table_view table.now) }
{
    for key in table.keys() {
        if !is_key(kind, key.as_str()) {
            return Some(key);
        }
    }
    None
}

/// Whether a table may have a key.
fn is_key(kind: TableKind, key: &str) -> bool
    ensures { result ≡ is_key kind key.now }
{
    is_own_key(kind, key) || names_id(kind, key)
}

/// Whether a key is the name of an id that such a table may have.
fn names_id(kind: TableKind, key: &str) -> bool
    ensures { result ≡ names_id kind key.now }
{
    PlannedId::ALL
        .iter()
        .any(|id| has_id(kind, *id) && id.name() == key)
}

/// Whether a key is one of the table that is no managementId.
fn is_own_key(kind: TableKind, key: &str) -> bool
    ensures { result ≡ is_own_key kind key.now }
{
    match kind {
        TableKind::File => key == "version" || key == "clock" || key == "every",
        TableKind::Clock => {
            key == "identity"
                || key == "description"
                || key == "alias"
                || key == "domain"
                || key == "port"
        }
        TableKind::EveryClock => {
            key == "domain" || key == "clocks" || key == "except" || key == "port"
        }
        TableKind::Port => key == "number",
        TableKind::EveryPort => false,
        TableKind::UtcProperties => {
            key == "currentUtcOffset"
                || key == "leap61"
                || key == "leap59"
                || key == "currentUtcOffsetValid"
        }
    }
}

/// Whether such a table may have an id.
fn has_id(kind: TableKind, id: PlannedId) -> bool
    ensures { result ≡ has_id kind id }
{
    match kind {
        TableKind::Clock => !id.is_of_port(),
        TableKind::EveryClock => !id.is_of_port() && id.number() != USER_DESCRIPTION,
        TableKind::Port | TableKind::EveryPort => id.is_of_port(),
        TableKind::File | TableKind::UtcProperties => false,
    }
}
