//! The keys of a network file's tables, and what they may hold (this project's profile).

ghost use Rattle.std.specs.Prelude.{◌≡◌, map};
ghost use Rattle.toml.specs.View.{view};
ghost use Rattle.ptpm_script.specs.Rules.{clock_rules, file_rules, fits, key_rule, kind_of, port_rules, session_rules};

use crate::names::is_name;
use crate::spellings::{clock_identity, port_identity};
use toml::Value;

const U8: Kind = Kind::Whole(0, 0xff);

const U16: Kind = Kind::Whole(0, 0xffff);

const I8: Kind = Kind::Whole(-0x80, 0x7f);

const I16: Kind = Kind::Whole(-0x8000, 0x7fff);

const I32: Kind = Kind::Whole(-0x8000_0000, 0x7fff_ffff);

const I64: Kind = Kind::Whole(i64::MIN, i64::MAX);

/// What a key may hold.
#[derive(Clone, Copy, Debug)]
pub enum Kind {
    /// A whole number, from the first to the second.
    Whole(i64, i64),
    /// True or false.
    Flag,
    /// Any text.
    Text,
    /// A name of a clock or a session.
    Name,
    /// A clockIdentity, not all ones.
    Clock,
    /// A portIdentity whose clock is not all ones, with a port up to this.
    Port(u16),
    /// An array. What it may hold is judged as its elements are read.
    Array,
}

/// A key of a table.
#[derive(Clone, Copy, Debug)]
pub struct Rule {
    pub key: &'static str,
    pub kind: Kind,
    /// Whether a table without the key is refused.
    pub is_required: bool,
}

/// A key that a table must have.
macro_rules! required {
    ($key:literal, $kind:expr) => {
        Rule { key: $key, kind: $kind, is_required: true }
    };
}

/// A key that a table may have.
macro_rules! optional {
    ($key:literal, $kind:expr) => {
        Rule { key: $key, kind: $kind, is_required: false }
    };
}

impl Kind {
    /// Whether a value is of this kind.
    #[tactic(auto, unfolding(crate::specs::Rules::fits))]
    pub(crate) fn fits(self, value: &Value) -> bool
        ensures { result ≡ fits self (view value.now) }
    {
        match self {
            Kind::Whole(least, most) => value
                .as_integer()
                .is_some_and(|number| least <= number && number <= most),
            Kind::Flag => value.is_bool(),
            Kind::Text => value.is_str(),
            Kind::Name => value.as_str().is_some_and(|text| is_name(text)),
            Kind::Clock => value
                .as_str()
                .is_some_and(|text| clock_identity(text).is_some()),
            Kind::Port(most) => value.as_str().is_some_and(|text| {
                port_identity(text).is_some_and(|identity| identity.port <= most)
            }),
            Kind::Array => value.is_array(),
        }
    }
}

/// What the rules say of a key, if they know it.
pub(crate) fn kind_of(rules: &[Rule], key: &str) -> Option<Kind>
    ensures { result ≡ kind_of (map key_rule rules.now) key.now }
{
    for rule in rules {
        if rule.key == key {
            return Some(rule.kind);
        }
    }
    None
}

/// The keys of a file.
pub(crate) fn file_rules() -> &'static [Rule]
    ensures { map key_rule result.now ≡ file_rules }
{
    &FILE_RULES
}

static FILE_RULES: [Rule; 4] = [
    required!("version", Kind::Whole(1, 2)),
    optional!("clock", Kind::Array),
    optional!("session", Kind::Array),
    optional!("link", Kind::Array),
];

/// The keys of a clock.
pub(crate) fn clock_rules() -> &'static [Rule]
    ensures { map key_rule result.now ≡ clock_rules }
{
    &CLOCK_RULES
}

static CLOCK_RULES: [Rule; 33] = [
    required!("name", Kind::Name),
    required!("identity", Kind::Clock),
    required!("domain", U8),
    required!("ports", U16),
    optional!("port", Kind::Array),
    optional!("user_description", Kind::Text),
    optional!("two_step", Kind::Flag),
    optional!("priority1", U8),
    optional!("clock_class", U8),
    optional!("clock_accuracy", U8),
    optional!("variance", U16),
    optional!("priority2", U8),
    optional!("steps_removed", U16),
    optional!("offset_from_master", I64),
    optional!("mean_path_delay", I64),
    optional!("parent_port", Kind::Port(0xffff)),
    optional!("parent_stats", Kind::Flag),
    optional!("observed_variance", U16),
    optional!("observed_rate", I32),
    optional!("grandmaster_priority1", U8),
    optional!("grandmaster_class", U8),
    optional!("grandmaster_accuracy", U8),
    optional!("grandmaster_variance", U16),
    optional!("grandmaster_priority2", U8),
    optional!("grandmaster", Kind::Clock),
    optional!("utc_offset", I16),
    optional!("leap61", Kind::Flag),
    optional!("leap59", Kind::Flag),
    optional!("utc_valid", Kind::Flag),
    optional!("ptp_timescale", Kind::Flag),
    optional!("time_traceable", Kind::Flag),
    optional!("frequency_traceable", Kind::Flag),
    optional!("time_source", U8),
];

/// The keys of a port.
pub(crate) fn port_rules() -> &'static [Rule]
    ensures { map key_rule result.now ≡ port_rules }
{
    &PORT_RULES
}

static PORT_RULES: [Rule; 9] = [
    required!("number", U16),
    optional!("state", U8),
    optional!("log_min_delay_req", I8),
    optional!("peer_delay", I64),
    optional!("log_announce", I8),
    optional!("receipt_timeout", U8),
    optional!("log_sync", I8),
    optional!("delay_mechanism", U8),
    optional!("log_min_pdelay", I8),
];

/// The keys of a session.
pub(crate) fn session_rules() -> &'static [Rule]
    ensures { map key_rule result.now ≡ session_rules }
{
    &SESSION_RULES
}

static SESSION_RULES: [Rule; 8] = [
    required!("name", Kind::Name),
    required!("identity", Kind::Port(0xfffe)),
    required!("target", Kind::Name),
    required!("first", U16),
    required!("hops", U8),
    required!("attempts", U8),
    optional!("domain", U8),
    optional!("rights", Kind::Array),
];

/// The keys of a link.
pub(crate) static LINK_RULES: [Rule; 1] = [required!("ends", Kind::Array)];
