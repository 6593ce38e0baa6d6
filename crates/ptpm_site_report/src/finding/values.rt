//! The values of a finding: their names, which scripts read, and the words around them.

use crate::finding::phrases::Phrase;
use crate::finding::values::FindingValue::{AtPort, Exact, Name, Null, Of, Words};
use crate::monitoring::seconds::whole_seconds;
use ptpm_codec::{ClockIdentity, PortIdentity};
use ptpm_data::PortState;
use ptpm_members::MemberValue::{Clock, Flag, Port, Quality, Signed, Text, Unsigned};
use ptpm_members::{Enumeration, MemberValue, state_name};
use ptpm_site::judging::amounts::TooFarOff;
use ptpm_site::judging::announcing::Seldom;
use ptpm_site::judging::calendar::Date;
use ptpm_site::judging::completeness::Missing;
use ptpm_site::judging::differences::{Differs, OtherMechanism};
use ptpm_site::judging::expected::{OtherLeaders, Outside, Unmet};
use ptpm_site::judging::finding::What;
use ptpm_site::judging::frozen::FrozenOffset;
use ptpm_site::judging::grandmasters::Masterless;
use ptpm_site::judging::leading::{Better, Doubtful, FalseLeap, Leap, Untraceable, WrongOffset};
use ptpm_site::judging::parents::{NoMaster, Steps};
use ptpm_site::judging::tai_and_utc::OffByUtc;
use ptpm_site::judging::twice::{OtherMember, Twice};
use ptpm_site::judging::two_addresses::TwoAddresses;
use ptpm_site::judging::two_offsets::TwoOffsets;
use ptpm_site::judging::unseen::Absence;
use ptpm_site::looks::changes::Change;
use ptpm_site::looks::grandmaster_changes::GrandmasterChange;
use ptpm_site::looks::stay::Stay;
use ptpm_site::looks::staying::Unlocked;
use ptpm_site::reading::asked::Asked;
use ptpm_site::reading::heard::kind_name;
use ptpm_site::reading::origin::{Origin, TimeError};
use ptpm_site::reading::untaken::{NotTaken, Untaken};

/// A value of a finding.
#[derive(Clone, Copy)]
pub(crate) enum FindingValue<'a> {
    /// Words, with a place `{}` for each of the values after them, in their order.
    Template(&'static str),
    /// Null, and what stands for it in words.
    Null(&'static str),
    Name(&'a str),
    Of(MemberValue<'a>),
    /// The port of a member, or null, with the word before it.
    AtPort(Option<u16>),
    /// A TimeInterval, in words as nanoseconds: with their fraction, or rounded.
    Exact(i64),
    Rounded(i64),
    /// Two to a logarithm, in seconds.
    Power(i8),
    /// Tenths of a second, in words alone.
    Tenths(u64),
    Hexadecimal(u8),
    /// Nanoseconds since 1970, as seconds in a text.
    Time(u64),
    /// The same of a message.
    Origin(&'a Origin),
    /// Seconds in a text: negative for what comes after TAI.
    Error(&'a TimeError),
    Date(Date),
    /// Words, which are a text for scripts too.
    Words(Phrase<'a>),
    Clocks(&'a [ClockIdentity]),
    Ids(&'a [Asked]),
    /// Ports as runs: the first and the last of each.
    Ports(&'a [(u16, u16)]),
    Addresses(&'a TwoAddresses<'a>),
    Offsets(&'a TwoOffsets),
    Members(&'a [OtherMember<'a>]),
}

/// A name and its value. The name is empty if the value is in words alone.
pub(crate) type NamedValue<'a> = (&'static str, FindingValue<'a>);

const NONE: NamedValue<'static> = ("", Null(""));

/// The values of a finding, after the words that have them. A value past the last place is for scripts alone.
pub(crate) type FindingValues<'a> = [NamedValue<'a>; 8];

fn template(words: &'static str) -> NamedValue<'static> {
    ("", FindingValue::Template(words))
}

fn none(words: &'static str) -> FindingValues<'static> {
    [template(words), NONE, NONE, NONE, NONE, NONE, NONE, NONE]
}

fn one<'a>(words: &'static str, value: NamedValue<'a>) -> FindingValues<'a> {
    [template(words), value, NONE, NONE, NONE, NONE, NONE, NONE]
}

fn two<'a>(words: &'static str, [a, b]: [NamedValue<'a>; 2]) -> FindingValues<'a> {
    [template(words), a, b, NONE, NONE, NONE, NONE, NONE]
}

fn three<'a>(words: &'static str, [a, b, c]: [NamedValue<'a>; 3]) -> FindingValues<'a> {
    [template(words), a, b, c, NONE, NONE, NONE, NONE]
}

fn four<'a>(words: &'static str, [a, b, c, d]: [NamedValue<'a>; 4]) -> FindingValues<'a> {
    [template(words), a, b, c, d, NONE, NONE, NONE]
}

fn five<'a>(words: &'static str, [a, b, c, d, e]: [NamedValue<'a>; 5]) -> FindingValues<'a> {
    [template(words), a, b, c, d, e, NONE, NONE]
}

/// What takes the values of a finding.
pub(crate) trait TakeValues {
    type Error;

    fn take(&mut self, values: &FindingValues<'_>) -> Result<(), Self::Error>;
}

/// Hands over what a finding says.
pub(crate) fn hand_values<T: TakeValues>(what: &What<'_>, to: &mut T) -> Result<(), T::Error> {
    match what {
        What::Unexpected | What::TwoGrandmasters | What::Absent(None) => to.take(&none("")),
        What::Absent(Some(description)) => to.take(&one(
            " {}",
            ("", Of(Text(description.as_bytes()))),
        )),
        What::NotAsExpected(unmet) => to.take(&of_unmet(unmet)),
        What::OtherLeaders(other) => to.take(&of_other_leaders(other)),
        What::Profile(outside) => to.take(&of_outside(outside)),
        What::Gone => to.take(&none(" answers no more")),
        What::NotTaken(not_taken) => to.take(&of_not_taken(not_taken)),
        What::Unseen(unseen) => to.take(&of_unseen(*unseen)),
        What::NotAsked(clocks) => to.take(&of_not_asked(*clocks)),
        What::NoMaster(why) => to.take(&of_masterless(why)),
        What::GrandmasterNotSeen(clock) => to.take(&one(
            " {}",
            ("grandmasterIdentity", Of(Clock(*clock))),
        )),
        What::ParentNotSeen(parent) => to.take(&one(
            " {}",
            ("parentPortIdentity", Of(Port(*parent))),
        )),
        What::ParentNotMaster(parent, why) => to.take(&of_not_master(*parent, why)),
        What::Steps(steps) => to.take(&of_steps(steps)),
        What::GrandmasterDiffers(differs) | What::Utc(differs) => to.take(&of_differs(differs)),
        What::Loop(clocks) => to.take(&one(
            " {}",
            ("clocks", FindingValue::Clocks(clocks.as_slice())),
        )),
        What::PortState(port, stay) => to.take(&of_state(*port, stay)),
        What::NotLocked(port, unlocked) => to.take(&of_unlocked(*port, unlocked)),
        What::OffsetFrozen(frozen) => to.take(&of_frozen(frozen)),
        What::GrandmasterTime(error) => to.take(&of_time_error(error)),
        What::OffByUtc(how) => to.take(&of_off_by_utc(how)),
        What::Offset(offset) => to.take(&of_offset(offset)),
        What::Delay(delay) => to.take(&one(" meanDelay {} ns", ("meanDelay", Exact(*delay)))),
        What::LinkDelay(port, delay) => to.take(&two(
            " port {} meanLinkDelay {} ns",
            [
                ("portNumber", number(*port)),
                ("meanLinkDelay", Exact(*delay)),
            ],
        )),
        What::Intervals(port, seldom) => to.take(&of_seldom(*port, seldom)),
        What::DelayMechanism(port, other) => to.take(&of_mechanism(*port, other)),
        What::GrandmasterDoubtful(doubtful) => to.take(&of_doubtful(doubtful)),
        What::Degraded(degraded) => to.take(&one(
            " {}",
            ("clockQuality", Of(Quality(degraded.quality))),
        )),
        What::NotTraceable(untraceable) => to.take(&of_untraceable(untraceable)),
        What::UtcInvalid(offset) => to.take(&of_utc_invalid(*offset)),
        What::UtcOffset(offset) => to.take(&of_utc_offset(offset)),
        What::LeapFalse(leap) => to.take(&of_false_leap(leap)),
        What::Leap(leap) => to.take(&of_leap(leap)),
        What::BetterClock(better) => to.take(&of_better(better)),
        What::Incomplete(missing) => to.take(&of_missing(missing)),
        What::OutOfReach(hops) => to.take(&of_reach(*hops)),
        What::GrandmasterChanged(change) => to.take(&of_grandmaster_change(change)),
        What::Changed(port, change) => to.take(&of_change(*port, change, "{} {} {}, then {}")),
        What::IdentityTwice(twice) => to.take(&of_twice(twice)),
    }
}

fn of_unmet<'a>(unmet: &Unmet<'a>) -> FindingValues<'a> {
    let wanted = unmet.wanted;
    let value = match unmet.value {
        Some(value) => Words(Phrase::Said(value, wanted)),
        None => Null("not said"),
    };
    let values = [
        ("member", Words(Phrase::Member(unmet.port, unmet.member))),
        ("value", value),
        ("expected", Words(Phrase::Wanted(wanted))),
    ];
    three(" {} {}, not {}", values)
}

/// The clocks that lead, if there are any, and those that are wanted.
fn of_other_leaders<'a>(other: &'a OtherLeaders<'a>) -> FindingValues<'a> {
    let value = if other.leading.is_empty() {
        Null("none")
    } else {
        Words(Phrase::Clocks(other.leading.as_slice()))
    };
    let wanted = Words(Phrase::Choices(other.wanted));
    let values = [
        ("member", Name("grandmaster")),
        ("value", value),
        ("expected", wanted),
    ];
    three(" {} {}, not {}", values)
}

fn of_outside(outside: &Outside) -> FindingValues<'static> {
    let values = [
        ("portNumber", AtPort(outside.port)),
        ("member", Name(outside.member.name())),
        ("value", Of(outside.value)),
        ("expected", Words(Phrase::Allowed(outside.allowed))),
    ];
    four("{} {} {}, not {}", values)
}

/// Why the answers of a clock were not taken, by one of them.
fn of_not_taken<'a>(not_taken: &NotTaken<'a>) -> FindingValues<'a> {
    let address = match not_taken.from {
        Some(from) => ("address", Name(from)),
        None => ("address", Null("an address")),
    };
    let milliseconds = match not_taken.after {
        Some(after) => ("milliseconds", Of(Unsigned(after / 1_000_000))),
        None => ("milliseconds", Null("")),
    };
    let tenths = FindingValue::Tenths(not_taken.after.unwrap_or(0) / 100_000_000);
    let reason = ("reason", Name(not_taken.why.word()));
    match not_taken.why {
        Untaken::OffLink => three(
            " answers from {}, which is not on the link: --any-source takes it",
            [address, milliseconds, reason],
        ),
        Untaken::Late if not_taken.after.is_some() => four(
            " answers {} s after it is asked: --timeout waits longer",
            [("", tenths), address, milliseconds, reason],
        ),
        Untaken::Late => three(
            " answers too late: --timeout waits longer",
            [address, milliseconds, reason],
        ),
        Untaken::Unreadable => three(
            " answers, and it can't be read",
            [address, milliseconds, reason],
        ),
    }
}

fn of_unseen(unseen: Absence) -> FindingValues<'static> {
    match unseen {
        Absence::OwnHost => none(
            " is the host that asks: at an interface it does not hear itself; ask its Unix socket too",
        ),
        Absence::Mute(kind) => {
            let message = ("message", Name(kind_name(kind)));
            one(" sends {}, and answers no management message", message)
        }
    }
}

fn of_not_asked(clocks: usize) -> FindingValues<'static> {
    let words = if clocks == 1 {
        " {} clock sends here"
    } else {
        " {} clocks send here"
    };
    one(words, ("clocks", Of(Unsigned(clocks as u64))))
}

fn of_masterless(why: &Masterless) -> FindingValues<'static> {
    match why {
        Masterless::SlaveOnly => one(
            " {}, and its own grandmaster",
            ("reason", Name("slaveOnly")),
        ),
        Masterless::Silent => one(
            " its own grandmaster, with no port in MASTER, PRE_MASTER or PASSIVE",
            ("reason", Name("ownGrandmaster")),
        ),
        Masterless::Lost(grandmaster) => two(
            " names {}, with no port in SLAVE or UNCALIBRATED",
            [
                ("grandmasterIdentity", Of(Clock(*grandmaster))),
                ("reason", Name("lost")),
            ],
        ),
    }
}

fn of_not_master(parent: PortIdentity, why: &NoMaster) -> FindingValues<'static> {
    let parent = ("parentPortIdentity", Of(Port(parent)));
    match why {
        NoMaster::NoPort => two(
            " {}, which that clock lacks",
            [parent, ("portState", Null(""))],
        ),
        NoMaster::InState(state) => {
            let state = MemberValue::Named(Enumeration::PortState, *state);
            two(" {}, which is in {}", [parent, ("portState", Of(state))])
        }
    }
}

fn of_steps(steps: &Steps) -> FindingValues<'static> {
    let own = ("stepsRemoved", number(steps.steps));
    match steps.parent {
        Some(parent) => two(
            " stepsRemoved {}, and its parent has {}",
            [own, ("parentStepsRemoved", number(parent))],
        ),
        None => two(
            " stepsRemoved {} at a grandmaster",
            [own, ("parentStepsRemoved", Null(""))],
        ),
    }
}

fn number(number: u16) -> FindingValue<'static> {
    Of(Unsigned(number as u64))
}

/// The member, its value, and what the other clock has.
fn of_differs(differs: &Differs) -> FindingValues<'static> {
    let values = [
        ("member", Name(differs.member.name())),
        ("value", Of(differs.own)),
        ("expected", Of(differs.other)),
    ];
    three(" {} {}, not {}", values)
}

/// The member, the value of the earlier answer, and that of the later.
fn of_change<'a>(port: Option<u16>, change: &Change<'a>, words: &'static str) -> FindingValues<'a> {
    let values = [
        (if port.is_some() { "portNumber" } else { "" }, AtPort(port)),
        ("member", Name(change.member.name())),
        ("before", Of(change.before)),
        ("after", Of(change.after)),
    ];
    four(words, values)
}

/// The state of a port, and for how many whole seconds it is known to be in it or in another on its way.
fn of_state(port: u16, stay: &Stay) -> FindingValues<'static> {
    let state = ("portState", Name(state_name(stay.state)));
    let words = if stay.time.is_some() {
        " port {} {} for {} s"
    } else {
        " port {} {}"
    };
    three(
        words,
        [
            ("portNumber", number(port)),
            state,
            ("seconds", seconds(stay.time)),
        ],
    )
}

fn seconds(time: Option<u64>) -> FindingValue<'static> {
    match time {
        Some(time) => Of(Unsigned(whole_seconds(time))),
        None => Null(""),
    }
}

fn of_unlocked(port: u16, unlocked: &Unlocked) -> FindingValues<'static> {
    let words = match (unlocked.time, unlocked.offset) {
        (Some(_), Some(_)) => " port {} {} for {} s, offset {} ns",
        (Some(_), None) => " port {} {} for {} s",
        (None, Some(_)) => " port {} {}{}, offset {} ns",
        (None, None) => " port {} {}",
    };
    let offset = match unlocked.offset {
        Some(offset) => FindingValue::Rounded(offset),
        None => Null(""),
    };
    let values = [
        ("portNumber", number(port)),
        ("portState", Name(state_name(PortState::Uncalibrated))),
        ("seconds", seconds(unlocked.time)),
        ("offsetFromMaster", offset),
    ];
    four(words, values)
}

fn of_frozen(frozen: &FrozenOffset) -> FindingValues<'static> {
    let values = [
        ("offsetFromMaster", Exact(frozen.offset)),
        ("answers", Of(Unsigned(frozen.answers as u64))),
        ("seconds", Of(Unsigned(frozen.seconds))),
    ];
    let words = " offset {} ns in each of {} answers, for {} s: no Sync counts there";
    three(words, values)
}

/// How far the time of a grandmaster is from TAI: in tenths of a second, rounded, or from a day on in whole days.
fn of_time_error(error: &TimeError) -> FindingValues<'_> {
    let words = if error.is_by_rollover() {
        " its time is {} {} {} TAI by the clock of this host: 1024 weeks, as a GPS receiver has it after a rollover of its weeks"
    } else {
        " its time is {} {} {} TAI by the clock of this host"
    };
    let (amount, unit) = amount_of(error);
    let side = if error.is_behind {
        "behind"
    } else {
        "ahead of"
    };
    [
        template(words),
        ("", amount),
        ("", Name(unit)),
        ("", Name(side)),
        ("origin", FindingValue::Origin(&error.origin)),
        ("at", FindingValue::Time(error.origin.at)),
        ("seconds", FindingValue::Error(error)),
        NONE,
    ]
}

fn amount_of(error: &TimeError) -> (FindingValue<'static>, &'static str) {
    let tenths = (u64::from(error.nanoseconds) + 50_000_000) / 100_000_000;
    let tenths = error.seconds.saturating_mul(10).saturating_add(tenths);
    match error.seconds / 86_400 {
        0 => (FindingValue::Tenths(tenths), "s"),
        1 => (number(1), "day"),
        days => (Of(Unsigned(days)), "days"),
    }
}

/// The clock's own offset, or those of all clocks that follow it.
fn of_offset(offset: &TooFarOff) -> FindingValues<'static> {
    match offset {
        TooFarOff::Own(offset) => two(
            " offsetFromMaster {} ns",
            [
                ("offsetFromMaster", Exact(*offset)),
                ("reason", Name("offset")),
            ],
        ),
        TooFarOff::Followers(shared) => four(
            " each of the {} clocks that follow it is as much off: {} ns to {} ns",
            [
                ("clocks", Of(Unsigned(shared.clocks as u64))),
                ("least", Exact(shared.least)),
                ("most", Exact(shared.most)),
                ("reason", Name("followers")),
            ],
        ),
    }
}

fn of_off_by_utc(how: &OffByUtc) -> FindingValues<'_> {
    match how {
        OffByUtc::Offset(offset) => two(
            " {} ns: TAI and UTC are taken for each other",
            [
                ("offsetFromMaster", Exact(*offset)),
                ("reason", Name("offset")),
            ],
        ),
        OffByUtc::Followers(count) => two(
            " each of the {} clocks that follow it says so",
            [
                ("clocks", Of(Unsigned(*count as u64))),
                ("reason", Name("followers")),
            ],
        ),
        OffByUtc::Origin(origin) => of_origin(origin),
    }
}

fn of_origin(origin: &Origin) -> FindingValues<'_> {
    let values = [
        ("origin", FindingValue::Origin(origin)),
        ("at", FindingValue::Time(origin.at)),
        ("reason", Name("origin")),
    ];
    three(
        " its time is UTC by the clock of this host, and it says ptpTimescale true",
        values,
    )
}

/// What the port says of its intervals, and the interval of the port that it follows.
fn of_seldom(port: u16, seldom: &Seldom) -> FindingValues<'static> {
    let values = [
        ("portNumber", number(port)),
        (
            "logAnnounceInterval",
            Of(Signed(seldom.log_announce as i64)),
        ),
        (
            "announceReceiptTimeout",
            Of(Unsigned(seldom.timeout as u64)),
        ),
        ("", Of(Port(seldom.parent))),
        ("parentSeconds", FindingValue::Power(seldom.parent_log)),
    ];
    let words =
        " port {} logAnnounceInterval {} and announceReceiptTimeout {}, and {} announces each {} s";
    five(words, values)
}

/// How a port measures the delay, and how the port that it follows does.
fn of_mechanism(port: u16, other: &OtherMechanism) -> FindingValues<'static> {
    let values = [
        ("portNumber", number(port)),
        ("delayMechanism", Of(other.own)),
        ("parentPortIdentity", Of(Port(other.parent))),
        ("expected", Of(other.expected)),
    ];
    four(" port {} {}, and {} has {}", values)
}

fn of_doubtful(doubtful: &Doubtful) -> FindingValues<'static> {
    let quality = doubtful.quality;
    let source = MemberValue::Named(Enumeration::TimeSource, doubtful.time_source);
    let values = [
        ("", number(quality.class as u16)),
        ("", FindingValue::Hexadecimal(quality.accuracy)),
        ("timeSource", Of(source)),
        ("clockQuality", Of(Quality(quality))),
    ];
    four(" class {}, accuracy {}, {}", values)
}

fn of_untraceable(untraceable: &Untraceable) -> FindingValues<'static> {
    let values = [
        ("clockClass", number(untraceable.class as u16)),
        ("timeTraceable", Of(Flag(untraceable.time))),
        ("frequencyTraceable", Of(Flag(untraceable.frequency))),
    ];
    three(" class {}, timeTraceable {}, frequencyTraceable {}", values)
}

fn of_utc_invalid(offset: i16) -> FindingValues<'static> {
    let offset = ("currentUtcOffset", Of(Signed(offset as i64)));
    let valid = ("currentUtcOffsetValid", Of(Flag(false)));
    two(" currentUtcOffset {} is not valid", [offset, valid])
}

fn of_utc_offset(offset: &WrongOffset) -> FindingValues<'static> {
    let said = ("currentUtcOffset", Of(Signed(offset.said as i64)));
    let is = ("expected", Of(Signed(offset.is as i64)));
    two(
        " currentUtcOffset {}, and TAI is {} s ahead of UTC",
        [said, is],
    )
}

fn of_leap(leap: &Leap) -> FindingValues<'static> {
    let words = if leap.is_unusual {
        " {} at the end of this day in UTC, and so far none came but in June and December"
    } else {
        " {} at the end of this day in UTC"
    };
    let name = if leap.leap61 { "leap61" } else { "leap59" };
    let values = [
        ("", Name(name)),
        ("leap61", Of(Flag(leap.leap61))),
        ("leap59", Of(Flag(leap.leap59))),
    ];
    three(words, values)
}

/// The leap second that is announced, and the day, unless both are.
fn of_false_leap(leap: &FalseLeap) -> FindingValues<'static> {
    let (words, date) = match leap.date {
        Some(date) => (
            " {}, and {} is not the last day of a month",
            FindingValue::Date(date),
        ),
        None => (
            " leap61 and leap59: a day has one of them at most",
            Null(""),
        ),
    };
    let name = if leap.leap61 { "leap61" } else { "leap59" };
    let values = [
        ("", Name(name)),
        ("date", date),
        ("leap61", Of(Flag(leap.leap61))),
        ("leap59", Of(Flag(leap.leap59))),
    ];
    four(words, values)
}

/// The clock of a better class, with what it says of itself.
fn of_better(better: &Better) -> FindingValues<'static> {
    let values = [
        ("", number(better.class as u16)),
        ("better", Of(Clock(better.clock))),
        ("", number(better.quality.class as u16)),
        ("priority1", number(better.priority1 as u16)),
        ("clockQuality", Of(Quality(better.quality))),
    ];
    let words = " class {} leads, and {} of class {} and priority1 {} stands by";
    five(words, values)
}

/// The ids that were neither answered nor refused, and the ports that lack.
fn of_missing(missing: &Missing) -> FindingValues<'_> {
    let ids = FindingValue::Ids(missing.asked.as_slice());
    let ports = FindingValue::Ports(missing.ports.as_slice());
    two("{}{}", [("managementIds", ids), ("portNumbers", ports)])
}

fn of_reach(hops: u8) -> FindingValues<'static> {
    let words = " the last of {} boundary hops: clocks behind it are not asked";
    one(words, ("boundaryHops", number(hops as u16)))
}

fn of_grandmaster_change(change: &GrandmasterChange) -> FindingValues<'static> {
    let words = if change.clocks == 1 {
        " {}, then {}; {} clock"
    } else {
        " {}, then {}; {} clocks"
    };
    let values = [
        ("before", Of(Clock(change.before))),
        ("after", Of(Clock(change.after))),
        ("clocks", Of(Unsigned(change.clocks as u64))),
    ];
    three(words, values)
}

/// Two addresses, two offsets, or members, and all that is known beside what the words begin with.
fn of_twice<'a>(twice: &'a Twice<'a>) -> FindingValues<'a> {
    let addresses = match &twice.addresses {
        Some(two) => ("addresses", FindingValue::Addresses(two)),
        None => ("addresses", Null("")),
    };
    let offsets = match &twice.offsets {
        Some(two) => ("offsets", FindingValue::Offsets(two)),
        None => ("offsets", Null("")),
    };
    let members = ("members", FindingValue::Members(twice.members.as_slice()));
    match (twice.members.first(), &twice.addresses, &twice.offsets) {
        (None, Some(_), _) => three(" answers come from {}", [addresses, offsets, members]),
        (None, None, _) => three(
            " two offsets in one look: {}",
            [offsets, addresses, members],
        ),
        (Some(first), Some(_), _) => beside_first(
            " answers come from {}, and differ in {}",
            [addresses, members, offsets],
            first,
        ),
        (Some(first), None, Some(_)) => beside_first(
            " two offsets in one look: {}, and differ in {}",
            [offsets, members, addresses],
            first,
        ),
        (Some(first), None, None) if twice.members.len() == 1 => {
            let mut values = of_change(first.port, &first.change, "{} {} {}, and {}");
            values[5] = members;
            values[6] = addresses;
            values[7] = offsets;
            values
        }
        (Some(first), None, None) => {
            beside_first(
                " answers differ in {}",
                [members, addresses, offsets],
                first,
            )
        }
    }
}

/// Values, and those of the first member that differs.
fn beside_first<'a>(
    words: &'static str,
    [a, b, c]: [NamedValue<'a>; 3],
    first: &OtherMember<'a>,
) -> FindingValues<'a> {
    let of_first = of_change(first.port, &first.change, words);
    [
        of_first[0],
        a,
        b,
        c,
        of_first[1],
        of_first[2],
        of_first[3],
        of_first[4],
    ]
}
