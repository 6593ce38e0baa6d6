//! The names of findings.

ghost use Rattle.std.specs.Prelude.{◌≡◌};
ghost use Rattle.ptpm_causes.specs.Kinds.{absence_kind, degradation_kind, kind_of};

use ptpm_site::judging::finding::What;
use ptpm_site::judging::lacks::Lack;
use ptpm_site::judging::leading::Degradation;
use ptpm_site::judging::unseen::Absence;

/// A name that findings have. Each comes after those that it may follow from.
#[derive(Clone, Copy, PartialEq, Eq)]
pub enum Kind {
    NotTaken,
    Gone,
    OwnHost,
    Mute,
    Absent,
    IdentityTwice,
    Loop,
    TwoGrandmasters,
    Holdover,
    Degraded,
    FreeRunning,
    UtcOffset,
    GrandmasterTime,
    Intervals,
    DelayMechanism,
    PortState,
    NotLocked,
    GrandmasterNotSeen,
    ParentNotSeen,
    NoMaster,
    GrandmasterChanged,
    Changed,
    Steps,
    GrandmasterDiffers,
    OffByUtc,
    NotAsExpected,
    Unexpected,
    ParentNotMaster,
    OffsetFrozen,
    Offset,
    Delay,
    Utc,
    GrandmasterDoubtful,
    NotTraceable,
    UtcInvalid,
    LeapFalse,
    Leap,
    BetterClock,
    Profile,
    Incomplete,
    OutOfReach,
    NotAsked,
}

/// How bad a finding is.
#[derive(Clone, Copy, PartialEq, Eq)]
pub enum Severity {
    /// Any but a critical one.
    Warning,
    /// Time is wrong or missing by it, or two clocks look like one.
    Critical,
}

impl Severity {
    /// It in a word, which scripts read.
    pub fn word(self) -> &'static str {
        match self {
            Severity::Warning => "warning",
            Severity::Critical => "critical",
        }
    }
}

/// How a finding goes on from look to look.
#[derive(Clone, Copy)]
pub enum Course {
    /// It has the same values as long as it is there.
    Steady,
    /// Its values are other ones each time.
    Moving,
    /// More than one look shows it.
    OverTime,
    MovingOverTime,
    /// It says that something changed, and so is there once.
    Change,
}

impl Course {
    /// It in a word, which scripts read.
    pub fn word(self) -> &'static str {
        match self {
            Course::Steady => "steady",
            Course::Moving => "moving",
            Course::OverTime => "over_time",
            Course::MovingOverTime => "moving_over_time",
            Course::Change => "change",
        }
    }
}

/// What programs know of a name.
#[derive(Clone, Copy)]
pub struct KindRow {
    /// The name, which scripts read.
    pub name: &'static str,
    pub severity: Severity,
    /// How many looks after each other must have it: two, unless one look shows it.
    pub looks: u8,
    pub course: Course,
}

impl Kind {
    /// All, in the order in which the findings of a clock are reported.
    pub const ALL: [Kind; 42] = [
        Kind::Absent,
        Kind::Unexpected,
        Kind::NotAsExpected,
        Kind::Gone,
        Kind::OwnHost,
        Kind::NotTaken,
        Kind::Mute,
        Kind::TwoGrandmasters,
        Kind::NoMaster,
        Kind::GrandmasterNotSeen,
        Kind::ParentNotSeen,
        Kind::ParentNotMaster,
        Kind::Steps,
        Kind::GrandmasterDiffers,
        Kind::Loop,
        Kind::PortState,
        Kind::NotLocked,
        Kind::OffsetFrozen,
        Kind::GrandmasterTime,
        Kind::OffByUtc,
        Kind::Offset,
        Kind::Delay,
        Kind::Utc,
        Kind::Intervals,
        Kind::DelayMechanism,
        Kind::GrandmasterDoubtful,
        Kind::Holdover,
        Kind::Degraded,
        Kind::FreeRunning,
        Kind::NotTraceable,
        Kind::UtcInvalid,
        Kind::UtcOffset,
        Kind::LeapFalse,
        Kind::Leap,
        Kind::BetterClock,
        Kind::Profile,
        Kind::Incomplete,
        Kind::OutOfReach,
        Kind::GrandmasterChanged,
        Kind::Changed,
        Kind::IdentityTwice,
        Kind::NotAsked,
    ];

    /// What programs know of it, which is said nowhere else.
    pub fn row(self) -> KindRow {
        let (name, severity, course) = self.told();
        KindRow {
            name,
            severity,
            looks: if self.is_sure() { 1 } else { 2 },
            course,
        }
    }

    /// Whether one look shows it. What is not sure may be there for a moment, while a change goes from clock to clock.
    pub(crate) fn is_sure(self) -> bool {
        use Kind::*;
        matches!(
            self,
            OwnHost
                | Absent
                | Intervals
                | PortState
                | NotLocked
                | GrandmasterChanged
                | Changed
                | NotAsExpected
                | Unexpected
                | OffsetFrozen
                | DelayMechanism
                | LeapFalse
                | Leap
                | Profile
                | OutOfReach
                | NotAsked
        )
    }

    fn told(self) -> (&'static str, Severity, Course) {
        use Course::{Change, Moving, MovingOverTime, OverTime, Steady};
        use Kind::*;
        use Severity::{Critical, Warning};
        match self {
            Gone => ("gone", Critical, Steady),
            OwnHost => ("own_host", Warning, Steady),
            NotTaken => ("not_taken", Warning, Moving),
            Mute => ("mute", Warning, Steady),
            Absent => ("absent", Critical, Steady),
            IdentityTwice => ("identity_twice", Critical, MovingOverTime),
            TwoGrandmasters => ("two_grandmasters", Critical, Steady),
            Holdover => ("gm_holdover", Warning, Steady),
            Degraded => ("gm_degraded", Critical, Steady),
            FreeRunning => ("gm_free_running", Warning, Steady),
            Intervals => ("intervals", Warning, OverTime),
            DelayMechanism => ("delay_mechanism", Warning, Steady),
            GrandmasterDoubtful => ("gm_doubtful", Warning, Steady),
            PortState => ("port_state", Critical, MovingOverTime),
            NotLocked => ("not_locked", Critical, MovingOverTime),
            GrandmasterNotSeen => ("grandmaster_not_seen", Critical, Steady),
            ParentNotSeen => ("parent_not_seen", Critical, Steady),
            NoMaster => ("no_master", Critical, Steady),
            GrandmasterChanged => ("grandmaster_changed", Warning, Change),
            Changed => ("changed", Warning, Change),
            Steps => ("steps", Warning, Steady),
            GrandmasterDiffers => ("grandmaster_differs", Warning, Steady),
            OffsetFrozen => ("offset_frozen", Critical, MovingOverTime),
            GrandmasterTime => ("gm_time", Critical, Moving),
            OffByUtc => ("off_by_utc", Critical, Moving),
            NotAsExpected => ("not_as_expected", Warning, Steady),
            Unexpected => ("unexpected", Warning, Steady),
            ParentNotMaster => ("parent_not_master", Critical, Steady),
            Loop => ("loop", Critical, Steady),
            Offset => ("offset", Critical, Moving),
            Delay => ("delay", Warning, Moving),
            Utc => ("utc", Warning, Steady),
            NotTraceable => ("not_traceable", Warning, Steady),
            UtcInvalid => ("utc_invalid", Warning, Steady),
            UtcOffset => ("utc_offset", Critical, Steady),
            LeapFalse => ("leap_false", Critical, Steady),
            Leap => ("leap", Warning, Steady),
            BetterClock => ("better_clock", Warning, Steady),
            Profile => ("profile", Warning, Steady),
            Incomplete => ("incomplete", Warning, Steady),
            OutOfReach => ("out_of_reach", Warning, Steady),
            NotAsked => ("not_asked", Warning, Steady),
        }
    }

    /// What is wrong with a clock that has it, in words.
    pub fn meaning(self) -> &'static str {
        use Kind::*;
        match self {
            Gone => "The clock answered before, and answers no more.",
            OwnHost =>
                "The clock is the host that asks, which does not hear itself at an interface.",
            NotTaken => "The clock answers, and its answers were not taken.",
            Mute => "The clock sends messages of time, and answers no management message.",
            Absent => "The inventory names the clock, and it did not answer.",
            IdentityTwice => "Two clocks have one identity.",
            TwoGrandmasters => "Two clocks or more of the domain give time as grandmasters.",
            Holdover => "The grandmaster has lost its source of time, and still keeps it well.",
            Degraded => "The grandmaster has lost its source of time, and no longer keeps it well.",
            FreeRunning => "The grandmaster has no source of time.",
            Intervals => "A port and the one that it follows do not fit together.",
            DelayMechanism =>
                "A port measures its delay in another way than the one that it follows.",
            GrandmasterDoubtful =>
                "The grandmaster is of class 6, and says what a clock without a source says.",
            PortState => "A port is faulty, or stays on its way to another state.",
            NotLocked => "A port stays in UNCALIBRATED: it does not lock to its master.",
            GrandmasterNotSeen => "The grandmaster that the clock names did not answer.",
            ParentNotSeen => "The clock that it follows did not answer.",
            NoMaster => "The clock takes time from no other.",
            GrandmasterChanged => "Clocks have another grandmaster than before.",
            Changed => "The clock answered otherwise than before.",
            Steps => "Its stepsRemoved does not fit that of the clock that it follows.",
            GrandmasterDiffers => "What it says of its grandmaster is not what that one says.",
            OffsetFrozen => "Its offset stays the same to the last digit: no Sync counts there.",
            GrandmasterTime => "The grandmaster's time is not that of the host that asked.",
            OffByUtc => "TAI and UTC are taken for each other: the time is wrong by whole seconds.",
            NotAsExpected => "It is not as the inventory says.",
            Unexpected => "The inventory does not name the clock.",
            ParentNotMaster => "The port that it follows gives no time.",
            Loop => "Clocks follow each other in a circle.",
            Offset => "It is further from its master than is allowed.",
            Delay => "The delay to its master, or to its neighbour, is longer than is allowed.",
            Utc => "What it says of UTC is not what its grandmaster says.",
            NotTraceable => "The grandmaster does not say that its time can be traced to a source.",
            UtcInvalid => "The grandmaster does not know how far TAI is ahead of UTC.",
            UtcOffset => "The grandmaster says a wrong difference of TAI and UTC.",
            LeapFalse => "The grandmaster announces a leap second that can't come.",
            Leap => "The grandmaster announces a leap second.",
            BetterClock => "A clock of a better class stands by, and does not lead.",
            Profile => "It is set to what the profile does not allow.",
            Incomplete => "The clock did not answer all that it was asked for.",
            OutOfReach =>
                "The last boundary hop reached the clock: clocks behind it are not asked.",
            NotAsked => "Clocks send in a domain in which none was asked.",
        }
    }

    /// The name, which scripts read.
    pub fn name(self) -> &'static str {
        self.row().name
    }

    /// That which is written so; none if it is no finding's.
    pub fn named(name: &str) -> Option<Kind> {
        Kind::ALL.iter().copied().find(|kind| kind.name() == name)
    }

    /// Its place in the order of a clock's findings.
    pub fn place(self) -> usize {
        Kind::ALL
            .iter()
            .position(|kind| *kind == self)
            .unwrap_or(Kind::ALL.len())
    }

    /// Its place among those that it may follow from.
    pub(crate) fn rank(self) -> u8 {
        self as u8
    }
}

static BY_REQUESTS: [Kind; 3] = [Kind::Gone, Kind::NotAsked, Kind::OutOfReach];

static BY_TIMES: [Kind; 3] = [Kind::OffsetFrozen, Kind::GrandmasterTime, Kind::LeapFalse];

static BY_SOURCES: [Kind; 1] = [Kind::IdentityTwice];

static BY_SENDERS: [Kind; 1] = [Kind::Mute];

/// The names of what can't be judged of lines that lack this, or not wholly.
pub fn not_judged(lack: Lack) -> &'static [Kind] {
    match lack {
        Lack::Requests => &BY_REQUESTS,
        Lack::Times => &BY_TIMES,
        Lack::Sources => &BY_SOURCES,
        Lack::Senders => &BY_SENDERS,
    }
}

/// The name of what is wrong.
pub(crate) fn kind_of(what: &What<'_>) -> Kind
    ensures { result ≡ kind_of what.now }
{
    match what {
        What::Absent(_) => Kind::Absent,
        What::Unexpected => Kind::Unexpected,
        What::NotAsExpected(_) | What::OtherLeaders(_) => Kind::NotAsExpected,
        What::Gone => Kind::Gone,
        What::NotTaken(_) => Kind::NotTaken,
        What::Unseen(absence) => absence_kind(*absence),
        What::NotAsked(_) => Kind::NotAsked,
        What::TwoGrandmasters => Kind::TwoGrandmasters,
        What::NoMaster(_) => Kind::NoMaster,
        What::GrandmasterNotSeen(_) => Kind::GrandmasterNotSeen,
        What::ParentNotSeen(_) => Kind::ParentNotSeen,
        What::ParentNotMaster(..) => Kind::ParentNotMaster,
        What::Steps(_) => Kind::Steps,
        What::GrandmasterDiffers(_) => Kind::GrandmasterDiffers,
        What::Loop(_) => Kind::Loop,
        What::PortState(..) => Kind::PortState,
        What::NotLocked(..) => Kind::NotLocked,
        What::OffsetFrozen(_) => Kind::OffsetFrozen,
        What::GrandmasterTime(_) => Kind::GrandmasterTime,
        What::OffByUtc(_) => Kind::OffByUtc,
        What::Offset(_) => Kind::Offset,
        What::Delay(_) | What::LinkDelay(..) => Kind::Delay,
        What::Utc(_) => Kind::Utc,
        What::Intervals(..) => Kind::Intervals,
        What::DelayMechanism(..) => Kind::DelayMechanism,
        What::GrandmasterDoubtful(_) => Kind::GrandmasterDoubtful,
        What::Degraded(degraded) => degradation_kind(degraded.degradation),
        What::NotTraceable(_) => Kind::NotTraceable,
        What::UtcInvalid(_) => Kind::UtcInvalid,
        What::UtcOffset(_) => Kind::UtcOffset,
        What::LeapFalse(_) => Kind::LeapFalse,
        What::Leap(_) => Kind::Leap,
        What::BetterClock(_) => Kind::BetterClock,
        What::Profile(_) => Kind::Profile,
        What::Incomplete(_) => Kind::Incomplete,
        What::OutOfReach(_) => Kind::OutOfReach,
        What::GrandmasterChanged(_) => Kind::GrandmasterChanged,
        What::Changed(..) => Kind::Changed,
        What::IdentityTwice(_) => Kind::IdentityTwice,
    }
}

fn absence_kind(absence: Absence) -> Kind
    ensures { result ≡ absence_kind absence }
{
    match absence {
        Absence::OwnHost => Kind::OwnHost,
        Absence::Mute(_) => Kind::Mute,
    }
}

fn degradation_kind(degradation: Degradation) -> Kind
    ensures { result ≡ degradation_kind degradation }
{
    match degradation {
        Degradation::Holdover => Kind::Holdover,
        Degradation::Degraded => Kind::Degraded,
        Degradation::FreeRunning => Kind::FreeRunning,
    }
}
