//! Whether a host was compiled with this library's header.

ghost use Rattle.std.specs.Prelude.{◌≡◌, bytes_eq, if◌then◌else◌};
ghost use Rattle.ptpm_host.specs.Numbers.{other_sizes};
ghost use Rattle.ptpm_c.specs.Sizes.{header_sizes};

use crate::device::Taken;
use crate::handle::Handle;
use crate::sharing::Shared;
use ptpm_data::ChangedMembers;
use ptpm_host::{
    AskerSettings, ClockSettings, Handed, Limit, ManagerSettings, OTHER_SIZES, ObservedClock,
    ObservedPort, PassedOn, PortSettings, Question, Rate, RelayedSettings, RolloutAction,
    RolloutEvent, Say, Sent, SentAnswer, SessionSettings, Source, SurveySettings, VERSION_NUMBER,
};
use ptpm_journal::PlainRecord;

/// The sizes of the structs of the header, in its order.
const SIZES: [usize; 30] = [
    size_of::<Handle>(),
    size_of::<ClockSettings>(),
    size_of::<PortSettings>(),
    size_of::<ObservedClock>(),
    size_of::<ObservedPort>(),
    size_of::<ManagerSettings>(),
    size_of::<Sent>(),
    size_of::<SentAnswer>(),
    size_of::<Shared>(),
    size_of::<ChangedMembers>(),
    size_of::<Handle>(),
    size_of::<SessionSettings>(),
    size_of::<Handle>(),
    size_of::<SurveySettings>(),
    size_of::<Source>(),
    size_of::<PassedOn>(),
    size_of::<Rate>(),
    size_of::<Handle>(),
    size_of::<AskerSettings>(),
    size_of::<Handed>(),
    size_of::<Question>(),
    size_of::<Say>(),
    size_of::<Limit>(),
    size_of::<RelayedSettings>(),
    size_of::<Taken>(),
    size_of::<Handle>(),
    size_of::<PlainRecord>(),
    size_of::<Handle>(),
    size_of::<RolloutEvent>(),
    size_of::<RolloutAction>(),
];

/// The version of this library, as a number.
#[unsafe(no_mangle)]
pub extern "C" fn ptpm_version() -> u32
    ensures { result ≡ VERSION_NUMBER }
{
    VERSION_NUMBER
}

/// Whether these are the sizes of the structs of this library's header, in its order: 0, or the number of the refusal.
#[unsafe(no_mangle)]
pub extern "C" fn ptpm_sizes_agree(sizes: &[usize]) -> u32
    ensures { result ≡ (if bytes_eq sizes.now header_sizes then 0 else other_sizes) }
{
    if sizes == SIZES.as_slice() {
        0
    } else {
        OTHER_SIZES
    }
}
