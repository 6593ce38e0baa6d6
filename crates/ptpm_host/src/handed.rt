//! What an asker hands out, as a host in C takes it over.

ghost use Rattle.std.specs.Prelude.{◌≡◌};
ghost use Rattle.ptpm_host.specs.Asker.{earlier_number, handed, handed_of};

use ptpm_asker::{Earlier, Output};

/// What is to be done next.
#[repr(C)]
#[derive(Clone, Copy)]
pub struct Handed {
    /// How the owner names its request, if one is begun or reported.
    pub tag: u64,
    /// When the asker is woken, if something is sent or waited for: in milliseconds.
    pub time: u64,
    /// 0 nothing, 1 begun, 2 save, 3 send, 4 a read is sent, 5 wait, 6 an answer, 7 failed.
    pub what: u32,
    /// The request's sequenceId, if one is begun or reported.
    pub number: u16,
    /// After a failure, whether a message of the request left.
    pub was_sent: bool,
    /// After a failure, whether the clock answered a read by nobody.
    pub is_read_answered: bool,
}

const _: () = prove!(size_of::<Handed>() == 24);

impl Handed {
    /// Without anything.
    fn of(what: u32, tag: u64, number: u16, time: u64) -> Handed
        ensures { result ≡ handed what tag number time }
    {
        Handed {
            tag,
            time,
            what,
            number,
            was_sent: false,
            is_read_answered: false,
        }
    }

    /// Nothing.
    pub fn nothing() -> Handed
        ensures { result ≡ handed 0 0 0 0 }
    {
        Handed::of(0, 0, 0, 0)
    }

    /// What this output says; an answer that is reported is not in it.
    pub(crate) fn of_output(output: &Output) -> Handed
        ensures { result ≡ handed_of output.now }
    {
        match output {
            Output::Nothing => Handed::nothing(),
            Output::Begun { tag, number } => Handed::of(1, *tag, *number, 0),
            Output::Save => Handed::of(2, 0, 0, 0),
            Output::Send { wake_at } => Handed::of(3, 0, 0, *wake_at),
            Output::Read { wake_at } => Handed::of(4, 0, 0, *wake_at),
            Output::WakeAt { time } => Handed::of(5, 0, 0, *time),
            Output::Told { tag, number, .. } => Handed::of(6, *tag, *number, 0),
            Output::Failed {
                was_sent,
                is_read_answered,
            } => {
                let mut handed = Handed::of(7, 0, 0, 0);
                handed.was_sent = *was_sent;
                handed.is_read_answered = *is_read_answered;
                handed
            }
        }
    }
}

/// What an earlier run left under way: 0 nothing, 1 a question, 2 a GET, 3 a SET or a COMMAND.
pub fn earlier_number(earlier: Earlier) -> u32
    ensures { result ≡ earlier_number earlier }
{
    match earlier {
        Earlier::NoRequest => 0,
        Earlier::Question => 1,
        Earlier::Reads => 2,
        Earlier::MovesTo(_) | Earlier::Changes => 3,
    }
}
