//! Room for the answers of an entry that is read, in the value or in a block of memory.

ghost use Rattle.std.specs.Prelude.{◌≡◌, ◌≤◌, ◌<◌, ◌++◌, ◌∷◌, [], OnOk, length, map, max};
ghost use Rattle.ptpm_data.specs.Reply.{answer_of};

use arrayvec::ArrayVec;
use ptpm_codec::OutOfMemory;
use ptpm_data::{INLINE_PORTS, PortAnswer};
use std::alloc::Global;
use std::marker::Model;

/// The answers, in the value up to `INLINE_PORTS`, or in a block of memory.
#[derive(Drop)]
enum Places {
    Few(ArrayVec<PortAnswer, INLINE_PORTS>),
    Many(Vec<PortAnswer>),
}

/// The answers of an entry, and room for those of another. Once it is made, it takes no memory. Contracts see the answers, and
/// how many have room.
#[derive(Drop)]
pub(crate) struct AnswerRoom {
    places: Places,
}

impl Model for AnswerRoom {
    ghost use Rattle.ptpm_saved.specs.AnswerRoom.{RoomValue, room_value};

    ghost Value = { RoomValue };

    ghost view = { room_value };
}

impl AnswerRoom {
    /// Room for `INLINE_PORTS` answers, in the value.
    #[inline(always)]
    pub(crate) fn new() -> AnswerRoom
        ensures { result ≡ record { answers = []; most = INLINE_PORTS } }
    {
        AnswerRoom {
            places: Places::Few(ArrayVec::new()),
        }
    }

    /// Makes it that of a clock of this many ports. Takes memory for more than `INLINE_PORTS` alone.
    pub(crate) fn fit(&mut self, alloc: Global, ports: u16) -> Result<(), OutOfMemory>
        requires { self.old ≡ record { answers = []; most = INLINE_PORTS } }
        ensures { OnOk result (self.new ≡ record { answers = []; most = max INLINE_PORTS ports }) }
    {
        if INLINE_PORTS < ports as usize {
            let Ok(answers) = Vec::with_capacity(alloc, ports as usize) else {
                return Err(OutOfMemory);
            };
            self.places = Places::Many(answers);
        }
        Ok(())
    }

    /// How many answers have room.
    pub(crate) fn most(&self) -> usize
        ensures { result ≡ self.now.most }
    {
        match &self.places {
            Places::Few(_) => INLINE_PORTS,
            Places::Many(answers) => answers.capacity(),
        }
    }

    /// The answers.
    pub(crate) fn as_slice(&self) -> &[PortAnswer]
        ensures { map answer_of result.now ≡ self.now.answers }
    {
        match &self.places {
            Places::Few(answers) => answers.as_slice(),
            Places::Many(answers) => answers.as_slice(),
        }
    }

    /// Takes every answer out.
    pub(crate) fn clear(&mut self)
        ensures { self.new ≡ record { answers = []; most = self.old.most } }
    {
        match &mut self.places {
            Places::Few(answers) => answers.clear(),
            Places::Many(answers) => answers.clear(),
        }
    }

    /// Appends an answer.
    pub(crate) fn push(&mut self, answer: PortAnswer)
        requires { length self.old.answers < self.old.most }
        ensures { self.new ≡ record { answers = self.old.answers ++ answer_of answer ∷ []; most = self.old.most } }
    {
        match &mut self.places {
            Places::Few(answers) => answers.push(answer),
            Places::Many(answers) => answers.push_reserved(answer),
        }
    }
}
