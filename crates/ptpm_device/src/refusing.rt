//! A sender whose every answer is one refusal.

use ptpm_codec::ErrorId;
use ptpm_data::Answers;
use ptpm_table::{Outgoing, Sender};

/// Takes each answer as this refusal, of the clock or port that answers, and sends it.
#[derive(Drop)]
pub(crate) struct Refusing<'a, O: Outgoing> {
    pub sender: Sender<'a, O>,
    pub error: ErrorId,
}

impl<O: Outgoing> Answers for Refusing<'_, O> {
    ghost use Rattle.std.specs.Prelude.{length};
    ghost use Rattle.ptpm_device.specs.Refusing.{TakesAsRefused, refused_as_many, refused_count, refused_none, refused_twice};

    ghost most = { λ r. O.most r.sender.out.now };

    ghost count = { λ r. length (O.sent r.sender.out.now) };

    ghost taken = { λ a xs b. TakesAsRefused O.sent O.grown a.error a.sender xs b.error b.sender };

    ghost none_taken = { λ a. refused_none O.sent O.grown O.grown_by_none a.error a.sender };

    ghost taken_after = { λ a b c xs ys. refused_twice O.sent O.grown O.grown_twice a.error b.error c.error a.sender b.sender c.sender xs ys };

    ghost counted = { λ a b xs. refused_count O.sent O.grown a.error b.error a.sender b.sender xs };

    ghost as_many = { λ a b xs. refused_as_many O.sent O.grown O.most O.as_many a.error b.error a.sender b.sender xs };

    fn take_value(&mut self, port: Option<u16>, _octets: &[u8]) {
        self.sender.take_refusal(port, self.error);
    }

    fn take_done(&mut self, port: Option<u16>) {
        self.sender.take_refusal(port, self.error);
    }

    fn take_refusal(&mut self, port: Option<u16>, _error: ErrorId) {
        self.sender.take_refusal(port, self.error);
    }
}
