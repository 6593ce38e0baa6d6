//! What a request that is not numbered is answered (this project's profile).

ghost use Rattle.std.specs.Prelude.{◌≡◌, ◌≤◌, ◌+◌, length};
ghost use Rattle.ptpm_data.specs.Replies.{is_get};

use crate::answers::Answers;
use crate::data_sets::DataSets;
use crate::laws::data_sets_law;
use crate::management_id::by_id;
use crate::ports::INLINE_PORTS;
use crate::refusals::refusal;
use crate::reply::Reply;
use crate::request::Request;
use crate::rights::Rights;
use bitflags::Flags;
use ptpm_codec::{Action, ErrorId};

impl DataSets {
    ghost use Rattle.ptpm_codec.specs.Message.{IsDataField, IsRequestAction};
    ghost use Rattle.ptpm_data.specs.Changes.{IsTargetPort};
    ghost use Rattle.ptpm_data.specs.Replies.{read_reply_to};

    /// Answers a request that is not numbered, and changes nothing. A GET is answered from the data sets as they are, with
    /// the refusals NO_SUCH_ID and NOT_SUPPORTED of `decide`. A SET and a COMMAND are NOT_SUPPORTED, whatever they say.
    /// Takes no memory.
    ///
    /// The conditions are those of `decide`.
    #[tactic(auto, using(crate::proofs::Answering::read_laws))]
    pub fn read(&self, request: &Request<'_>) -> Reply
        requires action { IsRequestAction request.now.action }
        requires port { IsTargetPort request.now.port self.now }
        requires octets { IsDataField request.now.octets }
        requires few { length self.now.ports ≤ INLINE_PORTS }
        ensures { result ≡ read_reply_to request.now self.now }
    {
        data_sets_law(self);
        let mut reply = Reply::to(request);
        self.read_into(request, &mut reply);
        reply
    }

    /// Does what `read` does, and puts the answers in place: one of the clock, or one of each named port. It is never
    /// inlined, so that a datagram without an answer pays nothing for its frame.
    #[inline(never)]
    pub fn read_into<A: Answers>(&self, request: &Request<'_>, answers: &mut A)
        requires action { IsRequestAction request.now.action }
        requires port { IsTargetPort request.now.port self.now }
        requires octets { IsDataField request.now.octets }
        requires room { A.count answers.old + length (read_reply_to request.now self.now).answers
            ≤ A.most answers.old }
        ensures { A.taken answers.old (read_reply_to request.now self.now).answers answers.new }
    {
        let get = is_get(request.action);
        let Some(row) = by_id(request.id) else {
            let error = if get {
                ErrorId::NoSuchId
            } else {
                ErrorId::NotSupported
            };
            answers.take_refusal(None, error);
            return;
        };
        let refusal = if get {
            refusal(&row, request, Rights::empty())
        } else {
            Some(ErrorId::NotSupported)
        };
        self.put_reply(&row, request, refusal, answers);
    }
}

fn is_get(action: Action) -> bool
    ensures { result ≡ is_get action }
{
    matches!(action, Action::Get)
}
