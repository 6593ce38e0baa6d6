//! What a numbered request changes and is answered (clause 15).

ghost use Rattle.std.specs.Prelude.{◌≡◌};
ghost use Rattle.ptpm_data.specs.Refusals.{refusal_of};

use crate::answers::Answers;
use crate::data_sets::DataSets;
use crate::laws::data_sets_law;
use crate::management_id::by_id;
use crate::ports::INLINE_PORTS;
use crate::refusals::refusal;
use crate::reply::Reply;
use crate::request::Request;
use crate::rights::Rights;
use ptpm_codec::ErrorId;

impl DataSets {
    ghost use Rattle.std.specs.Prelude.{◌≤◌, ◌+◌, length};
    ghost use Rattle.ptpm_codec.specs.Message.{IsDataField, IsRequestAction};
    ghost use Rattle.ptpm_data.specs.Changes.{changed_by, IsTargetPort};
    ghost use Rattle.ptpm_data.specs.Replies.{reply_to};

    /// Carries out a numbered request of a manager with these rights, and answers it; a refused one changes no member. Takes
    /// no memory.
    ///
    /// The action is GET, SET or COMMAND. The target port is one of the clock's, or every port (0xFFFF). The dataField has
    /// an even number of octets, at most 1,418. The first of these refusals is the answer, once for each port that answers:
    /// 1. NO_SUCH_ID: the id is not in the table.
    /// 2. NOT_SETABLE to a SET, NOT_SUPPORTED to a GET or COMMAND: the id does not permit the action.
    /// 3. NOT_SUPPORTED: the manager lacks the right that the request needs.
    /// 4. WRONG_LENGTH: the dataField of a SET or COMMAND has not the size of the id's.
    /// 5. WRONG_VALUE: a SET's value is out of range.
    ///
    /// A clock of more than `INLINE_PORTS` ports has more answers than a `Reply`: `decide_into` puts them in place.
    #[tactic(auto, using(crate::proofs::Answering::decide_laws))]
    pub fn decide(&mut self, request: &Request<'_>, rights: Rights) -> Reply
        requires action { IsRequestAction request.now.action }
        requires port { IsTargetPort request.now.port self.old }
        requires octets { IsDataField request.now.octets }
        requires few { length self.old.ports ≤ INLINE_PORTS }
        ensures reply { result ≡ reply_to request.now rights self.old }
        ensures changed { self.new ≡ changed_by request.now rights self.old }
    {
        data_sets_law(self);
        let mut reply = Reply::to(request);
        self.decide_into(request, rights, &mut reply);
        reply
    }

    /// Does what `decide` does, and puts the answers in place: one of the clock, or one of each named port. It is never
    /// inlined, so that a datagram without an answer pays nothing for its frame.
    #[inline(never)]
    pub fn decide_into<A: Answers>(
        &mut self,
        request: &Request<'_>,
        rights: Rights,
        answers: &mut A,
    )
        requires action { IsRequestAction request.now.action }
        requires port { IsTargetPort request.now.port self.old }
        requires octets { IsDataField request.now.octets }
        requires room { A.count answers.old + length (reply_to request.now rights self.old).answers
            ≤ A.most answers.old }
        ensures reply { A.taken answers.old (reply_to request.now rights self.old).answers answers.new }
        ensures changed { self.new ≡ changed_by request.now rights self.old }
    {
        let Some(row) = by_id(request.id) else {
            answers.take_refusal(None, ErrorId::NoSuchId);
            return;
        };
        let refusal = self.carry_out(&row, request, rights);
        self.put_reply(&row, request, refusal, answers);
    }

    /// Carries out a numbered request as `decide` does, and answers only why it is refused. Takes no memory.
    pub fn change(&mut self, request: &Request<'_>, rights: Rights) -> Option<ErrorId>
        requires { IsTargetPort request.now.port self.old }
        ensures refusal { result ≡ refusal_of request.now rights }
        ensures changed { self.new ≡ changed_by request.now rights self.old }
    {
        let Some(row) = by_id(request.id) else {
            return Some(ErrorId::NoSuchId);
        };
        self.carry_out(&row, request, rights)
    }
}

/// Why a request of a manager with these rights is refused, whatever the data sets are; `None` if it is carried out.
pub fn refusal_of(request: &Request<'_>, rights: Rights) -> Option<ErrorId>
    ensures { result ≡ refusal_of request.now rights }
{
    match by_id(request.id) {
        Some(row) => refusal(&row, request, rights),
        None => Some(ErrorId::NoSuchId),
    }
}
