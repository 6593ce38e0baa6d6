//! A change at the device itself.

ghost use Rattle.std.specs.Prelude.{◌≡◌, MatchResult, None, OnErr, Some};
ghost use Rattle.std.specs.FinMap as fin;
ghost use Rattle.ptpm_codec.specs.Message.{IsDataField, IsRequestAction};
ghost use Rattle.ptpm_data.specs.Changes.{IsTargetPort};
ghost use Rattle.ptpm_data.specs.Refusals.{refusal_of};
ghost use Rattle.ptpm_data.specs.Rights.{all_rights};
ghost use Rattle.ptpm_agent.specs.Agent.{state_of};
ghost use Rattle.ptpm_device.specs.Changing.{changed_state};

use ptpm_agent::Agent;
use ptpm_codec::ErrorId;
use ptpm_data::Request;
use ptpm_table::ReplyTable;

/// Carries out a request of the device's owner, as one of a manager with every right: by a command line, or by another protocol.
/// If that manager would be refused, this is refused with the same error, and nothing changes. What is kept of each manager
/// stays. So a copy of its latest request still gets the reply of its time. Takes no memory.
pub fn change_here<T: ReplyTable + Drop>(
    agent: &mut Agent<T>,
    request: &Request<'_>,
) -> Result<(), ErrorId>
    requires action { IsRequestAction request.now.action }
    requires port { IsTargetPort request.now.port agent.old.sets }
    requires octets { IsDataField request.now.octets }
    ensures refusal { MatchResult result
        (λ _. refusal_of request.now all_rights ≡ None)
        (λ error. refusal_of request.now all_rights ≡ Some error) }
    ensures changed { state_of T.entries agent.new
        ≡ changed_state request.now (state_of T.entries agent.old) }
    ensures table { agent.new.table ≡ agent.old.table }
    ensures unchanged { OnErr result (agent.new ≡ agent.old) }
{
    match agent.carry_out_here(request) {
        Some(error) => Err(error),
        None => Ok(()),
    }
}
