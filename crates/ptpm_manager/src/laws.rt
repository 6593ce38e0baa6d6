//! Laws of the definitions, each the contract of a function that does nothing.

ghost use Rattle.std.specs.Prelude.{◌≡◌, true, None, Some, ℕ, length, List, slice_set};
ghost use Rattle.ptpm_codec.specs.declared.message.Message.{Message};
ghost use Rattle.ptpm_codec.specs.Canonical.{canonical};
ghost use Rattle.ptpm_codec.specs.declared.identity.ClockIdentity.{ClockIdentity};
ghost use Rattle.ptpm_codec.specs.declared.identity.PortIdentity.{PortIdentity};
ghost use Rattle.ptpm_manager.specs.declared.receiving.Reason.{Reason};
ghost use Rattle.ptpm_manager.specs.declared.receiving.Received.TheVariants as received;
ghost use Rattle.ptpm_manager.specs.declared.report.Report.{Report};
ghost use Rattle.ptpm_manager.specs.Image.{SessionFits, SetupFits, UnansweredFits, session_image};
ghost use Rattle.ptpm_manager.specs.ImageReading.{session_at};
ghost use Rattle.ptpm_manager.specs.Receiving.{left_by, received_of};
ghost use Rattle.ptpm_manager.specs.Reply.{HoldsReply};
ghost use Rattle.ptpm_manager.specs.Restoring.{restore_refusal};
ghost use Rattle.ptpm_manager.specs.Session.{IsConsistent, SessionValue, anew, due_message, resumed, retuned, sent};
ghost use Rattle.ptpm_manager.specs.Setup.{is_setup_of};

use crate::session::Session;
use crate::setup::Setup;
use ptpm_codec::ClockIdentity;
use ptpm_data::Request;

/// A request is sent with the same octets each time; after `retune` they differ only in domainNumber, octet 4.
pub fn sent_again()
    ensures sent { (s : SessionValue) → due_message (sent s) ≡ due_message s }
    ensures resumed { (s : SessionValue) (attempts : ℕ)
        → due_message (resumed s attempts) ≡ due_message s }
    ensures retuned { (s : SessionValue) (domain : ℕ) (v w : Message) → due_message s ≡ Some v →
        due_message (retuned s domain) ≡ Some w → canonical w ≡ slice_set (canonical v) 4 domain }
{}

/// A session takes a datagram for its answer exactly if the datagram holds the reply to its request. That is from its target, for this
/// session, in its domain, and of the request's sequenceId. Any other datagram is ignored, and changes nothing.
pub fn answer_law()
    ensures answered { (s : SessionValue) (datagram : List ℕ) → HoldsReply s datagram
        → (report : Report) × (received_of s datagram ≡ received.Answered report) }
    ensures only { (s : SessionValue) (datagram : List ℕ) (report : Report)
        → received_of s datagram ≡ received.Answered report → HoldsReply s datagram }
    ensures ignored { (s : SessionValue) (datagram : List ℕ) → (HoldsReply s datagram → ⊥)
        → (reason : Reason) × ((received_of s datagram ≡ received.Ignored reason)
        × (left_by s (received_of s datagram) ≡ s)) }
{}

/// A session's image restores it, with all attempts before it, for its own manager. No two sessions that differ in anything else
/// have the same image.
pub fn image_law()
    ensures back { (s : SessionValue) → IsConsistent s → SessionFits s
        → session_at (session_image s) ≡ anew s }
    ensures permitted { (me : PortIdentity) (target : ClockIdentity) (ports first : ℕ) (s : SessionValue)
        → IsConsistent s → SessionFits s → is_setup_of me target ports first s.setup ≡ true
        → restore_refusal me target ports first (session_image s) ≡ None }
    ensures one { (s t : SessionValue) → IsConsistent s → IsConsistent t → SessionFits s → SessionFits t
        → session_image s ≡ session_image t → anew s ≡ anew t }
{}

/// Every session has an image that gives it back: it is consistent, its members are numbers of their types, and its identities
/// have eight octets.
pub fn session_law(session: &Session)
    ensures consistent { IsConsistent session.now }
    ensures fits { SessionFits session.now }
{
    let saved = session.saved();
    setup_law(&saved.setup);
    unanswered_law(&saved.unanswered);
}

fn setup_law(setup: &Setup)
    ensures { SetupFits setup.now }
{
    identity_law(&setup.me.clock);
    let _port = setup.me.port;
    identity_law(&setup.target);
    let _first = setup.first;
}

fn identity_law(identity: &ClockIdentity)
    ensures { length identity.now.0 ≡ 8 }
{
    let octets: &[u8] = &identity.0;
    let _ = octets.len();
}

fn unanswered_law(unanswered: &Option<Request<'_>>)
    ensures { UnansweredFits unanswered.now }
{
    if let Some(request) = unanswered {
        let _id = request.id;
    }
}
