//! What holds of the table of management ids, of every clock's data sets, and of every reply, for whoever proves something
//! over them. Each law is the contract of a function that does nothing.

ghost use Rattle.std.specs.Prelude.{◌≡◌, ◌<◌, ◌≤◌, ◌^◌, List, length, map, option_map, None, Some};
ghost use Rattle.std.specs.List.{All, Contains};
ghost use Rattle.std.specs.Option.{option_or};
ghost use Rattle.ptpm_codec.specs.declared.error.ErrorId.{ErrorId};
ghost use Rattle.ptpm_codec.specs.declared.message.Action.TheVariants.{Get};
ghost use Rattle.ptpm_codec.specs.Message.{IsRequestAction};
ghost use Rattle.ptpm_data.specs.declared.members.Member.TheVariants.{ClockAccuracy, GrandmasterAccuracy, GrandmasterPriority1, GrandmasterPriority2, Priority1, Priority2};
ghost use Rattle.ptpm_data.specs.declared.observation.ClockObservation.{ClockObservation};
ghost use Rattle.ptpm_data.specs.declared.observation.ObservationError.{ObservationError};
ghost use Rattle.ptpm_data.specs.declared.observation.PortObservation.{PortObservation};
ghost use Rattle.ptpm_data.specs.declared.rights.Rights.{Rights};
ghost use Rattle.ptpm_data.specs.Changes.{changed_by, IsTargetPort};
ghost use Rattle.ptpm_data.specs.ManagementId.{id_table, row_of, row_named};
ghost use Rattle.ptpm_data.specs.MemberMap.{Place, plain, value_of};
ghost use Rattle.ptpm_data.specs.Members.{DataSetsValue, IsConsistent};
ghost use Rattle.ptpm_codec.specs.Message.{reply_action};
ghost use Rattle.ptpm_data.specs.Observation.{is_disabled, observation_refusal, observed};
ghost use Rattle.ptpm_data.specs.ObservationBack.{Observation, observed_again, observed_each};
ghost use Rattle.ptpm_data.specs.ObservationLaws.{IsSizedObservation, observed_value};
ghost use Rattle.ptpm_data.specs.Replies.{read_reply_to, reply_to};
ghost use Rattle.ptpm_data.specs.Reply.{Answer, Refused, Value};
ghost use Rattle.ptpm_data.specs.Request.{RequestValue};
ghost use Rattle.ptpm_data.specs.RequestLaws.{answerer, IsForOne, IsOneAnswer, IsOutcomeOf, IsSized};
ghost use Rattle.ptpm_data.specs.SetField.{octet};
ghost use Rattle.ptpm_data.specs.SetLaws.{AreOctets, get_of, IsAcceptedSet, MovesWithGrandmaster, standard_field_at};

use crate::data_sets::DataSets;
use crate::management_id::MANAGEMENT_IDS;
use crate::observation::{ClockObservation, ObservedGrandmaster};
use crate::ports::PORTS;
use ptpm_codec::{ClockIdentity, PortIdentity};

/// Each entry of the table is found by its id and by its name: so ids are distinct, and so are names. `MANAGEMENT_IDS` are
/// the ids of all entries, in order.
#[tactic(auto, unfolding(crate::specs::ManagementId::row_of, crate::specs::ManagementId::row_named))]
pub fn id_table_law()
    ensures by_id { map (λ e. row_of e.id) id_table ≡ map Some id_table }
    ensures by_name { map (λ e. row_named e.name) id_table ≡ map Some id_table }
    ensures ids { map (λ e. e.id) id_table ≡ MANAGEMENT_IDS }
{}

/// A clock has 1 to `PORTS` ports, and identities of eight octets. Its own identity is not all ones. It has a text of at most
/// 128 octets of UTF-8. Its accuracy, and what a SET can change at each port, is in its range, and not both leaps are
/// announced. If it is its own grandmaster, its parent data set shows its own priorities and quality.
#[tactic(auto, using(crate::proofs::StartLemmas::description_small))]
pub fn data_sets_law(sets: &DataSets)
    ensures consistent { IsConsistent sets.now }
    ensures sized { IsSized sets.now }
{
    identity_law(&sets.default.identity);
    identity_law(&sets.parent.parent_port.clock);
    identity_law(&sets.parent.grandmaster);
}

/// Data sets are no more than their map of members: two that have the same value at every place are equal.
#[tactic(auto, using(crate::proofs::PlainMap::map_decides))]
pub fn member_map_law()
    ensures { (a : DataSetsValue)
        → (b : DataSetsValue)
        → ((place : Place) → value_of place a ≡ value_of place b)
        → a ≡ b }
{}

/// The same of two clocks' data sets, whose members are only whole numbers and lists of octets.
#[tactic(auto, using(crate::proofs::PlainMap::plain_map_decides))]
pub fn plain_map_law(a: &DataSets, b: &DataSets)
    ensures { ((place : Place)
        → option_map plain (value_of place a.now) ≡ option_map plain (value_of place b.now))
        → a.now ≡ b.now }
{
    port_identity_law(&a.parent.parent_port);
    port_identity_law(&b.parent.parent_port);
}

/// An identity has eight octets.
pub(crate) fn identity_law(identity: &ClockIdentity)
    ensures { length identity.now.0 ≡ 8 }
{
    let octets: &[u8] = &identity.0;
    let _ = octets.len();
}

/// A portIdentity has eight octets and a number of sixteen bits.
pub(crate) fn port_identity_law(identity: &PortIdentity)
    ensures clock { length identity.now.clock.0 ≡ 8 }
    ensures port { identity.now.port < 2 ^ 16 }
{
    identity_law(&identity.clock);
    let _port = identity.port;
}

/// What holds of the reply to a request that is not numbered. A GET is answered as a numbered one, whatever the rights.
pub fn read_reply_law()
    ensures action { (q : RequestValue) (d : DataSetsValue)
        → (read_reply_to q d).action ≡ reply_action q.action }
    ensures id { (q : RequestValue) (d : DataSetsValue) → (read_reply_to q d).id ≡ q.id }
    ensures one_answer { (q : RequestValue) (d : DataSetsValue) → IsSized d → IsForOne q d
        → IsOneAnswer (answerer q) (read_reply_to q d) }
    ensures outcomes { (q : RequestValue) (d : DataSetsValue) → IsSized d → IsRequestAction q.action
        → All (λ a. IsOutcomeOf q a.outcome) (read_reply_to q d).answers }
    ensures some_answer { (q : RequestValue) (d : DataSetsValue) → IsSized d → IsTargetPort q.port d
        → 1 ≤ length (read_reply_to q d).answers }
    ensures few_answers { (q : RequestValue) (d : DataSetsValue)
        → IsSized d
        → IsTargetPort q.port d
        → length (read_reply_to q d).answers ≤ PORTS }
    ensures get { (q : RequestValue) (rights : Rights) (d : DataSetsValue) → q.action ≡ Get
        → read_reply_to q d ≡ reply_to q rights d }
{}

/// What holds of the reply to a numbered request.
pub fn reply_law()
    ensures action { (q : RequestValue) (rights : Rights) (d : DataSetsValue)
        → (reply_to q rights d).action ≡ reply_action q.action }
    ensures id { (q : RequestValue) (rights : Rights) (d : DataSetsValue)
        → (reply_to q rights d).id ≡ q.id }
    ensures one_answer { (q : RequestValue) (rights : Rights) (d : DataSetsValue)
        → IsSized d
        → IsForOne q d
        → IsOneAnswer (answerer q) (reply_to q rights d) }
    ensures outcomes { (q : RequestValue) (rights : Rights) (d : DataSetsValue)
        → IsSized d
        → IsRequestAction q.action
        → All (λ a. IsOutcomeOf q a.outcome) (reply_to q rights d).answers }
    ensures some_answer { (q : RequestValue) (rights : Rights) (d : DataSetsValue)
        → IsSized d
        → IsTargetPort q.port d
        → 1 ≤ length (reply_to q rights d).answers }
    ensures few_answers { (q : RequestValue) (rights : Rights) (d : DataSetsValue)
        → IsSized d
        → IsTargetPort q.port d
        → length (reply_to q rights d).answers ≤ PORTS }
{}

/// What every request keeps, and which requests change nothing: a GET, and a request with an error among its answers.
pub fn change_law()
    ensures identity { (q : RequestValue) (rights : Rights) (d : DataSetsValue)
        → (changed_by q rights d).default.identity ≡ d.default.identity }
    ensures ports { (q : RequestValue) (rights : Rights) (d : DataSetsValue)
        → length (changed_by q rights d).ports ≡ length d.ports }
    ensures sized { (q : RequestValue) (rights : Rights) (d : DataSetsValue)
        → IsSized d
        → IsSized (changed_by q rights d) }
    ensures consistent { (q : RequestValue) (rights : Rights) (d : DataSetsValue)
        → IsConsistent d
        → IsConsistent (changed_by q rights d) }
    ensures get { (q : RequestValue) (rights : Rights) (d : DataSetsValue)
        → q.action ≡ Get
        → changed_by q rights d ≡ d }
    ensures refused { (q : RequestValue) (rights : Rights) (d : DataSetsValue) (a : Answer)
        (error : ErrorId)
        → Contains (reply_to q rights d).answers a
        → a.outcome ≡ Refused error
        → changed_by q rights d ≡ d }
{}

/// An accepted SET is answered by the dataFields as they are after it. The reply has what a GET of the same id and target port
/// would be answered right after it. Each answer is the SET's own octets, with reserved octets, unused flags and a text's pad
/// as the standard has them.
#[tactic(auto, using(crate::proofs::OwnOctets::set_read_back, crate::proofs::OwnOctets::own_octets))]
pub fn set_law()
    ensures read_back { (q : RequestValue) (rights : Rights) (d : DataSetsValue)
        → IsAcceptedSet q rights
        → reply_to q rights d ≡ read_reply_to (get_of q) (changed_by q rights d) }
    ensures own_octets { (q : RequestValue) (rights : Rights) (d : DataSetsValue)
        → IsAcceptedSet q rights
        → AreOctets q.octets
        → All (λ a. a.outcome ≡ Value (standard_field_at (row_of q.id) q.octets))
        (reply_to q rights d).answers }
{}

/// An accepted SET of PRIORITY1, PRIORITY2 or CLOCK_ACCURACY sets that member to its first octet. In a clock that is its own
/// grandmaster the grandmaster's member of that name follows (9.3.5, table 30). No other member changes, whatever the data sets
/// are.
pub fn grandmaster_law()
    ensures priority1 { (q : RequestValue) (rights : Rights) (d : DataSetsValue)
        → IsAcceptedSet q rights
        → q.id ≡ 0x2005
        → MovesWithGrandmaster Priority1 GrandmasterPriority1 (octet 0 q.octets) d
        (changed_by q rights d) }
    ensures priority2 { (q : RequestValue) (rights : Rights) (d : DataSetsValue)
        → IsAcceptedSet q rights
        → q.id ≡ 0x2006
        → MovesWithGrandmaster Priority2 GrandmasterPriority2 (octet 0 q.octets) d
        (changed_by q rights d) }
    ensures accuracy { (q : RequestValue) (rights : Rights) (d : DataSetsValue)
        → IsAcceptedSet q rights
        → q.id ≡ 0x2010
        → MovesWithGrandmaster ClockAccuracy GrandmasterAccuracy (octet 0 q.octets) d
        (changed_by q rights d) }
{}

/// What an observation changes, in terms of the map of members. A member that is observed has the observed value afterwards,
/// and every other one stays. If the observation is refused, each stays. The clock's identity and the number of its ports stay,
/// and so does which of its ports are disabled.
#[tactic(auto, using(crate::proofs::Consistency::observation_laws))]
pub fn observation_law()
    ensures observed { (o : ClockObservation) (ports : List PortObservation) (d : DataSetsValue) (place : Place)
        → observation_refusal o ports d ≡ None
        → value_of place (observed o ports d) ≡ option_or (observed_value place o ports d) (value_of place d) }
    ensures stays { (o : ClockObservation) (ports : List PortObservation) (d : DataSetsValue) (place : Place)
        → observed_value place o ports d ≡ None
        → value_of place (observed o ports d) ≡ value_of place d }
    ensures refused { (o : ClockObservation) (ports : List PortObservation) (d : DataSetsValue) (error : ObservationError)
        → observation_refusal o ports d ≡ Some error
        → observed o ports d ≡ d }
    ensures identity { (o : ClockObservation) (ports : List PortObservation) (d : DataSetsValue)
        → (observed o ports d).default.identity ≡ d.default.identity }
    ensures ports { (o : ClockObservation) (ports : List PortObservation) (d : DataSetsValue)
        → length (observed o ports d).ports ≡ length d.ports }
    ensures disabled { (o : ClockObservation) (ports : List PortObservation) (d : DataSetsValue)
        → map (λ p. is_disabled p.state) (observed o ports d).ports ≡ map (λ p. is_disabled p.state) d.ports }
    ensures sized { (o : ClockObservation) (ports : List PortObservation) (d : DataSetsValue)
        → IsSizedObservation o
        → IsSized d
        → IsSized (observed o ports d) }
    ensures consistent { (o : ClockObservation) (ports : List PortObservation) (d : DataSetsValue)
        → IsConsistent d
        → IsConsistent (observed o ports d) }
{}

/// Take any number of observations, and then one of all the members that data sets had before. It brings these data sets back:
/// a disabled port stayed disabled, and every member that no host observes stayed as it was.
#[tactic(auto, using(crate::proofs::ObservingBack::observed_back))]
pub fn observation_back_law()
    ensures { (observations : List Observation) (d : DataSetsValue)
        → IsConsistent d
        → observed_again d (observed_each observations d) ≡ d }
{}

/// A grandmaster that is observed has identities of eight octets.
pub fn sized_observation_law(clock: &ClockObservation)
    ensures { IsSizedObservation clock.now }
{
    if let Some(ObservedGrandmaster::Announced(announced)) = &clock.grandmaster {
        identity_law(&announced.identity);
        identity_law(&announced.parent_port.clock);
    }
}
