//! What holds of the members' places. Each law is the contract of a function that does nothing.

ghost use Rattle.std.specs.Prelude.{◌≡◌, ℕ, true, List, Some, Ok};
ghost use Rattle.std.specs.List.{All};
ghost use Rattle.ptpm_data.specs.DataField.{data_field_of_id, port_shown};
ghost use Rattle.ptpm_data.specs.Image.{DataSetsFit};
ghost use Rattle.ptpm_data.specs.ManagementId.{RowValue, is_of_port, row_of};
ghost use Rattle.ptpm_data.specs.Members.{DataSetsValue, HasPort};
ghost use Rattle.ptpm_data.specs.RequestLaws.{IsSized};
ghost use Rattle.ptpm_data.specs.SetLaws.{standard_field};
ghost use Rattle.ptpm_members.specs.Parsed.{parsed};
ghost use Rattle.ptpm_members.specs.RoundTrip.{IsInRange, words_of};
ghost use Rattle.ptpm_members.specs.Tables.{IsSaid, fields_of_id, is_whole_of_id};

/// The answer to a GET of an id has a member at each of its places. The octets there are the member's value in the data sets,
/// whatever these are. It has as many octets as its members take, and a reserved one if that number is odd.
///
/// For an id of a port, the port is one of the clock's; and the clock's members are numbers of their types.
#[tactic(auto, using(crate::proofs::Answered::members_of, crate::proofs::Answered::whole_of))]
pub fn member_law()
    ensures members { (id port : ℕ) (d : DataSetsValue) → IsSized d → DataSetsFit d
        → (is_of_port id ≡ true → HasPort port d)
        → All (IsSaid (port_shown id port) d (data_field_of_id id port d)) (fields_of_id id) }
    ensures whole { (id port : ℕ) (d : DataSetsValue) → IsSized d
        → (is_of_port id ≡ true → HasPort port d)
        → is_whole_of_id id (data_field_of_id id port d) ≡ true }
{}

/// Whatever a SET of an id may have comes back from its text. The words of its lines are taken for the same dataField, in which
/// reserved octets and bits are 0.
#[tactic(auto, using(crate::proofs::SetBack::set_back), unfolding(crate::specs::Parsed::parsed))]
pub fn typed_again_law()
    ensures { (id : ℕ) (row : RowValue) (octets : List ℕ) → row_of id ≡ Some row
        → IsInRange row.layout octets
        → parsed id (words_of row.layout octets) ≡ Ok (standard_field row.layout octets) }
{}
