//! The data sets of a clock, by managementId.

ghost use Rattle.std.specs.Prelude.{◌≡◌, ◌≤◌, None, Some, IfOk, MatchResult, OnErr, drop, length, take};
ghost use Rattle.ptpm_codec.specs.declared.message.Action.TheVariants.{Get};
ghost use Rattle.ptpm_data.specs.DataField.{data_field_of_id, permits};
ghost use Rattle.ptpm_data.specs.ManagementId.{is_of_port};
ghost use Rattle.ptpm_host.specs.DataSetReading.{read_refusal};

use crate::refusal::ReadRefusal;
use bitflags::Flags;
use ptpm_data::{Actions, DataSets, Scope, Value, row};

/// Leaves what a GET of this id is answered at the head of `octets`, and answers how many octets that is. What follows
/// it stays. The port matters only for an id of a port. If it is refused, nothing is written. Takes no memory.
pub fn read(sets: &DataSets, id: u16, port: u16, octets: &mut [u8]) -> Result<usize, ReadRefusal>
    ensures field { IfOk result (λ n. take n octets.new ≡ data_field_of_id id port sets.now) }
    ensures within { IfOk result (λ n. n ≤ length octets.new) }
    ensures behind { IfOk result (λ n. drop n octets.new ≡ drop n octets.old) }
    ensures size { length octets.new ≡ length octets.old }
    ensures refusal { MatchResult result
        (λ _. read_refusal id port (length octets.old) sets.now ≡ None)
        (λ e. read_refusal id port (length octets.old) sets.now ≡ Some e) }
    ensures untouched { OnErr result (octets.new ≡ octets.old) }
{
    if !is_readable(id) {
        return Err(ReadRefusal::NotReadable);
    }
    if is_of_port(id) && !sets.has_port(port) {
        return Err(ReadRefusal::NoPort);
    }
    if octets.len() < 130 {
        return Err(ReadRefusal::NoRoom);
    }
    let mut field = Value::new();
    sets.lay(id, port, &mut field);
    let field = field.as_slice();
    octets[..field.len()].copy_from_slice(field);
    Ok(field.len())
}

fn is_readable(id: u16) -> bool
    ensures { result ≡ permits Get id }
{
    matches!(row(id), Some(row) if row.actions.contains(Actions::GET))
}

fn is_of_port(id: u16) -> bool
    ensures { result ≡ is_of_port id }
{
    matches!(row(id), Some(row) if row.scope == Scope::Port)
}
