//! `ptpm show`: the fields of a message, a line each or as an object of JSON.

ghost use Rattle.std.specs.Prelude.{◌≡◌, ◌≢◌, ◌≤◌, ◌⊎◌, [], Err, IfErr, IfOk, IfSome, Ok, OnOk, codes, false, flat_map, map, true};
ghost use Rattle.std.specs.Io.KnownBytes.{Appends};
ghost use Rattle.ptpm_codec.specs.Message.{error_of, id_of, octets_of, text_of};
ghost use Rattle.ptpm_codec.specs.Reading.{reading};
ghost use Rattle.ptpm_commands.specs.Faults.{IsAtLine, IsAtSomeLine, is_of_line, is_outside};
ghost use Rattle.ptpm_text.specs.Lines.{whole_lines};
ghost use Rattle.ptpm_commands.specs.Lines.{left_in, row_value};
ghost use Rattle.ptpm_commands.specs.Taken.{HasNumbers, HasTaken, IsNext, ShowsNext, ShowsRow, good, line_message, message_of_row, taken};
ghost use Rattle.ptpm_commands.specs.Show.{AreShown, IsShown, action_lines, body_lines, column_lines, data_lines, error_named, field_lines, header_lines, identity_lines, message_lines, message_of, name_or_dash, named_line, object_line, read_as, row_lines, sdo_line, shown_name, value_lines};

use crate::columns::Row;
use crate::faults::{Done, Fault, tell};
use crate::lines::Lines;
use ptpm_codec::{ErrorId, View, view};
use ptpm_members::{FieldText, id_name, profile_id_name};
use ptpm_message_json::message_text;
use ptpm_text::Hexadecimal;
use std::alloc::Global;
use std::io;
use std::io::{Read, Write};

/// How a message is printed.
#[derive(Clone, Copy, Debug, PartialEq, Eq)]
pub enum Values {
    /// A line for each field; its dataField by its octets, in hexadecimal.
    Octets,
    /// A line for each field; its dataField by its members, a line each, with their names in the standard.
    Members,
    /// A line with one object of JSON.
    Json,
}

/// Prints the message that the text spells in hexadecimal, its dataField by its octets.
pub fn show<O: Write>(alloc: Global, text: &str, out: &mut O) -> Done
    ensures shown { OnOk result (IsShown Values.Octets [] (message_of text.now) (O.contents out.old) (O.contents out.new)) }
    ensures fault { IfErr result (λ e. is_outside e ≡ false → message_of text.now ≡ Err e) }
    ensures unprinted { IfErr result (λ e. e ≢ Fault.WriteFault → O.contents out.new ≡ O.contents out.old) }
{
    show_as(alloc, Values::Octets, text, out)
}

/// Prints the message that the text spells in hexadecimal.
pub fn show_as<O: Write>(alloc: Global, form: Values, text: &str, out: &mut O) -> Done
    ensures shown { OnOk result (IsShown form [] (message_of text.now) (O.contents out.old) (O.contents out.new)) }
    ensures fault { IfErr result (λ e. is_outside e ≡ false → message_of text.now ≡ Err e) }
    ensures unprinted { IfErr result (λ e. e ≢ Fault.WriteFault → O.contents out.new ≡ O.contents out.old) }
{
    let datagram = hex::decode(alloc, text)?;
    show_datagram(alloc, form, &[], datagram.as_slice(), out)
}

/// Prints the message of each line of a reader, one after another, each dataField by its octets. A line that is `nothing` is
/// passed over; the first that holds no management message is a fault.
pub fn show_lines<R: Read + Drop, O: Write>(alloc: Global, reader: R, out: &mut O) -> Done
    ensures lines { IfSome (R.remaining reader)
        (λ octets.
        HasNumbers octets
        → HasTaken (flat_map (row_lines Values.Octets)) (taken line_message 1 (whole_lines octets))
        (O.contents out.old) (O.contents out.new) result) }
    ensures shown { OnOk result (AreShown Values.Octets (O.contents out.old) (O.contents out.new)) }
    ensures fault { IfErr result (λ e. IsAtSomeLine e) }
{
    show_lines_as(alloc, Values::Octets, reader, out)
}

/// Prints the message of each line of a reader, one after another, and the columns of its line: the texts before each of its
/// tabs. A line that is `nothing` is passed over; the first that holds no management message is a fault.
pub fn show_lines_as<R: Read + Drop, O: Write>(
    alloc: Global,
    form: Values,
    reader: R,
    out: &mut O,
) -> Done
    ensures lines { IfSome (R.remaining reader)
        (λ octets.
        HasNumbers octets
        → HasTaken (flat_map (row_lines form)) (taken line_message 1 (whole_lines octets))
        (O.contents out.old) (O.contents out.new) result) }
    ensures shown { OnOk result (AreShown form (O.contents out.old) (O.contents out.new)) }
    ensures fault { IfErr result (λ e. IsAtSomeLine e) }
{
    let mut lines = Lines::new(alloc, reader)?;
    for number in 1..u64::MAX {
        if !show_next(alloc, form, &mut lines, number, out)? {
            break;
        }
    }
    Ok(())
}

/// Prints what `show_lines` prints, but passes over a line that is too long or holds no management message. It reports the fault
/// of such a line on `err`. What `err` does changes nothing.
pub fn show_good_lines<R: Read + Drop, O: Write, E: Write>(
    alloc: Global,
    reader: R,
    out: &mut O,
    err: &mut E,
) -> Done
    ensures lines { OnOk result
        (IfSome (R.remaining reader)
        (λ octets.
        HasNumbers octets
        → Appends (O.contents out.old) (O.contents out.new)
        (flat_map (row_lines Values.Octets) (good line_message 1 (whole_lines octets))))) }
    ensures shown { OnOk result (AreShown Values.Octets (O.contents out.old) (O.contents out.new)) }
    ensures fault { IfErr result (λ e. is_outside e ≡ true) }
{
    show_good_lines_as(alloc, Values::Octets, reader, out, err)
}

/// Prints as `show_lines_as` does, and passes over lines as `show_good_lines` does.
pub fn show_good_lines_as<R: Read + Drop, O: Write, E: Write>(
    alloc: Global,
    form: Values,
    reader: R,
    out: &mut O,
    err: &mut E,
) -> Done
    ensures lines { OnOk result
        (IfSome (R.remaining reader)
        (λ octets.
        HasNumbers octets
        → Appends (O.contents out.old) (O.contents out.new)
        (flat_map (row_lines form) (good line_message 1 (whole_lines octets))))) }
    ensures shown { OnOk result (AreShown form (O.contents out.old) (O.contents out.new)) }
    ensures fault { IfErr result (λ e. is_outside e ≡ true) }
{
    let mut lines = Lines::new(alloc, reader)?;
    for number in 1..u64::MAX {
        match show_next(alloc, form, &mut lines, number, out) {
            Ok(true) => {}
            Ok(false) => break,
            Err(fault) if fault.is_of_line() => {
                out.flush()?;
                let _ = tell(&fault, err);
            }
            Err(fault) => return Err(fault),
        }
    }
    Ok(())
}

/// Prints the message of the next line, which has this number; false if there are no more. What is printed is flushed
/// before a line that is not at hand.
fn show_next<R: Read + Drop, O: Write>(
    alloc: Global,
    form: Values,
    lines: &mut Lines<R>,
    number: u64,
    out: &mut O,
) -> Result<bool, Fault>
    ensures next { IfOk result
        (λ more.
        ShowsNext form number more (left_in R.remaining lines.old) (left_in R.remaining lines.new)
        (O.contents out.old) (O.contents out.new)) }
    ensures fault { IfErr result
        (λ e.
        (is_outside e ≡ true)
        ⊎ IsNext line_message number (left_in R.remaining lines.old) (left_in R.remaining lines.new) (Err e)) }
    ensures line { IfErr result (λ e. IsAtLine number e) }
    ensures unprinted { IfErr result (λ e. is_of_line e ≡ true → O.contents out.new ≡ O.contents out.old) }
{
    if !lines.read(number)? {
        return Ok(false);
    }
    let row = lines.row(alloc, number)?;
    show_row(alloc, number, form, &row, out)?;
    lines.flush_before_wait(out)?;
    Ok(true)
}

/// Prints the message of the line of this number, if it has one. A fault of the line names it.
fn show_row<O: Write>(alloc: Global, number: u64, form: Values, row: &Row<'_>, out: &mut O) -> Done
    ensures shown { OnOk result (ShowsRow form number (row_value row.now) (O.contents out.old) (O.contents out.new)) }
    ensures fault { IfErr result (λ e. (is_outside e ≡ true) ⊎ (message_of_row number (Ok (row_value row.now)) ≡ Err e)) }
    ensures line { IfErr result (λ e. IsAtLine number e) }
    ensures unprinted { IfErr result (λ e. is_of_line e ≡ true → O.contents out.new ≡ O.contents out.old) }
{
    let Some(datagram) = &row.datagram else {
        return Ok(());
    };
    match show_datagram(
        alloc,
        form,
        row.columns.as_slice(),
        datagram.as_slice(),
        out,
    ) {
        Ok(()) => Ok(()),
        Err(fault) => Err(fault.at_line(number)),
    }
}

fn show_datagram<O: Write>(
    alloc: Global,
    form: Values,
    columns: &[&str],
    datagram: &[u8],
    out: &mut O,
) -> Done
    ensures shown { OnOk result
        (IsShown form (map (λ c. c.now) columns.now) (read_as (reading datagram.now)) (O.contents out.old) (O.contents out.new)) }
    ensures fault { IfErr result (λ e. is_outside e ≡ false → read_as (reading datagram.now) ≡ Err e) }
    ensures unprinted { IfErr result (λ e. e ≢ Fault.WriteFault → O.contents out.new ≡ O.contents out.old) }
{
    let message = view(datagram)?;
    show_message(alloc, form, columns, &message, out)?;
    Ok(())
}

fn show_message<O: Write>(
    alloc: Global,
    form: Values,
    columns: &[&str],
    message: &View<'_>,
    out: &mut O,
) -> Done
    requires { message.now.sdo ≤ 4095 }
    ensures shown { OnOk result (Appends (O.contents out.old) (O.contents out.new)
        (message_lines form (map (λ c. c.now) columns.now) message.now)) }
    ensures fault { IfErr result (λ e. is_outside e ≡ true) }
    ensures unprinted { IfErr result (λ e. e ≢ Fault.WriteFault → O.contents out.new ≡ O.contents out.old) }
{
    match form {
        Values::Octets => show_fields(Values::Octets, columns, message, out),
        Values::Members => show_fields(Values::Members, columns, message, out),
        Values::Json => show_object(alloc, columns, message, out),
    }
}

/// Prints a message as one object of JSON, in a line.
fn show_object<O: Write>(alloc: Global, columns: &[&str], message: &View<'_>, out: &mut O) -> Done
    ensures shown { OnOk result (Appends (O.contents out.old) (O.contents out.new)
        (object_line (map (λ c. c.now) columns.now) message.now)) }
    ensures fault { IfErr result (λ e. is_outside e ≡ true) }
    ensures unprinted { IfErr result (λ e. e ≢ Fault.WriteFault → O.contents out.new ≡ O.contents out.old) }
{
    let text = message_text(alloc, columns, message)?;
    writeln!(out, "{}", text.as_str())?;
    Ok(())
}

/// Prints columns, and the fields of a message, a line each.
fn show_fields<O: Write>(form: Values, columns: &[&str], message: &View<'_>, out: &mut O) -> Done
    requires { message.now.sdo ≤ 4095 }
    ensures shown { OnOk result (Appends (O.contents out.old) (O.contents out.new)
        (field_lines form (map (λ c. c.now) columns.now) message.now)) }
    ensures fault { IfErr result (λ e. is_outside e ≡ true) }
    ensures unprinted { IfErr result (λ e. e ≢ Fault.WriteFault → O.contents out.new ≡ O.contents out.old) }
{
    show_columns(columns, out)?;
    show_header(message, out)?;
    show_body(form, message, out)?;
    Ok(())
}

/// What came before the octets of a message in its line.
#[tactic(auto, unfolding(crate::specs::Show::column_lines))]
fn show_columns<O: Write>(columns: &[&str], out: &mut O) -> io::Result<()>
    ensures { OnOk result (Appends (O.contents out.old) (O.contents out.new) (column_lines (map (λ c. c.now) columns.now))) }
{
    for column in columns {
        writeln!(out, "column {column}")?;
    }
    Ok(())
}

#[tactic(auto, unfolding(crate::specs::Show::header_lines))]
fn show_header<O: Write>(message: &View<'_>, out: &mut O) -> io::Result<()>
    requires { message.now.sdo ≤ 4095 }
    ensures { OnOk result (Appends (O.contents out.old) (O.contents out.new) (header_lines message.now)) }
{
    show_sdo(message.sdo(), out)?;
    writeln!(out, "domain {}", message.domain())?;
    show_identities(message, out)?;
    show_rest(message, out)
}

/// Both identities, and the sequenceId.
#[tactic(auto, unfolding(crate::specs::Show::identity_lines))]
fn show_identities<O: Write>(message: &View<'_>, out: &mut O) -> io::Result<()>
    ensures { OnOk result (Appends (O.contents out.old) (O.contents out.new) (identity_lines message.now)) }
{
    writeln!(out, "source {}", message.source())?;
    writeln!(out, "target {}", message.target())?;
    writeln!(out, "number {}", message.number())
}

/// Both hop fields, and the action.
#[tactic(auto, unfolding(crate::specs::Show::action_lines))]
fn show_rest<O: Write>(message: &View<'_>, out: &mut O) -> io::Result<()>
    ensures { OnOk result (Appends (O.contents out.old) (O.contents out.new) (action_lines message.now)) }
{
    let starting = message.starting_hops();
    writeln!(out, "hops {} of {starting}", message.hops())?;
    writeln!(out, "action {}", message.action())
}

/// sdoId, of 12 bits, in three hexadecimal digits.
#[tactic(auto, using(std::proofs::lemmas::Fmt::hex_one_digit))]
fn show_sdo<O: Write>(sdo: u16, out: &mut O) -> io::Result<()>
    requires { sdo ≤ 4095 }
    ensures { OnOk result (Appends (O.contents out.old) (O.contents out.new) (sdo_line sdo)) }
{
    writeln!(
        out,
        "sdo {:x}{}",
        sdo / 256,
        Hexadecimal(&[(sdo % 256) as u8])
    )
}

/// The managementId with its name, `-` if there is none, and what follows it in the TLV.
#[tactic(auto, unfolding(crate::specs::Show::body_lines))]
fn show_body<O: Write>(form: Values, message: &View<'_>, out: &mut O) -> io::Result<()>
    ensures { OnOk result (Appends (O.contents out.old) (O.contents out.new) (body_lines form message.now)) }
{
    let id = message.id();
    let name = name_of(form, id);
    writeln!(out, "id {} {name}", Hexadecimal(&id.to_be_bytes()))?;
    show_value(form, message, out)
}

/// The dataField; of an error status the managementErrorId, whose name is `-` if the standard has none, and the text.
fn show_value<O: Write>(form: Values, message: &View<'_>, out: &mut O) -> io::Result<()>
    ensures { OnOk result (Appends (O.contents out.old) (O.contents out.new)
        (value_lines form (id_of message.now.body) (error_of message.now.body)
        (octets_of message.now.body) (text_of message.now.body))) }
{
    let Some(error) = message.error() else {
        return show_data(form, message.id(), message.octets(), out);
    };
    show_error(error, out)?;
    writeln!(out, "text {}", Hexadecimal(message.text()))
}

/// The dataField of this id; none of an object, which has it within.
#[tactic(auto, unfolding(crate::specs::Show::data_lines))]
fn show_data<O: Write>(form: Values, id: u16, octets: &[u8], out: &mut O) -> io::Result<()>
    ensures { OnOk result (Appends (O.contents out.old) (O.contents out.new) (data_lines form id octets.now)) }
{
    match form {
        Values::Octets => writeln!(out, "value {}", Hexadecimal(octets)),
        Values::Members => {
            let lead = "";
            write!(out, "{}", FieldText { lead, id, octets })
        }
        Values::Json => Ok(()),
    }
}

/// The managementErrorId, whose name is `-` if the standard has none.
fn show_error<O: Write>(number: u16, out: &mut O) -> io::Result<()>
    ensures { OnOk result (Appends (O.contents out.old) (O.contents out.new)
        (named_line (codes "error ") number (error_named number))) }
{
    let digits = number.to_be_bytes();
    match ErrorId::from_number(number) {
        Some(name) => writeln!(out, "error {} {name}", Hexadecimal(&digits)),
        None => writeln!(out, "error {} {}", Hexadecimal(&digits), "-"),
    }
}

/// The name of a managementId: beside its octets one of this profile's table, beside its members also one of others. `-` if there
/// is none.
fn name_of(form: Values, id: u16) -> &'static str
    ensures { result.now ≡ name_or_dash (shown_name form id) }
{
    let name = match form {
        Values::Octets => profile_id_name(id),
        Values::Members | Values::Json => id_name(id),
    };
    name.unwrap_or("-")
}
