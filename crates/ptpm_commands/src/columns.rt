//! A datagram in a line, after the columns of a tool that printed it.

ghost use Rattle.std.specs.Prelude.{◌≡◌, ◌⊎◌, ◌<◌, ◌++◌, ◌∷◌, [], IfErr, IfNone, IfOk, IfSome, length, map, option_map};
ghost use Rattle.ptpm_commands.specs.Columns.{HasNoDatagram, IsRow, cells};

use crate::datagram_line::datagram_of;
use crate::faults::Fault;
use std::alloc::{AllocError, Global};

/// What a line has.
#[derive(Drop)]
pub(crate) struct Row<'a> {
    /// The texts before each of its tabs.
    pub(crate) columns: Vec<&'a str>,
    /// The datagram after the last tab; none if `nothing` is there.
    pub(crate) datagram: Option<Vec<u8>>,
}

/// The columns and the datagram of a line. Refused with BadHex if what should be the digits of the datagram are none.
pub(crate) fn row_of<'a>(alloc: Global, line: &'a str) -> Result<Row<'a>, Fault>
    ensures ok { IfOk result
        (λ row. IsRow line.now (map (λ c. c.now) row.columns.items) (option_map (λ v. v.items) row.datagram)) }
    ensures err { IfErr result (λ e. (e ≡ Fault.OutOfMemory) ⊎ ((e ≡ Fault.BadHex) × HasNoDatagram line.now)) }
{
    let (columns, digits) = cells(alloc, line)?;
    let datagram = datagram_of(alloc, digits)?;
    Ok(Row { columns, datagram })
}

/// The texts before each tab of a line, and the one after the last.
fn cells<'a>(alloc: Global, line: &'a str) -> Result<(Vec<&'a str>, &'a str), AllocError>
    ensures { IfOk result (λ r. map (λ c. c.now) r.0.items ++ r.1.now ∷ [] ≡ cells line.now) }
{
    let mut columns = Vec::new(alloc);
    let mut rest = line;
    while let Some((column, behind)) = first_cell(rest) {
        columns.push(column)?;
        rest = behind;
    }
    Ok((columns, rest))
}

/// The text before the first tab, and what is after it; none if there is no tab.
fn first_cell(line: &str) -> Option<(&str, &str)>
    ensures none { IfNone result (cells line.now ≡ line.now ∷ []) }
    ensures some { IfSome result (λ r. cells line.now ≡ r.0.now ∷ cells r.1.now) }
    ensures shorter { IfSome result (λ r. length r.1.now < length line.now) }
{
    line.split_once('\t')
}
