//! The look before, which says what of a look may be there only for a moment.

ghost use Rattle.std.specs.Prelude.{◌≡◌, Bool, List, OnOk};
ghost use Rattle.std.specs.List.{items_where_true};

use crate::reading::site_lines::{SiteLines, read_shown};
use ptpm_causes::leave_out_momentary;
use ptpm_commands::Fault;
use ptpm_expected::expectations::Judge;
use ptpm_site::judging::limits::Limits;
use ptpm_site::picture::Picture;
use std::alloc::{AllocError, Global};
use std::io::Read;

/// The site of the look before.
#[derive(Drop)]
pub struct Before {
    lines: SiteLines,
}

impl Before {
    /// The site of a reader's lines.
    pub fn read<R: Read + Drop>(alloc: Global, reader: R) -> Result<Before, Fault> {
        let lines = read_shown(alloc, reader)?;
        Ok(Before { lines })
    }

    /// Leaves out of a picture the findings that do not count before a second look has them. Answers how many.
    pub(crate) fn leave_out<J: Judge>(
        &self,
        alloc: Global,
        limits: Limits,
        judge: &J,
        picture: &mut Picture<'_>,
    ) -> Result<usize, AllocError>
        ensures part { OnOk result ((stays : List Bool) × (picture.new.findings.items ≡ items_where_true stays picture.old.findings.items)) }
        ensures clocks { picture.new.forest ≡ picture.old.forest }
    {
        let SiteLines { shown, said } = &self.lines;
        let limits = limits.at_host(said.is_synchronised);
        let before = judge.picture_of(alloc, &shown.site, shown.left_out, limits)?;
        let all = picture.findings.len();
        leave_out_momentary(alloc, before.findings.as_slice(), &mut picture.findings)?;
        Ok(all.saturating_sub(picture.findings.len()))
    }
}
