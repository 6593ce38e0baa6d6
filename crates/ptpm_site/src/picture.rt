//! A site, judged.

ghost use Rattle.std.specs.Prelude.{IfOk, vec_len};
ghost use Rattle.ptpm_site.specs.Growing.{AreTrue};
ghost use Rattle.ptpm_site.specs.Tree.{StandsOnce};

use crate::judging::finding::Finding;
use crate::judging::findings_of;
use crate::judging::lacks::{Lack, lacks_of};
use crate::judging::leaders::{Leader, leaders_of};
use crate::judging::limits::Limits;
use crate::judging::open_findings::open_of;
use crate::reading::left_out::LeftOut;
use crate::reading::origin::{JudgedTime, judged_times};
use crate::reading::site::Site;
use crate::tree::forest::Forest;
use crate::tree::loops::least_of_loops;
use crate::tree::{TreeRow, rows};
use std::alloc::{AllocError, Global};

/// A site with its tree and its findings.
#[derive(Drop)]
pub struct Picture<'a> {
    pub site: &'a Site,
    pub forest: Forest,
    pub rows: Vec<TreeRow>,
    /// The grandmasters that lead, by domain and identity, whether they are seen or not.
    pub leaders: Vec<Leader>,
    /// The time of each of them. `None`: it is not judged.
    pub times: Vec<Option<JudgedTime>>,
    pub findings: Vec<Finding<'a>>,
    /// What is a finding if it lasts.
    pub open_findings: Vec<Finding<'a>>,
    /// What the lines lack, so that not all is judged.
    pub lacks: Vec<Lack>,
    pub left_out: LeftOut,
}

impl<'a> Picture<'a> {
    pub fn of(
        alloc: Global,
        site: &'a Site,
        left_out: LeftOut,
        limits: Limits,
    ) -> Result<Picture<'a>, AllocError>
        ensures once { IfOk result (λ picture. StandsOnce (vec_len picture.forest.sources) picture.rows.items) }
        ensures below { IfOk result (λ picture. AreTrue picture.forest picture.rows.items) }
    {
        let forest = Forest::of(alloc, site)?;
        let least = least_of_loops(alloc, forest.followed.as_slice())?;
        let rows = rows(alloc, site, &forest, least.as_slice())?;
        let leaders = leaders_of(alloc, site)?;
        let times = judged_times(alloc, site, limits, leaders.as_slice())?;
        let findings = findings_of(alloc, site, least.as_slice(), limits)?;
        let open_findings = open_of(alloc, site, limits)?;
        let lacks = lacks_of(alloc, site)?;
        Ok(Picture {
            site,
            forest,
            rows,
            leaders,
            times,
            findings,
            open_findings,
            lacks,
            left_out,
        })
    }
}
