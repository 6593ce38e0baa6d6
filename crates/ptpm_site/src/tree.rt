//! The tree of a site: each clock below the one that it follows.

pub mod builder;
pub mod forest;
pub mod loops;
pub(crate) mod marks;
pub(crate) mod walks;

ghost use Rattle.std.specs.Prelude.{IfOk, OnOk, vec_len};
ghost use Rattle.ptpm_site.specs.Growing.{AreTrue};
ghost use Rattle.ptpm_site.specs.Tree.{StandsOnce};

use crate::reading::domain::Domain;
use crate::reading::site::Site;
use crate::tree::builder::TreeBuilder;
use crate::tree::forest::Forest;
use crate::tree::marks::is_marked;
use ptpm_codec::PortIdentity;
use std::alloc::{AllocError, Global};

/// A line of the tree.
#[derive(Clone, Copy)]
pub enum TreeRow {
    /// The clock at this place of the site, and how many rows are above it on the way to its root.
    Clock {
        place: usize,
        depth: u32,
    },
    /// A port that the clocks below this row follow, and whose clock is not seen.
    NotSeen {
        domain: Domain,
        parent: PortIdentity,
    },
}

/// The rows of the tree. `least` marks the least clock of each loop. In each domain come first the grandmasters, then the clocks
/// whose parent is not seen. Then come those of loops, from their least one on, and those that stand by or did not say whom they
/// follow.
/// Below each clock come those that follow it, by its port, and then by identity.
pub fn rows(
    alloc: Global,
    site: &Site,
    forest: &Forest,
    least: &[bool],
) -> Result<Vec<TreeRow>, AllocError>
    ensures once { IfOk result (λ rows. StandsOnce (vec_len forest.now.sources) rows.items) }
    ensures below { IfOk result (λ rows. AreTrue forest.now rows.items) }
{
    let mut builder = TreeBuilder::new(alloc);
    for place in 0..forest.sources.len() {
        if let Some(domain) = forest.domain_begun_at(place) {
            add_domain(site, forest, domain, least, &mut builder)?;
        }
    }
    builder.finish(forest)
}

/// The rows of a domain.
fn add_domain(
    site: &Site,
    forest: &Forest,
    domain: Domain,
    least: &[bool],
    builder: &mut TreeBuilder,
) -> Result<(), AllocError>
    requires { AreTrue forest.now builder.old.rows.items }
    ensures { OnOk result (AreTrue forest.now builder.new.rows.items) }
{
    add_roots(forest, domain, builder, |place| {
        is_grandmaster_at(site, forest, place)
    })?;
    add_lost(forest, domain, builder)?;
    add_roots(forest, domain, builder, |place| is_marked(least, place))?;
    add_roots(forest, domain, builder, |place| {
        is_following_none_at(site, forest, place)
    })
}

/// The clocks of a domain that are roots.
fn add_roots<F: Fn(usize) -> bool>(
    forest: &Forest,
    domain: Domain,
    builder: &mut TreeBuilder,
    is_root: F,
) -> Result<(), AllocError>
    requires callable { F.IsAlwaysCallable is_root }
    requires below { AreTrue forest.now builder.old.rows.items }
    ensures { OnOk result (AreTrue forest.now builder.new.rows.items) }
{
    let places = forest.places_of(domain);
    for place in places.start..places.end {
        if is_root(place) {
            builder.add_subtree(forest, place, 0)?;
        }
    }
    Ok(())
}

/// Whether the clock at a place is its own grandmaster, and so follows none.
fn is_grandmaster_at(site: &Site, forest: &Forest, place: usize) -> bool {
    match forest.sources.get(place) {
        Some(source) => site.is_own_grandmaster(*source),
        None => false,
    }
}

/// Whether the clock at a place follows nobody, as far as is known.
fn is_following_none_at(site: &Site, forest: &Forest, place: usize) -> bool {
    match forest.sources.get(place) {
        Some(source) => site.followed(*source).is_none(),
        None => false,
    }
}

/// The clocks of a domain whose parent is not seen, below its port.
fn add_lost(forest: &Forest, domain: Domain, builder: &mut TreeBuilder) -> Result<(), AllocError>
    requires { AreTrue forest.now builder.old.rows.items }
    ensures { OnOk result (AreTrue forest.now builder.new.rows.items) }
{
    let mut above = None;
    for lost in forest.lost_of(domain) {
        if above != Some(lost.parent) {
            above = Some(lost.parent);
            builder.add_not_seen(domain, lost.parent)?;
        }
        builder.add_subtree(forest, lost.place, 1)?;
    }
    Ok(())
}
