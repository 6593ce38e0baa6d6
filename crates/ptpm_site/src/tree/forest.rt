//! Who follows whom, by the places of the clocks in their order.

ghost use Rattle.std.specs.Prelude.{◌≡◌, ◌<◌, ◌≤◌, None, IfOk, IfSome, OnOk, Some, length, slice_index_or, vec_len};
ghost use Rattle.std.specs.List.{All, Contains};
ghost use Rattle.ptpm_site.specs.Forest.{AreByDomain, AreFollowers, IsFollower};
ghost use Rattle.ptpm_site.specs.Loops.{AreWithin};

use crate::reading::domain::Domain;
use crate::reading::site::Site;
use crate::reading::source::Source;
use crate::tree::walks::next;
use ptpm_codec::PortIdentity;
use std::alloc::{AllocError, Global};
use std::ops::Range;

/// A clock that follows one that is seen. They are ordered by the one that is followed, its port, and the
/// follower.
#[derive(Clone, Copy, PartialEq, Eq, PartialOrd, Ord)]
pub struct Follower {
    above: usize,
    port: u16,
    pub place: usize,
}

/// A clock that follows one that is not seen. They are ordered by domain, the port that is followed, and
/// the follower.
#[derive(Clone, Copy, PartialEq, Eq, PartialOrd, Ord)]
pub struct Lost {
    domain: Domain,
    pub parent: PortIdentity,
    pub place: usize,
}

/// The clocks in their order, and who follows whom.
#[derive(Drop)]
pub struct Forest {
    pub sources: Vec<Source>,
    /// The place of the clock that each follows, if it follows one that is seen.
    pub followed: Vec<Option<usize>>,
    /// Sorted.
    followers: Vec<Follower>,
    /// Sorted.
    lost: Vec<Lost>,
    ghost followers_are: { AreFollowers followed.items followers.items },
    ghost by_domain: { AreByDomain lost.items },
    ghost within: { AreWithin followed.items },
}

impl Forest {
    pub fn of(alloc: Global, site: &Site) -> Result<Forest, AllocError> {
        let sources = site.sources(alloc)?;
        let followed = parent_places(alloc, site, sources.as_slice())?;
        let mut following = Following {
            followers: Vec::new(alloc),
            lost: Vec::new(alloc),
        };
        for (place, source) in sources.as_slice().iter().enumerate() {
            following.add(site, followed.as_slice(), place, *source)?;
        }
        let Following {
            mut followers,
            mut lost,
        } = following;
        followers.sort()?;
        lost.sort()?;
        Ok(Forest {
            sources,
            followed,
            followers,
            lost,
        })
    }

    /// The places of a domain's clocks.
    pub fn places_of(&self, domain: Domain) -> Range<usize>
        ensures within { result.end ≤ vec_len self.now.sources }
    {
        let sources = self.sources.as_slice();
        let from = sources.partition_point(|source| source.domain < domain);
        let to = sources.partition_point(|source| source.domain <= domain);
        from..to
    }

    /// The domain of the clock at a place, if that is the first clock of it.
    pub fn domain_begun_at(&self, place: usize) -> Option<Domain>
        requires { place < vec_len self.now.sources }
    {
        let domain = self.sources[place].domain;
        if place != 0 && self.sources[place - 1].domain == domain {
            return None;
        }
        Some(domain)
    }

    /// The domain of the clock at a place.
    pub fn domain_of(&self, place: usize) -> Option<Domain> {
        match self.sources.get(place) {
            Some(source) => Some(source.domain),
            None => None,
        }
    }

    /// The clocks that follow the clock at a place, by its port, and then by identity.
    pub fn followers_of(&self, place: usize) -> &[Follower]
        ensures { All (λ f. slice_index_or self.now.followed.items f.place None ≡ Some place) result.now }
    {
        let followers = self.followers.as_slice();
        let from = followers.partition_point(|follower| follower.above < place);
        let to = followers.partition_point(|follower| follower.above <= place);
        followers.get(from..to).unwrap_or(&[])
    }

    /// The clocks of a domain whose parent is not seen, by its port, and then by identity.
    pub fn lost_of(&self, domain: Domain) -> &[Lost]
        ensures { All (λ l. (l.domain ≡ domain) × Contains self.now.lost.items l) result.now }
    {
        let lost = self.lost.as_slice();
        let from = lost.partition_point(|lost| lost.domain < domain);
        let to = lost.partition_point(|lost| lost.domain <= domain);
        lost.get(from..to).unwrap_or(&[])
    }
}

/// The clocks that follow another, while they are collected.
#[derive(Drop)]
struct Following {
    followers: Vec<Follower>,
    lost: Vec<Lost>,
}

impl Following {
    /// Adds the clock at a place, if it follows another. `followed` has the place of that other clock, or
    /// `None` if it is not seen.
    fn add(
        &mut self,
        site: &Site,
        followed: &[Option<usize>],
        place: usize,
        source: Source,
    ) -> Result<(), AllocError>
        ensures followers { OnOk result (All (IsFollower followed.now) self.old.followers.items → All (IsFollower followed.now) self.new.followers.items) }
    {
        let Some(parent) = site.followed(source) else {
            return Ok(());
        };
        match next(followed, place) {
            Some(above) => self.followers.push(Follower {
                above,
                port: parent.port,
                place,
            })?,
            None => self.lost.push(Lost {
                domain: source.domain,
                parent,
                place,
            })?,
        }
        Ok(())
    }
}

/// For each clock, in their order, the place of its parent.
fn parent_places(
    alloc: Global,
    site: &Site,
    sources: &[Source],
) -> Result<Vec<Option<usize>>, AllocError>
    ensures count { IfOk result (λ places. length places.items ≡ length sources.now) }
    ensures within { IfOk result (λ places. All (λ place. IfSome place (λ p. p < length sources.now)) places.items) }
{
    let mut places = Vec::new(alloc);
    for source in sources {
        places.push(parent_place(site, sources, *source))?;
    }
    Ok(places)
}

/// The place of a clock's parent among all clocks.
fn parent_place(site: &Site, sources: &[Source], source: Source) -> Option<usize>
    ensures { IfSome result (λ p. p < length sources.now) }
{
    place_among(sources, site.parent_clock(source)?)
}

/// The place of a clock among others, which are sorted.
pub fn place_among(sources: &[Source], source: Source) -> Option<usize>
    ensures { IfSome result (λ p. p < length sources.now) }
{
    sources.binary_search(&source).ok()
}
