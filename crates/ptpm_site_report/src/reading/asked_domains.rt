//! In which domains the GETs among the lines ask, and how far they go.

use crate::reading::span::Span;
use crate::utc_text::UtcText;
use ptpm_site::reading::domain::Domain;
use ptpm_site::reading::heard::{Heard, Query};
use std::alloc::{AllocError, Global};
use std::fmt;

/// A domain in which a GET asks.
#[derive(Clone, Copy)]
pub(crate) struct AskedDomain {
    pub(crate) domain: Domain,
    /// The most of startingBoundaryHops of its GETs.
    pub(crate) hops: u8,
}

/// Each domain in which a GET asks, ascending.
pub(crate) fn asked_domains(
    alloc: Global,
    heard: &[Heard],
) -> Result<Vec<AskedDomain>, AllocError> {
    let mut asked = Vec::new(alloc);
    for one in heard {
        if let Heard::Asked(query) = one {
            add_query(&mut asked, query)?;
        }
    }
    Ok(asked)
}

/// Adds the domain of a GET at its place, or its hops to the domain that is there.
fn add_query(asked: &mut Vec<AskedDomain>, query: &Query) -> Result<(), AllocError> {
    let (domain, hops) = (query.domain, query.hops);
    let place = asked.partition_point(|one| one.domain < domain);
    if let Some(here) = asked.get_mut(place) {
        if here.domain == domain {
            here.hops = here.hops.max(hops);
            return Ok(());
        }
    }
    asked.insert(place, AskedDomain { domain, hops })?;
    Ok(())
}

/// Which domains were asked, with how many boundary hops, when, and how many requests were repeated, as far as the lines have it.
#[derive(Clone, Copy)]
pub(crate) struct AskedText<'a> {
    pub(crate) asked: &'a [AskedDomain],
    /// How many requests were repeated.
    pub(crate) again: usize,
    pub(crate) span: Option<Span>,
}

impl fmt::Display for AskedText<'_> {
    fn fmt<W: fmt::Write>(&self, f: &mut fmt::Formatter<W>) -> fmt::Result {
        f.write_str("asked: ")?;
        if self.asked.is_empty() {
            return f.write_str("not in these lines");
        }
        write_domains(self.asked, f)?;
        write_hops(self.asked, f)?;
        match self.span {
            Some(Span { begin, end }) => write!(f, "; {} to {}", UtcText(begin), UtcText(end))?,
            None => {}
        }
        match self.again {
            0 => Ok(()),
            again => write!(f, "; asked again: {again}"),
        }
    }
}

/// Writes the domains. Those one after another, of sdoId 0, are written as the first and the last of them.
fn write_domains<W: fmt::Write>(asked: &[AskedDomain], f: &mut fmt::Formatter<W>) -> fmt::Result {
    let mut between = "domain ";
    let mut before = None;
    for (place, one) in asked.iter().enumerate() {
        let domain = one.domain;
        if !goes_on(before, Some(domain)) {
            write!(f, "{between}{domain}")?;
            between = ", ";
        } else if !goes_on(Some(domain), domain_at(asked, place.saturating_add(1))) {
            write!(f, "-{domain}")?;
        }
        before = Some(domain);
    }
    Ok(())
}

fn domain_at(asked: &[AskedDomain], place: usize) -> Option<Domain> {
    match asked.get(place) {
        Some(one) => Some(one.domain),
        None => None,
    }
}

/// Whether a domain is the next after another, both of sdoId 0.
fn goes_on(before: Option<Domain>, domain: Option<Domain>) -> bool {
    match (before, domain) {
        (Some(before), Some(domain)) if before.sdo() == 0 && domain.sdo() == 0 => {
            before.number().checked_add(1) == Some(domain.number())
        }
        _ => false,
    }
}

/// Writes with how many boundary hops the domains were asked: the least and the most, if these differ.
fn write_hops<W: fmt::Write>(asked: &[AskedDomain], f: &mut fmt::Formatter<W>) -> fmt::Result {
    let (mut least, mut most) = (u8::MAX, 0u8);
    for one in asked {
        least = least.min(one.hops);
        most = most.max(one.hops);
    }
    if least < most {
        return write!(f, "; {least} to {most} boundary hops");
    }
    let noun = if most == 1 { "hop" } else { "hops" };
    write!(f, "; {most} boundary {noun}")
}
