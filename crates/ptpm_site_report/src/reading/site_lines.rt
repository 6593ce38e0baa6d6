//! The answers among lines of datagrams.

use crate::reading::asked_domains::{AskedDomain, asked_domains};
use crate::reading::line_words::{at_of, is_synchronised, note_in, said_by, value_of};
use crate::reading::span::Span;
use ptpm_commands::Fault;
use ptpm_commands::lines::Lines;
use ptpm_members::clock_identity_of;
use ptpm_site::looks::asked_again;
use ptpm_site::reading::left_out::LeftOut;
use ptpm_site::reading::site::Site;
use std::alloc::{AllocError, Global};
use std::io::Read;

/// What lines show of a site, and what they say beside it.
#[derive(Drop)]
pub(crate) struct SiteLines {
    pub(crate) shown: ShownSite,
    pub(crate) said: LinesSaid,
}

/// A site: no more clocks and ports than there is room for, and no clocks that are gone.
#[derive(Drop)]
pub(crate) struct ShownSite {
    pub(crate) site: Site,
    /// How much there is no room for.
    pub(crate) left_out: LeftOut,
}

/// What lines say beside the answers.
#[derive(Drop)]
pub(crate) struct LinesSaid {
    /// The domains in which GETs among them ask.
    pub(crate) asked: Vec<AskedDomain>,
    /// How many requests were repeated to clocks that had not answered.
    pub(crate) asked_again: usize,
    /// When the datagrams came. `None` if no line says it.
    pub(crate) span: Option<Span>,
    /// Whether the last note `#ptpm` says that the clock of the host that asked was right.
    pub(crate) is_synchronised: bool,
}

/// What is shown of the site of a reader's lines.
pub(crate) fn read_shown<R: Read + Drop>(alloc: Global, reader: R) -> Result<SiteLines, Fault> {
    let mut said = LinesSaid {
        asked: Vec::new(alloc),
        asked_again: 0,
        span: None,
        is_synchronised: false,
    };
    let mut site = read_site(alloc, reader, &mut said)?;
    said.asked = asked_domains(alloc, site.all_heard())?;
    said.asked_again = asked_again(alloc, site.all_heard())?;
    let left_out = site.keep_first();
    site.drop_gone(alloc)?;
    let shown = ShownSite { site, left_out };
    Ok(SiteLines { shown, said })
}

/// The site that the answers among a reader's lines make. A datagram that is no answer to one of the six is passed over; a line
/// that is no datagram in hexadecimal is a fault.
fn read_site<R: Read + Drop>(
    alloc: Global,
    reader: R,
    said: &mut LinesSaid,
) -> Result<Site, Fault> {
    let mut lines = Lines::new(alloc, reader)?;
    let mut site = Site::new(alloc);
    for number in 1..u64::MAX {
        if !lines.read(number)? {
            break;
        }
        let line = lines.text(number)?;
        if let Some(datagram) = lines.datagram(alloc, number)? {
            said.span = Span::with(said.span, at_of(line));
            take_line(alloc, &mut site, line, datagram.as_slice())?;
        } else if let Some(words) = note_in(line) {
            said.is_synchronised = is_synchronised(words);
            take_hosts(&mut site, words)?;
        }
    }
    Ok(site)
}

/// Takes the identities that the interfaces of the host that asked would have, by the words of a note. Another text is passed over.
fn take_hosts(site: &mut Site, words: &str) -> Result<(), AllocError> {
    for name in value_of(words, "own=").unwrap_or("").split(',') {
        if let Some(clock) = clock_identity_of(name) {
            site.take_host(clock)?;
        }
    }
    Ok(())
}

/// Takes the datagram of a line, and the words before it. A line that says no interface counts as one of an interface without a name.
fn take_line(
    alloc: Global,
    site: &mut Site,
    line: &str,
    datagram: &[u8],
) -> Result<(), AllocError> {
    let (at, from) = (at_of(line), value_of(line, "from="));
    if let Some(why) = said_by(line, "taken=") {
        return site.take_untaken(alloc, at, why, from, datagram);
    }
    site.take_datagram_at(alloc, at, datagram)?;
    match from {
        Some(from) => {
            let on = value_of(line, "on=").unwrap_or("");
            site.take_arrival(alloc, from, on, datagram)
        }
        None => Ok(()),
    }
}
