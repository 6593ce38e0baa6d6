//! A site as numbers for a monitoring system, in OpenMetrics 1.0. Programs that read the older text format of Prometheus read it too.

use crate::finding::remarks::Remark;
use crate::look::Look;
use crate::monitoring::label::Label;
use crate::monitoring::metric_families::{OfClock, OfGrandmaster, OfPort, write_head};
use crate::monitoring::seconds::{ErrorSeconds, NanosecondSeconds};
use crate::reading::span::Span;
use crate::text::grandmaster_line::judged_time;
use ptpm_causes::Kind;
use ptpm_commands::Fault;
use ptpm_members::{Enumeration, MemberValue};
use ptpm_site::picture::Picture;
use ptpm_site::reading::data_sets::TimePropertiesDataSet;
use ptpm_site::reading::domain::Domain;
use ptpm_site::reading::site::Site;
use ptpm_site::reading::source::Source;
use std::alloc::{AllocError, Global};
use std::collections::BTreeSet;
use std::io::Write;
use std::{fmt, io};

/// Prints each family with its numbers. What was not answered has none.
pub(crate) fn print_metrics<O: Write>(
    alloc: Global,
    look: &Look<'_, '_>,
    out: &mut O,
) -> Result<(), Fault> {
    let picture = look.picture;
    let domains = domains_of(alloc, look)?;
    print_times(look.beside.said.span, out)?;
    print_counts_of_clocks(picture, &domains, out)?;
    print_counts_of_findings(look, &domains, out)?;
    print_counts_of_open(look, &domains, out)?;
    print_clocks(look, out)?;
    for family in [OfClock::Offset, OfClock::Delay, OfClock::Steps] {
        print_of_clocks(picture, family, out)?;
    }
    for family in [OfPort::State, OfPort::LinkDelay] {
        print_of_ports(picture, family, out)?;
    }
    print_grandmasters(picture, out)?;
    for family in [
        OfGrandmaster::Class,
        OfGrandmaster::Accuracy,
        OfGrandmaster::UtcOffsetValid,
        OfGrandmaster::TimeTraceable,
        OfGrandmaster::Leap,
        OfGrandmaster::UtcOffset,
    ] {
        print_of_grandmasters(picture, family, out)?;
    }
    print_time_errors(picture, out)?;
    writeln!(out, "# EOF")?;
    Ok(())
}

/// As what a clock has a label.
#[derive(Clone, Copy)]
enum Role {
    Clock,
    /// It leads, whether it is seen or not.
    Grandmaster,
}

impl Role {
    fn label(self) -> &'static str {
        match self {
            Role::Clock => "clock",
            Role::Grandmaster => "grandmaster",
        }
    }
}

/// The domains of clocks, of findings, and of what is open.
fn domains_of(alloc: Global, look: &Look<'_, '_>) -> Result<BTreeSet<Domain>, AllocError> {
    let mut domains = BTreeSet::new(alloc);
    for source in look.picture.forest.sources.as_slice() {
        let _ = domains.insert(source.domain)?;
    }
    add_domains(&mut domains, look.found.as_slice())?;
    add_domains(&mut domains, look.open.as_slice())?;
    Ok(domains)
}

fn add_domains(domains: &mut BTreeSet<Domain>, remarks: &[Remark<'_>]) -> Result<(), AllocError> {
    for remark in remarks {
        let _ = domains.insert(remark.source().domain)?;
    }
    Ok(())
}

/// Prints when the datagrams came, if the lines say it.
fn print_times<O: Write>(span: Option<Span>, out: &mut O) -> io::Result<()> {
    let (name, help) = (
        "ptp_look_timestamp_seconds",
        "When the last datagram of this look came, as Unix time.",
    );
    write_head(name, help, out)?;
    if let Some(Span { end, .. }) = span {
        writeln!(out, "{name} {}", NanosecondSeconds(end))?;
    }
    let (name, help) = (
        "ptp_look_duration_seconds",
        "From the first datagram of this look to the last.",
    );
    write_head(name, help, out)?;
    if let Some(Span { begin, end }) = span {
        let duration = NanosecondSeconds(end.saturating_sub(begin));
        writeln!(out, "{name} {duration}")?;
    }
    Ok(())
}

/// Prints how many clocks each domain has.
fn print_counts_of_clocks<O: Write>(
    picture: &Picture<'_>,
    domains: &BTreeSet<Domain>,
    out: &mut O,
) -> io::Result<()> {
    write_head("ptp_clocks", "Clocks that answered.", out)?;
    for domain in domains.iter() {
        let count = clocks_in(picture, *domain);
        if count != 0 {
            writeln!(out, "ptp_clocks{{{}}} {count}", OfDomain(*domain))?;
        }
    }
    Ok(())
}

/// Prints how many findings of each name each domain has.
fn print_counts_of_findings<O: Write>(
    look: &Look<'_, '_>,
    domains: &BTreeSet<Domain>,
    out: &mut O,
) -> io::Result<()> {
    write_head(
        "ptp_findings",
        "Findings, by name; those that follow from another are counted under their own name.",
        out,
    )?;
    for domain in domains.iter() {
        let found = found_in(look.found.as_slice(), *domain);
        if clocks_in(look.picture, *domain) != 0 || !found.is_empty() {
            print_counts(*domain, found, out)?;
        }
    }
    Ok(())
}

/// Prints how many findings of each name there are among those of a domain, also if there is none.
fn print_counts<O: Write>(domain: Domain, remarks: &[Remark<'_>], out: &mut O) -> io::Result<()> {
    let labels = OfDomain(domain);
    for kind in Kind::ALL {
        let (name, severity) = (kind.name(), kind.row().severity.word());
        let count = remarks
            .iter()
            .filter(|remark| remark.named.kind == kind)
            .count();
        writeln!(
            out,
            "ptp_findings{{{labels},finding=\"{name}\",severity=\"{severity}\"}} {count}"
        )?;
    }
    Ok(())
}

/// Prints how much is open in each domain.
fn print_counts_of_open<O: Write>(
    look: &Look<'_, '_>,
    domains: &BTreeSet<Domain>,
    out: &mut O,
) -> io::Result<()> {
    write_head("ptp_open", "What this look could not decide.", out)?;
    for domain in domains.iter() {
        let count = found_in(look.open.as_slice(), *domain).len();
        if clocks_in(look.picture, *domain) != 0 || count != 0 {
            writeln!(out, "ptp_open{{{}}} {count}", OfDomain(*domain))?;
        }
    }
    Ok(())
}

fn clocks_in(picture: &Picture<'_>, domain: Domain) -> usize {
    let places = picture.forest.places_of(domain);
    places.end.saturating_sub(places.start)
}

/// Those of a domain. They are in the order of their domains.
fn found_in<'a>(remarks: &'a [Remark<'a>], domain: Domain) -> &'a [Remark<'a>] {
    let from = remarks.partition_point(|remark| remark.source().domain < domain);
    let to = remarks.partition_point(|remark| remark.source().domain <= domain);
    remarks.get(from..to).unwrap_or(&[])
}

/// Prints what each clock says of itself in words.
fn print_clocks<O: Write>(look: &Look<'_, '_>, out: &mut O) -> io::Result<()> {
    write_head(
        "ptp_clock_info",
        "What a clock says of itself and of whom it follows.",
        out,
    )?;
    let site = &look.picture.site;
    for source in site.clocks.keys() {
        write!(out, "ptp_clock_info{{{}", OfSource(*source, Role::Clock))?;
        if let Some(text) = site.description(*source) {
            write!(out, ",description=\"{}\"", Label(text))?;
        }
        if let Some(name) = look.beside.names.get(source.clock) {
            write!(out, ",name=\"{}\"", Label(name))?;
        }
        write_follows(site, *source, out)?;
        writeln!(out, "}} 1")?;
    }
    Ok(())
}

/// Writes the labels that say whom a clock follows, and whether it may lead.
fn write_follows<O: Write>(site: &Site, source: Source, out: &mut O) -> io::Result<()> {
    if let Some(set) = site.parent(source) {
        let (parent, port) = (set.parent.clock, set.parent.port);
        let grandmaster = set.grandmaster;
        write!(
            out,
            ",parent=\"{parent}\",parent_port=\"{port}\",grandmaster=\"{grandmaster}\""
        )?;
    }
    match site.default(source) {
        Some(set) => write!(out, ",slave_only=\"{}\"", set.slave_only),
        None => Ok(()),
    }
}

/// Prints a number of each clock that has one.
fn print_of_clocks<O: Write>(
    picture: &Picture<'_>,
    family: OfClock,
    out: &mut O,
) -> io::Result<()> {
    let name = family.name();
    write_head(name, family.help(), out)?;
    for source in picture.site.clocks.keys() {
        if let Some(amount) = family.amount(&picture.site, *source) {
            let labels = OfSource(*source, Role::Clock);
            writeln!(out, "{name}{{{labels}}} {amount}")?;
        }
    }
    Ok(())
}

/// Prints a number of each grandmaster that leads, if it is said.
fn print_of_grandmasters<O: Write>(
    picture: &Picture<'_>,
    family: OfGrandmaster,
    out: &mut O,
) -> io::Result<()> {
    let name = family.name();
    write_head(name, family.help(), out)?;
    for leader in picture.leaders.as_slice() {
        if let Some(amount) = family.amount(leader) {
            let labels = OfSource(leader.source, Role::Grandmaster);
            writeln!(out, "{name}{{{labels}}} {amount}")?;
        }
    }
    Ok(())
}

/// Prints how far the time of each grandmaster that leads is from TAI, if it is judged.
fn print_time_errors<O: Write>(picture: &Picture<'_>, out: &mut O) -> io::Result<()> {
    let (name, help) = (
        "ptp_grandmaster_time_error_seconds",
        "The grandmaster's time minus TAI, by the clock of the host that asked.",
    );
    write_head(name, help, out)?;
    for leader in picture.leaders.as_slice() {
        if let Some(judged) = judged_time(picture, leader) {
            let labels = OfSource(leader.source, Role::Grandmaster);
            let error = ErrorSeconds(judged.error);
            writeln!(out, "{name}{{{labels}}} {error}")?;
        }
    }
    Ok(())
}

fn print_of_ports<O: Write>(picture: &Picture<'_>, family: OfPort, out: &mut O) -> io::Result<()> {
    let name = family.name();
    write_head(name, family.help(), out)?;
    for (source, clock) in picture.site.clocks.iter() {
        for (port, received) in clock.ports.iter() {
            let Some(set) = received.last().and_then(|last| last.port()) else {
                continue;
            };
            if let Some(amount) = family.amount(&set) {
                let labels = OfSource(*source, Role::Clock);
                writeln!(out, "{name}{{{labels},port=\"{port}\"}} {amount}")?;
            }
        }
    }
    Ok(())
}

/// Prints what is said of each grandmaster that leads, in words.
fn print_grandmasters<O: Write>(picture: &Picture<'_>, out: &mut O) -> io::Result<()> {
    write_head(
        "ptp_grandmaster_info",
        "Whom clocks follow, and where it has its time from.",
        out,
    )?;
    for leader in picture.leaders.as_slice() {
        let labels = OfSource(leader.source, Role::Grandmaster);
        write!(out, "ptp_grandmaster_info{{{labels}")?;
        if let Some(time) = &leader.time {
            write_time(time, out)?;
        }
        writeln!(out, "}} 1")?;
    }
    Ok(())
}

/// Writes the labels that say what time a grandmaster gives.
fn write_time<O: Write>(set: &TimePropertiesDataSet, out: &mut O) -> io::Result<()> {
    let timescale = if set.ptp_timescale { "PTP" } else { "ARB" };
    let source = MemberValue::Named(Enumeration::TimeSource, set.time_source);
    write!(out, ",time_source=\"{source}\",timescale=\"{timescale}\"")
}

/// The labels of a domain.
#[derive(Clone, Copy)]
struct OfDomain(Domain);

impl fmt::Display for OfDomain {
    fn fmt<W: fmt::Write>(&self, f: &mut fmt::Formatter<W>) -> fmt::Result {
        let (number, sdo) = (self.0.number(), self.0.sdo());
        write!(f, "domain=\"{number}\",sdo_id=\"0x{sdo:03x}\"")
    }
}

/// The labels of a clock.
#[derive(Clone, Copy)]
struct OfSource(Source, Role);

impl fmt::Display for OfSource {
    fn fmt<W: fmt::Write>(&self, f: &mut fmt::Formatter<W>) -> fmt::Result {
        let (Source { domain, clock }, label) = (self.0, self.1.label());
        write!(f, "{},{label}=\"{clock}\"", OfDomain(domain))
    }
}
