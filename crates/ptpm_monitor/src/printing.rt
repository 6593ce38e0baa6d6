//! What is printed of a look, in each form.

use crate::difference::{Manner, write_in_red};
use crate::ended::Ended;
use crate::host::Printed;
use crate::judging::Judged;
use crate::left_out::{LeftOut, Members};
use crate::look::{Basis, Look};
use crate::looking::Monitor;
use crate::page::page_with;
use crate::status::{CRITICAL, NOT_KNOWN, NOT_WRITTEN, plugin_status};
use crate::way::{HtmlName, LabelName, Way};
use ptpm_site_report::Form;
use std::alloc::{AllocError, Global};
use std::io::{Read, Write};
use std::rt::Files;
use std::str;

/// What is printed, and the status for it.
#[derive(Drop)]
struct Page {
    printed: Printed,
    octets: Vec<u8>,
    status: u8,
}

impl<F: Files, R: Read + Drop, W: Write + Drop, E: Write> Monitor<'_, F, R, W, E> {
    /// Prints a look, which was judged after another if there is one; the status. If nothing is to be shown, most files stay as they
    /// were: on a plugin's or a page the site would be well for good.
    pub(crate) fn print_look(&mut self, look: &Look, after: Option<&Basis>) -> Result<u8, Ended> {
        let page = self.page_of(look, after)?;
        if self.settings.replaces && page.octets.is_empty() {
            return Ok(page.status);
        }
        let is_written = self.host.print(page.printed, page.octets.as_slice())?;
        Ok(if is_written { page.status } else { NOT_WRITTEN })
    }

    /// Whether a form has to say that a look failed.
    pub(crate) fn tells_failures(&self) -> bool {
        matches!(self.form(), Form::Plugin | Form::Page)
    }

    fn page_of(&mut self, look: &Look, after: Option<&Basis>) -> Result<Page, Ended> {
        let Some(judged) = &look.judged else {
            return self.page_of_failure(look, look.status);
        };
        match self.form() {
            Form::Text | Form::Json => self.report_of(look, judged),
            Form::Drawing if look.status == NOT_KNOWN => self.report_of(look, judged),
            _ => self.page_in_form(look, after),
        }
    }

    /// What is printed if nothing is to be shown.
    fn page_of_failure(&self, look: &Look, mut status: u8) -> Result<Page, Ended> {
        let mut octets = Vec::new(self.alloc);
        match self.form() {
            Form::Plugin => {
                writeln!(octets, "PTP UNKNOWN - the site could not be shown")?;
                status = NOT_KNOWN;
            }
            Form::Page if self.settings.replaces => {
                let time = look.basis.own.time.as_str();
                let notice = format!(in self.alloc;
                    "The look at {time} failed. What follows was seen before it."
                )?;
                let page = page_with(self.alloc, self.page.as_str(), notice.as_str())?;
                octets.extend_from_slice(page.as_bytes())?;
            }
            _ => {}
        }
        Ok(Page {
            printed: Printed::Octets,
            octets,
            status,
        })
    }

    /// The text, or the object of JSON.
    fn report_of(&self, look: &Look, judged: &Judged) -> Result<Page, Ended> {
        let report = text_of(judged);
        let mut text = String::new(self.alloc);
        let is_json = matches!(self.form(), Form::Json);
        if is_json {
            add_members(report, &look.left_out, &mut text)?;
        } else if self.settings.is_coloured {
            write_in_red(report, judged.told.lines.len(), &mut text)?;
        } else {
            text.push_str(report)?;
        }
        if !is_json && !look.left_out.is_none() {
            writeln!(text, "{}", look.left_out)?;
        }
        Ok(Page {
            printed: if is_json {
                Printed::Json
            } else {
                Printed::Text
            },
            octets: Vec::from_slice(self.alloc, text.as_bytes())?,
            status: look.status,
        })
    }

    /// Another form.
    fn page_in_form(&mut self, look: &Look, after: Option<&Basis>) -> Result<Page, Ended> {
        let form = self.form();
        let judged = match self.judged_in(form, look, after, after.is_some())? {
            Ok(judged) => judged,
            Err(status) => return self.page_of_failure(look, status),
        };
        let mut octets = Vec::new(self.alloc);
        let status = self.write_form(look, &judged, &mut octets)?;
        Ok(Page {
            printed: Printed::Octets,
            octets,
            status,
        })
    }

    /// Writes what is shown in a form, and what is to be said beside it; the status.
    fn write_form(
        &mut self,
        look: &Look,
        judged: &Judged,
        octets: &mut Vec<u8>,
    ) -> Result<u8, Ended> {
        let (text, left_out) = (text_of(judged), &look.left_out);
        match self.form() {
            Form::Plugin => return write_plugin(look, judged, octets),
            Form::Page => self.write_page(look, text, octets)?,
            Form::OpenMetrics => write_numbers(
                look.basis.own.ways.as_slice(),
                left_out,
                text,
                octets,
            )?,
            _ => write_drawing(text, left_out, octets)?,
        }
        Ok(judged.status)
    }

    /// Writes a page, with the way at which no clock answered, if there is one, or what was left out. If none answered anywhere, the
    /// page itself has no finding, and so its title says.
    fn write_page(&mut self, look: &Look, page: &str, octets: &mut Vec<u8>) -> Result<(), Ended> {
        self.page = String::from_str(self.alloc, page)?;
        let notice = notice_of(self.alloc, look)?;
        if notice.is_empty() {
            octets.extend_from_slice(page.as_bytes())?;
        } else {
            let page = page_with(self.alloc, page, notice.as_str())?;
            octets.extend_from_slice(page.as_bytes())?;
        }
        Ok(())
    }

    /// Prints what differs from the look before. In JSON, and in place of what was printed before, the look comes before that.
    pub(crate) fn print_difference(&mut self, look: &Look, before: &Look) -> Result<(), Ended> {
        let is_json = matches!(self.form(), Form::Json);
        if is_json || self.settings.replaces {
            let _ = self.print_look(look, Some(&before.basis))?;
        }
        if self.settings.replaces {
            return Ok(());
        }
        let text = self.difference(look, before, is_json)?;
        if text.is_empty() {
            return Ok(());
        }
        let printed = if is_json {
            Printed::Json
        } else {
            Printed::Text
        };
        let _ = self.host.print(printed, text.as_bytes())?;
        Ok(())
    }

    fn difference(&self, look: &Look, before: &Look, is_json: bool) -> Result<String, AllocError> {
        let mut text = String::new(self.alloc);
        let time = look.basis.own.time.as_str();
        let manner = Manner {
            time,
            is_json,
            is_coloured: self.settings.is_coloured,
        };
        self.write_clocks(look, manner, &mut text)?;
        if let (Some(now), Some(then)) = (&look.judged, &before.judged) {
            let (now, then) = (now.told.lines.as_slice(), then.told.lines.as_slice());
            manner.write_findings(self.alloc, now, then, &mut text)?;
        }
        if !is_json && !look.left_out.is_like(&before.left_out) {
            for (sign, left_out) in [('-', &before.left_out), ('+', &look.left_out)] {
                if !left_out.is_none() {
                    writeln!(text, "{time} {sign} {left_out}")?;
                }
            }
        }
        Ok(text)
    }

    /// Adds the clocks that came since the look before. Those that went have a finding.
    fn write_clocks(
        &self,
        look: &Look,
        manner: Manner<'_>,
        text: &mut String,
    ) -> Result<(), AllocError> {
        let time = manner.time;
        for source in look.basis.own.seen.order.as_slice() {
            let (domain, clock) = (source.domain, source.clock);
            if self.known.has(*source) {
                continue;
            }
            if manner.is_json {
                let (number, sdo) = (domain.number(), domain.sdo());
                writeln!(
                    text,
                    "{{\"time\":\"{time}\",\"event\":\"came\",\"domainNumber\":{number},\"sdoId\":{sdo},\"clockIdentity\":\"{clock}\",\"finding\":null}}"
                )?;
            } else {
                writeln!(text, "{time} + {domain} {clock} answers")?;
            }
        }
        Ok(())
    }
}

fn text_of(judged: &Judged) -> &str {
    str::from_utf8(judged.text.as_slice()).unwrap_or("")
}

/// Adds an object of JSON to a text, with the members for what was left out that a site does not know of.
fn add_members(object: &str, left_out: &LeftOut, text: &mut String) -> Result<(), AllocError> {
    const LIST: &str = "\"leftOut\":{";
    match object.rsplit_once(LIST) {
        Some((before, behind)) if !left_out.is_none() => write!(
            text,
            "{before}{LIST}{}{behind}",
            Members(*left_out)
        ),
        _ => text.push_str(object),
    }
}

/// What is to be said above a page, in HTML.
fn notice_of(alloc: Global, look: &Look) -> Result<String, AllocError> {
    let mut notice = String::new(alloc);
    let silent = look.basis.own.silent_way();
    if let Some(way) = silent {
        write!(notice, "No clock answered at {}.", HtmlName(way))?;
    } else if look.status == NOT_KNOWN {
        notice.push_str("No clock answered.")?;
    }
    if !look.left_out.is_none() {
        let between = if notice.is_empty() { "" } else { " " };
        write!(notice, "{between}{}", look.left_out)?;
    }
    Ok(notice)
}

/// Writes the lines of a plugin; its status.
fn write_plugin(look: &Look, judged: &Judged, octets: &mut Vec<u8>) -> Result<u8, Ended> {
    let (text, left_out) = (text_of(judged), &look.left_out);
    let status = plugin_status(look, judged.status);
    match (judged.status, look.basis.own.silent_way()) {
        (0, Some(way)) => {
            octets.extend_from_slice(b"PTP UNKNOWN - no clock answered at ")?;
            octets.extend_from_slice(way)?;
            octets.extend_from_slice(b"\n")?;
        }
        _ if left_out.is_none() => octets.extend_from_slice(text.as_bytes())?,
        _ => write_incomplete(text, status, left_out, octets)?,
    }
    Ok(status)
}

/// Writes the lines of a plugin with what was left out.
fn write_incomplete(
    text: &str,
    status: u8,
    left_out: &LeftOut,
    octets: &mut Vec<u8>,
) -> Result<(), Ended> {
    let (line, rest) = text.split_once('\n').unwrap_or((text, ""));
    let (_, words) = line.split_once(" - ").unwrap_or(("", line));
    let word = if status == CRITICAL {
        "CRITICAL"
    } else {
        "UNKNOWN"
    };
    let bar = if line.as_bytes().contains(&b'|') {
        ""
    } else {
        " |"
    };
    let count = left_out.sum();
    write!(
        octets,
        "PTP {word} - {left_out}; {words}{bar} left_out={count};;;0\n{rest}"
    )?;
    Ok(())
}

/// Writes in OpenMetrics 1.0 at which of several ways a clock answered, what was left out, and then the numbers of a site.
fn write_numbers(
    ways: &[Way],
    left_out: &LeftOut,
    numbers: &str,
    octets: &mut Vec<u8>,
) -> Result<(), Ended> {
    if !ways.is_empty() {
        writeln!(octets, "# TYPE ptp_way_answered gauge")?;
        writeln!(
            octets,
            "# HELP ptp_way_answered Whether a clock answered at this interface or socket."
        )?;
    }
    for way in ways {
        let (name, answered) = (LabelName(way.name.as_slice()), u8::from(way.is_answered));
        writeln!(octets, "ptp_way_answered{{way=\"{name}\"}} {answered}")?;
    }
    writeln!(octets, "# TYPE ptp_left_out gauge")?;
    writeln!(
        octets,
        "# HELP ptp_left_out How many of these were left out for want of room, so that findings may be missing."
    )?;
    for (what, count) in left_out.counts() {
        writeln!(octets, "ptp_left_out{{what=\"{}\"}} {count}", what.label())?;
    }
    octets.extend_from_slice(numbers.as_bytes())?;
    Ok(())
}

/// Writes a picture, and above it what was left out.
fn write_drawing(drawing: &str, left_out: &LeftOut, octets: &mut Vec<u8>) -> Result<(), Ended> {
    const END: &str = "</svg>";
    match drawing.split_once(END) {
        Some((before, behind)) if !left_out.is_none() => write!(
            octets,
            "{before}<text x=\"16\" y=\"13\" fill=\"#b42318\">{left_out}</text>\n{END}{behind}"
        )?,
        _ => octets.extend_from_slice(drawing.as_bytes())?,
    }
    Ok(())
}
