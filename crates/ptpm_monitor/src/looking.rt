//! Looks at a site until it is known what is wrong.

use crate::change_time::change_time;
use crate::ended::Ended;
use crate::gone::Gone;
use crate::host::Host;
use crate::inventory::inventory_at;
use crate::judging::{Judged, Shown, judge};
use crate::kept::keep_needed;
use crate::look::{Basis, Look};
use crate::seen::Seen;
use crate::settings::Settings;
use crate::status::{FAILED, NOT_KNOWN, REFUSED, status_at_end};
use ptpm_causes::Kind;
use ptpm_commands::Fault;
use ptpm_site_report::Form;
use std::alloc::Global;
use std::io::{Read, Write};
use std::rt::Files;

/// What is open is looked at again as often, and as long as this, in milliseconds (this project's profile).
const BETWEEN_OPEN: u64 = 2_000;

const MOST_OPEN: u64 = 30_000;

/// If this many looks each have what the one before lacks, the site is never at rest (this project's profile).
const MOST_UNLIKE: u8 = 4;

/// The times of an earlier look are set too if the clock of the host was set by more than these nanoseconds.
const LEAST_STEP: u64 = 100_000_000;

/// The looks at a site.
#[derive(Drop)]
pub(crate) struct Monitor<'a, F, R, W, E> {
    pub(crate) alloc: Global,
    pub(crate) files: &'a F,
    pub(crate) settings: &'a Settings<'a>,
    pub(crate) host: Host<R, W>,
    pub(crate) err: &'a mut E,
    pub(crate) gone: Gone,
    /// The clocks of the look before.
    pub(crate) known: Seen,
    /// How many boundary clocks pass on what is asked.
    pub(crate) hops: u8,
    /// Before a watch begins nobody asks what has changed.
    pub(crate) is_watching: bool,
    /// The page that was printed last.
    pub(crate) page: String,
}

/// Looks at a site, and prints what it finds; the exit status. It writes on `out` what a host is to do, and reads its answers.
pub fn monitor_site<'a, F: Files, R: Read + Drop, W: Write + Drop, E: Write>(
    alloc: Global,
    files: &'a F,
    settings: &'a Settings<'a>,
    reader: R,
    out: W,
    err: &'a mut E,
) -> Result<u8, Fault> {
    match run(alloc, files, settings, reader, out, err) {
        Ok(status) => Ok(status),
        Err(Ended::Host) => Ok(FAILED),
        Err(Ended::Fault(fault)) => Err(fault),
    }
}

fn run<'a, F: Files, R: Read + Drop, W: Write + Drop, E: Write>(
    alloc: Global,
    files: &'a F,
    settings: &'a Settings<'a>,
    reader: R,
    out: W,
    err: &'a mut E,
) -> Result<u8, Ended> {
    if let Some(path) = settings.judging.expect {
        if inventory_at(alloc, files, path, err)?.is_none() {
            return Ok(REFUSED);
        }
    }
    let (host, now) = Host::greet(alloc, reader, out)?;
    let mut monitor = Monitor {
        alloc,
        files,
        settings,
        host,
        err,
        gone: Gone::none(alloc),
        known: Seen::none(alloc),
        hops: settings.hops,
        is_watching: false,
        page: String::new(alloc),
    };
    let look = monitor.look_until_decided(now)?;
    let printed = monitor.print_look(&look, None)?;
    monitor.host.tell_own()?;
    let status = status_at_end(monitor.form(), &look, printed);
    match settings.times.watch {
        Some(milliseconds) if status != REFUSED || matches!(monitor.form(), Form::Plugin) =>
            monitor.watch(look, milliseconds),
        _ => Ok(status),
    }
}

impl<F: Files, R: Read + Drop, W: Write + Drop, E: Write> Monitor<'_, F, R, W, E> {
    /// The form in which the site is shown.
    pub(crate) fn form(&self) -> Form {
        self.settings.judging.options.form
    }

    /// That in which its findings are known: another form has none.
    fn form_of_findings(&self) -> Form {
        match self.form() {
            Form::Json => Form::Json,
            _ => Form::Text,
        }
    }

    /// What is shown of a look. What may be momentary counts if the look before has it too: the first of two, or else an earlier one.
    pub(crate) fn judged_in(
        &mut self,
        form: Form,
        look: &Look,
        after: Option<&Basis>,
        is_beside: bool,
    ) -> Result<Result<Judged, u8>, Ended> {
        let lines = look.basis.text(self.alloc, after)?;
        let mut before = String::new(self.alloc);
        if let Some(first) = &look.first {
            before = first.text(self.alloc, after)?;
        } else if let Some(after) = after {
            before = after.text(self.alloc, None)?;
        }
        let shown = Shown {
            form,
            lines: lines.as_str(),
            before: if is_beside && !self.settings.is_once {
                Some(before.as_str())
            } else {
                None
            },
            has_changes: self.is_watching,
        };
        Ok(judge(
            self.alloc,
            self.files,
            &self.settings.judging,
            shown,
            self.err,
        ))
    }

    /// Judges a look.
    fn judge(
        &mut self,
        look: &mut Look,
        after: Option<&Basis>,
        is_beside: bool,
    ) -> Result<(), Ended> {
        let form = self.form_of_findings();
        look.left_out.gone = self.gone.left_out() as u64;
        match self.judged_in(form, look, after, is_beside)? {
            Ok(judged) => {
                look.status = judged.status;
                look.left_out.clocks = judged.told.left_out.clocks as u64;
                look.left_out.ports = judged.told.left_out.ports as u64;
                look.judged = Some(judged);
            }
            Err(status) => {
                look.status = status;
                look.judged = None;
            }
        }
        Ok(())
    }

    /// A look, judged if clocks were asked.
    fn look_once(
        &mut self,
        first: Option<Basis>,
        mut after: Option<&mut Basis>,
    ) -> Result<Look, Ended> {
        let own = self.host.look(self.alloc, self.hops)?;
        let step = if LEAST_STEP < own.step.unsigned_abs() {
            Some(own.step)
        } else {
            None
        };
        let mut look = Look::of(self.alloc, own, first);
        if let Some(after) = &mut after {
            after.make_earlier(step);
        }
        if !look.is_asked() {
            return Ok(look);
        }
        if after.is_some() {
            look.basis.gone = self.gone.lines(self.alloc, &look.basis.own.seen)?;
        }
        self.judge(&mut look, after.as_deref(), true)?;
        Ok(look)
    }

    /// Looks at the site. If a clock that others name may be on the host, it looks again, also at the clock there. As long as a clock may
    /// have others after it that a request did not come to, it looks again, further. From then on each look goes as far.
    fn look_at_site(
        &mut self,
        first: Option<Basis>,
        mut after: Option<&mut Basis>,
    ) -> Result<Look, Ended> {
        let mut look = self.look_once(first, after.as_deref_mut())?;
        if look.may_be_here() && self.host.open_own()? {
            look = self.look_once(look.first, after.as_deref_mut())?;
        }
        for _ in 0..u8::MAX {
            let is_far = look.has(Kind::OutOfReach) && !self.settings.is_as_far_as_named;
            if !is_far || self.hops == u8::MAX {
                break;
            }
            self.hops = self.hops.saturating_mul(2).saturating_add(1);
            let hops = self.hops;
            self.host.show(&format_args!(
                "a clock is at the last of the boundary hops; a look with {hops}"
            ))?;
            look = self.look_once(look.first, after.as_deref_mut())?;
        }
        Ok(look)
    }

    /// A clock of this look that is missing from the next one is asked there by itself, and is gone if it does not answer.
    pub(crate) fn keep_clocks(&mut self, look: Look) -> Result<Look, Ended> {
        let own = &look.basis.own;
        let forget = self.settings.times.forget;
        self.gone.note(self.alloc, own.lines.as_slice(), &own.seen, own.now, forget)?;
        let mut known = Seen::none(self.alloc);
        for clock in own.seen.order.as_slice() {
            known.add(*clock)?;
        }
        self.known = known;
        self.host.expect(false)?;
        Ok(look)
    }

    /// Looks at the site. If a change may be on its way through it, which the look before did not show, it looks a second time. Then
    /// of such findings only those are left that both looks have. If no clock answers, a second look would show no more.
    pub(crate) fn look_twice(&mut self, mut after: Option<&mut Basis>) -> Result<Look, Ended> {
        let mut look = self.look_at_site(None, after.as_deref_mut())?;
        if look.status == NOT_KNOWN && 0 < look.momentary() {
            self.judge(&mut look, after.as_deref(), false)?;
        }
        if look.momentary() == 0 {
            return Ok(look);
        }
        let wait = change_time(look.basis.own.lines.as_slice());
        let (found, seconds) = (look.found().saturating_add(look.momentary()), wait / 1_000);
        self.host.show(&format_args!("findings: {found}; a second look in {seconds} s"))?;
        let _ = self.host.listen(wait)?;
        self.host.expect(true)?;
        self.look_at_site(Some(look.basis), after)
    }

    /// Looks at the site, and then again and again while something is undecided, or for as long as is wanted. What is found is of all
    /// these looks.
    fn look_until_decided(&mut self, begin: u64) -> Result<Look, Ended> {
        let mut look = self.look_twice(None)?;
        let mut unlike = u8::from(0 < look.momentary());
        for _ in 0..u64::MAX {
            if !self.looks_on(&look, begin, unlike) {
                break;
            }
            let wait = if 0 < unlike {
                change_time(look.basis.own.lines.as_slice())
            } else {
                BETWEEN_OPEN
            };
            let seconds = wait / 1_000;
            self.host
                .show(&format_args!("another look in {seconds} s"))?;
            let _ = self.host.listen(wait)?;
            let Look { mut basis, .. } = self.keep_clocks(look)?;
            look = self.look_at_site(None, Some(&mut basis))?;
            self.follow(&mut look, basis, true)?;
            unlike = if 0 < look.momentary() {
                unlike.saturating_add(1)
            } else {
                0
            };
        }
        if MOST_UNLIKE <= unlike {
            self.judge(&mut look, None, false)?;
        }
        Ok(look)
    }

    /// Whether another look is to decide: on what is open, or on a finding that only the latest look has.
    fn looks_on(&self, look: &Look, begin: u64, unlike: u8) -> bool {
        if self.settings.is_once {
            return false;
        }
        let spent = look.basis.own.now.saturating_sub(begin);
        let has_time = look.status != REFUSED && spent < self.settings.times.duration;
        let is_open = look.has_open() && spent < MOST_OPEN;
        has_time || is_open || 0 < unlike && unlike < MOST_UNLIKE
    }

    /// The look after which the next one is judged is this one, with what is needed of those before.
    pub(crate) fn follow(
        &mut self,
        look: &mut Look,
        after: Basis,
        is_over_time: bool,
    ) -> Result<(), Ended> {
        look.basis.take_earlier(after)?;
        let Basis { earlier, own, .. } = &mut look.basis;
        keep_needed(self.alloc, earlier, own.lines.as_slice(), is_over_time)?;
        Ok(())
    }
}
