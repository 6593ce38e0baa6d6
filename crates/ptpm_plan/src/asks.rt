//! What is asked of the clocks before a plan can be made.

ghost use Rattle.std.specs.Prelude.{◌≡◌, ◌++◌, ◌==◌, IfOk, OnOk, string_bytes};
ghost use Rattle.std.specs.List.{find, list_any};
ghost use Rattle.std.specs.Option.{option_copied, option_map};
ghost use Rattle.ptpm_plan.specs.Asks.{asked_name, clock_count, clock_names, count_line, count_words, describes, every_names, has_domain, have, id_line, id_lines, line, lines_below, lines_if, lines_in, may_change_best, names, port_names, says_count, standing_lines, time_line};

use crate::change::PlannedId;
use crate::digest::push_number;
use crate::wish::{ClockWishes, EveryWishes, PlanFile, PortWishes, Target, Wish};
use ptpm_data::MANAGEMENT_IDS;
use std::alloc::{AllocError, Global};

/// managementId of USER_DESCRIPTION.
const USER_DESCRIPTION: u16 = 0x0002;

impl PlanFile {
    /// A line for each GET: the domain, and the id. Each id of the file is asked in each domain of the file, in the order of their
    /// numbers. If the best clock may change, its time properties are asked too. If the file says how many clocks a domain has, a
    /// line before has that number.
    pub(crate) fn asks(&self, alloc: Global) -> Result<String, AllocError>
        ensures { IfOk result (λ t. string_bytes t ≡ lines_below self.now 256) }
    {
        let mut text = String::new(alloc);
        for domain in 0..256u16 {
            self.push_if_named(alloc, domain as u8, &mut text)?;
        }
        Ok(text)
    }

    /// Adds the lines of a domain, if the file names it.
    fn push_if_named(&self, alloc: Global, domain: u8, text: &mut String) -> Result<(), AllocError>
        ensures { OnOk result (string_bytes text.new
            ≡ string_bytes text.old ++ lines_if (has_domain self.now domain) self.now domain) }
    {
        if self.has_domain(domain) {
            self.push_lines(alloc, domain, text)
        } else {
            Ok(())
        }
    }

    #[tactic(auto, unfolding(crate::specs::Asks::lines_in))]
    fn push_lines(&self, alloc: Global, domain: u8, text: &mut String) -> Result<(), AllocError>
        ensures { OnOk result (string_bytes text.new ≡ string_bytes text.old ++ lines_in self.now domain) }
    {
        self.push_count(alloc, domain, text)?;
        push_standing(alloc, domain, text)?;
        self.push_time(alloc, domain, text)?;
        self.push_names(alloc, domain, &MANAGEMENT_IDS, text)
    }

    /// Adds how many clocks a domain has, if the file says that.
    fn push_count(&self, alloc: Global, domain: u8, text: &mut String) -> Result<(), AllocError>
        ensures { OnOk result (string_bytes text.new ≡ string_bytes text.old ++ count_line self.now domain) }
    {
        match self.clock_count(domain) {
            Some(count) => {
                let words = count_words(alloc, count)?;
                push_line(alloc, domain, words.as_str(), text)
            }
            None => Ok(()),
        }
    }

    fn push_time(&self, alloc: Global, domain: u8, text: &mut String) -> Result<(), AllocError>
        ensures { OnOk result (string_bytes text.new ≡ string_bytes text.old ++ time_line self.now domain) }
    {
        if self.may_change_best() {
            push_line(alloc, domain, "TIME_PROPERTIES_DATA_SET", text)
        } else {
            Ok(())
        }
    }

    /// Adds those of these ids that the file names.
    #[tactic(auto, unfolding(crate::specs::Asks::id_lines))]
    fn push_names(
        &self,
        alloc: Global,
        domain: u8,
        ids: &[u16],
        text: &mut String,
    ) -> Result<(), AllocError>
        ensures { OnOk result (string_bytes text.new ≡ string_bytes text.old ++ id_lines self.now domain ids.now) }
    {
        for number in ids {
            self.push_name(alloc, domain, *number, text)?;
        }
        Ok(())
    }

    fn push_name(
        &self,
        alloc: Global,
        domain: u8,
        number: u16,
        text: &mut String,
    ) -> Result<(), AllocError>
        ensures { OnOk result (string_bytes text.new ≡ string_bytes text.old ++ id_line self.now domain number) }
    {
        match self.asked_name(number) {
            Some(name) => push_line(alloc, domain, name, text),
            None => Ok(()),
        }
    }

    fn has_domain(&self, domain: u8) -> bool
        ensures { result ≡ has_domain self.now domain }
    {
        any_clock_in(self.clocks.as_slice(), domain) || any_every_in(self.every.as_slice(), domain)
    }

    /// How many clocks a domain has, if the file says that. A description may be that of a clock that nobody counted. So there is no
    /// number if one names a clock of the domain.
    fn clock_count(&self, domain: u8) -> Option<u16>
        ensures { result ≡ clock_count self.now domain }
    {
        if any_describes(self.clocks.as_slice(), domain) {
            return None;
        }
        self.counted(domain)?.clocks
    }

    /// The table that says how many clocks a domain has.
    fn counted(&self, domain: u8) -> Option<&EveryWishes>
        ensures { option_copied result ≡ find (says_count domain) self.now.every.items }
    {
        self.every.iter().find(|every| says_count(every, domain))
    }

    /// The name of an id, if the file names it. `None` of USER_DESCRIPTION, which is asked anyhow.
    fn asked_name(&self, number: u16) -> Option<&'static str>
        ensures { option_map (λ name. name.now) result ≡ asked_name self.now number }
    {
        let id = PlannedId::numbered(number)?;
        if id.number() != USER_DESCRIPTION && self.names(id) {
            Some(id.name())
        } else {
            None
        }
    }

    /// Whether the file names an id of what decides which clock is the best one of a domain.
    fn may_change_best(&self) -> bool
        ensures { result ≡ may_change_best self.now }
    {
        PlannedId::ALL.iter().any(|id| (id.is_of_rank() || id.is_of_domain()) && self.names(*id))
    }

    /// Whether the file names an id.
    fn names(&self, id: PlannedId) -> bool
        ensures { result ≡ names self.now id }
    {
        any_clock_names(self.clocks.as_slice(), id) || any_every_names(self.every.as_slice(), id)
    }
}

/// Adds what is asked of each clock, whatever the file names.
fn push_standing(alloc: Global, domain: u8, text: &mut String) -> Result<(), AllocError>
    ensures { OnOk result (string_bytes text.new ≡ string_bytes text.old ++ standing_lines domain) }
{
    push_line(alloc, domain, "DEFAULT_DATA_SET", text)?;
    push_line(alloc, domain, "USER_DESCRIPTION", text)?;
    push_line(alloc, domain, "PORT_DATA_SET", text)?;
    Ok(())
}

fn count_words(alloc: Global, count: u16) -> Result<String, AllocError>
    ensures { IfOk result (λ t. string_bytes t ≡ count_words count) }
{
    let mut words = String::from_str(alloc, "clocks=")?;
    push_number(alloc, usize::from(count), &mut words)?;
    Ok(words)
}

/// Adds a line: what is asked in a domain.
#[tactic(auto, unfolding(crate::specs::Asks::line))]
fn push_line(alloc: Global, domain: u8, words: &str, text: &mut String) -> Result<(), AllocError>
    ensures { OnOk result (string_bytes text.new ≡ string_bytes text.old ++ line domain words.now) }
{
    push_number(alloc, usize::from(domain), text)?;
    text.push_str(" ")?;
    text.push_str(words)?;
    text.push_str("\n")
}

fn any_clock_in(clocks: &[ClockWishes], domain: u8) -> bool
    ensures { result ≡ list_any (λ c. c.domain == domain) clocks.now }
{
    clocks.iter().any(|clock| clock.domain == domain)
}

fn any_every_in(every: &[EveryWishes], domain: u8) -> bool
    ensures { result ≡ list_any (λ e. e.domain == domain) every.now }
{
    every.iter().any(|every| every.domain == domain)
}

fn any_describes(clocks: &[ClockWishes], domain: u8) -> bool
    ensures { result ≡ list_any (describes domain) clocks.now }
{
    clocks.iter().any(|clock| describes(clock, domain))
}

/// Whether a clock of a domain is named by its description.
fn describes(clock: &ClockWishes, domain: u8) -> bool
    ensures { result ≡ describes domain clock.now }
{
    clock.domain == domain && matches!(clock.target, Target::Description(_))
}

fn says_count(every: &EveryWishes, domain: u8) -> bool
    ensures { result ≡ says_count domain every.now }
{
    every.domain == domain && every.clocks.is_some()
}

fn any_clock_names(clocks: &[ClockWishes], id: PlannedId) -> bool
    ensures { result ≡ list_any (clock_names id) clocks.now }
{
    clocks.iter().any(|clock| clock_names(clock, id))
}

fn any_every_names(every: &[EveryWishes], id: PlannedId) -> bool
    ensures { result ≡ list_any (every_names id) every.now }
{
    every.iter().any(|every| every_names(every, id))
}

fn clock_names(clock: &ClockWishes, id: PlannedId) -> bool
    ensures { result ≡ clock_names id clock.now }
{
    have(clock.wishes.as_slice(), id) || any_port_names(clock.ports.as_slice(), id)
}

fn any_port_names(ports: &[PortWishes], id: PlannedId) -> bool
    ensures { result ≡ list_any (port_names id) ports.now }
{
    ports.iter().any(|port| have(port.wishes.as_slice(), id))
}

fn every_names(every: &EveryWishes, id: PlannedId) -> bool
    ensures { result ≡ every_names id every.now }
{
    have(every.wishes.as_slice(), id) || have(every.port_wishes.as_slice(), id)
}

fn have(wishes: &[Wish], id: PlannedId) -> bool
    ensures { result ≡ have id wishes.now }
{
    wishes.iter().any(|wish| wish.id.number() == id.number())
}
