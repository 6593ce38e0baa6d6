//! Data sets back from their image (this project's profile).

ghost use Rattle.std.specs.Prelude.{◌≡◌, ◌≤◌, ◌+◌, ◌*◌, ◌∷◌, ◌++◌, ◌↔◌, ℕ, List, length, map, IfOk, IfSome, IsSomeAnd, IsTrue, Ok, Some};
ghost use Rattle.std.specs.List.{All};
ghost use Rattle.ptpm_data.specs.declared.data_sets.PortDataSet.{PortDataSet};
ghost use Rattle.ptpm_data.specs.Image.{BeginsWithImage, DataSetsFit, PortFits, data_sets_octets, ports_image};
ghost use Rattle.ptpm_data.specs.ImageReading.{IsSplit, clock_read, clock_start, current_read, default_read, parent_read, port_read, port_start, time_read};
ghost use Rattle.ptpm_data.specs.Members.{DataSetsValue, IsConsistent};
ghost use Rattle.ptpm_data.specs.Start.{start_of, start_within};

use crate::data_sets::{
    CurrentDataSet, DataSets, DefaultDataSet, ParentDataSet, TimePropertiesDataSet,
};
use crate::image::{CLOCK_OCTETS, PORT_OCTETS};
use crate::image_laws::fits_law;
use crate::image_places::{flag_at, i8_at, i16_at, i32_at, i64_at, precedence_at};
use crate::laws::data_sets_law;
use crate::ports::{INLINE_PORTS, PORTS};
use crate::start::{ClockStart, PortStart, StartFault};
use arrayvec::ArrayVec;
use ptpm_codec::{OutOfMemory, clock_identity_at, port_identity_at, put, u16_at};
use std::alloc::Global;

/// How many octets an image has of the ports for which a value has room.
const INLINE_PORTS_OCTETS: usize = PORT_OCTETS * INLINE_PORTS;

impl DataSets {
    /// The data sets whose image comes first; octets after it are not looked at. `None` if no image is there. The octets then end
    /// within it, a value is one that no start takes, or a flag is neither 0 nor 1. Takes memory for more than `INLINE_PORTS` ports
    /// alone.
    pub fn restored(alloc: Global, octets: &[u8]) -> Result<Option<DataSets>, OutOfMemory>
        ensures image { IfOk result (λ found. IfSome found (λ d. BeginsWithImage d octets.now)) }
        ensures found { (d : DataSetsValue) → IsConsistent d → DataSetsFit d → BeginsWithImage d octets.now
            → IfOk result (λ found. found ≡ Some d) }
        ensures consistent { IfOk result (λ found. IfSome found (λ d. IsConsistent d)) }
        ensures fits { IfOk result (λ found. IfSome found (λ d. DataSetsFit d)) }
    {
        let mut sets = DataSets::blank();
        if sets.restore(alloc, octets)? {
            Ok(Some(sets))
        } else {
            Ok(None)
        }
    }

    /// Does what `restored` does, in place: whether an image comes first, and then these are its data sets. If none does, or if memory
    /// is refused, they are any data sets. So the stack has room for no others.
    pub fn restore(&mut self, alloc: Global, octets: &[u8]) -> Result<bool, OutOfMemory>
        ensures image { IfOk result (λ is. IsTrue is → BeginsWithImage self.new octets.now) }
        ensures found { (d : DataSetsValue) → IsConsistent d → DataSetsFit d → BeginsWithImage d octets.now
            → IfOk result (λ is. IsTrue is × (self.new ≡ d)) }
        ensures consistent { IsConsistent self.new }
        ensures fits { DataSetsFit self.new }
    {
        let read = self.read_image(alloc, octets);
        data_sets_law(self);
        fits_law(self);
        Ok(read? && self.is_first_in(octets))
    }

    /// Whether the image comes first. It is never inlined, nor is `read_image`: so the stack has room for one of them at a time.
    #[inline(never)]
    fn is_first_in(&self, octets: &[u8]) -> bool
        ensures { IsTrue result ↔ BeginsWithImage self.now octets.now }
    {
        octets.starts_with(self.image().as_slice())
    }

    /// Gives these data sets the values of an image that comes first; if none is there, any or none.
    #[inline(never)]
    fn read_image(&mut self, alloc: Global, octets: &[u8]) -> Result<bool, OutOfMemory>
        ensures { (d : DataSetsValue) (rest : List ℕ) → IsConsistent d → DataSetsFit d
            → octets.now ≡ data_sets_octets d ++ rest
            → IfOk result (λ is. IsTrue is × (self.new ≡ d)) }
    {
        let Some((clock, text, ports)) = split_image(octets) else {
            return Ok(false);
        };
        let Some(start) = read_clock(clock, text) else {
            return Ok(false);
        };
        if ports.len() <= INLINE_PORTS_OCTETS {
            Ok(self.start_with_few(&start, ports))
        } else {
            self.start_with_many(alloc, &start, ports)
        }
    }

    /// Starts with these values and the ports whose octets in an image these are.
    #[inline(never)]
    fn start_with_few(&mut self, clock: &ClockStart, ports: &[u8]) -> bool
        ensures { (sets : List PortDataSet) (d : DataSetsValue) → length sets ≤ INLINE_PORTS → All PortFits sets
            → ports.now ≡ ports_image sets
            → start_of clock.now (map port_start sets) ≡ Ok d
            → IsTrue result × (self.new ≡ d) }
    {
        match read_ports(ports) {
            Some(ports) => self.start(clock, ports.as_slice()).is_ok(),
            None => false,
        }
    }

    /// Starts with these values and the ports whose octets in an image these are, in a block of memory.
    #[inline(never)]
    fn start_with_many(
        &mut self,
        alloc: Global,
        clock: &ClockStart,
        ports: &[u8],
    ) -> Result<bool, OutOfMemory>
        ensures { (sets : List PortDataSet) (d : DataSetsValue) → All PortFits sets
            → ports.now ≡ ports_image sets
            → start_within PORTS clock.now (map port_start sets) ≡ Ok d
            → IfOk result (λ is. IsTrue is × (self.new ≡ d)) }
    {
        let starts = read_ports_in(alloc, ports)?;
        match DataSets::new_many(alloc, clock, starts.as_slice()) {
            Ok(sets) => {
                *self = sets;
                Ok(true)
            }
            Err(StartFault::Refused(_)) => Ok(false),
            Err(StartFault::OutOfMemory) => Err(OutOfMemory),
        }
    }
}

/// The place at which an image that comes first ends, by the numbers in it that count its octets. No member is read.
pub fn image_end(octets: &[u8]) -> Option<usize>
    ensures within { IfSome result (λ end. end ≤ length octets.now) }
    ensures found { (d : DataSetsValue) (rest : List ℕ) → DataSetsFit d
        → octets.now ≡ data_sets_octets d ++ rest
        → result ≡ Some (length (data_sets_octets d)) }
{
    let (clock, text, ports) = split_image(octets)?;
    Some(clock.len() + 1 + text.len() + 1 + ports.len())
}

/// An image that comes first, cut into its octets of the clock, its text and its octets of the ports.
fn split_image(octets: &[u8]) -> Option<(&[u8], &[u8], &[u8])>
    ensures parts { (d : DataSetsValue) (rest : List ℕ) → DataSetsFit d
        → octets.now ≡ data_sets_octets d ++ rest
        → IsSomeAnd result (λ p. IsSplit d p.0.now p.1.now p.2.now) }
    ensures size { IfSome result (λ p. length p.0.now ≡ 74) }
    ensures within { IfSome result
        (λ p. length p.0.now + 1 + length p.1.now + 1 + length p.2.now ≤ length octets.now) }
{
    if octets.len() < CLOCK_OCTETS {
        return None;
    }
    let (clock, octets) = octets.split_at(CLOCK_OCTETS);
    let (text, octets) = split_counted(octets, 1)?;
    let (ports, _) = split_counted(octets, PORT_OCTETS)?;
    Some((clock, text, ports))
}

/// As many pieces of N octets as the first octet says, and what comes after them.
fn split_counted(octets: &[u8], size: usize) -> Option<(&[u8], &[u8])>
    requires { size ≤ 15 }
    ensures parts { (count : ℕ) (pieces rest : List ℕ) → length pieces ≡ count * size
        → octets.now ≡ count ∷ (pieces ++ rest)
        → IsSomeAnd result (λ p. (p.0.now ≡ pieces) × (p.1.now ≡ rest)) }
    ensures within { IfSome result
        (λ p. 1 + length p.0.now + length p.1.now ≡ length octets.now) }
{
    let (count, octets) = octets.split_first()?;
    octets.split_at_checked(*count as usize * size)
}

/// The start values of an image's 74 octets of the clock, with this text; none if the text is too long for a start. Never inlined.
#[inline(never)]
#[tactic(auto, unfolding(crate::specs::ImageReading::clock_read))]
fn read_clock(octets: &[u8], text: &[u8]) -> Option<ClockStart>
    requires { length octets.now ≡ 74 }
    ensures { length text.now ≤ 129 → result ≡ Some (clock_read octets.now text.now) }
{
    if 129 < text.len() {
        return None;
    }
    let mut user_description = ArrayVec::new();
    put(&mut user_description, text);
    let (default, octets) = octets.split_at(16);
    let (current, octets) = octets.split_at(18);
    let (parent, time) = octets.split_at(31);
    Some(clock_start(
        &read_default_data_set(default),
        user_description,
        &read_current_data_set(current),
        &read_parent_data_set(parent),
        &read_time_properties_data_set(time),
    ))
}

/// The start that gives each member of these data sets its value.
fn clock_start(
    default: &DefaultDataSet,
    user_description: ArrayVec<u8, 129>,
    current: &CurrentDataSet,
    parent: &ParentDataSet,
    time: &TimePropertiesDataSet,
) -> ClockStart
    ensures { result
        ≡ clock_start default.now user_description.items current.now parent.now time.now }
{
    ClockStart {
        identity: default.identity,
        domain: default.domain,
        user_description,
        two_step: default.two_step,
        priority1: default.precedence.priority1,
        clock_class: default.precedence.class,
        clock_accuracy: default.precedence.accuracy,
        variance: default.precedence.variance,
        priority2: default.precedence.priority2,
        steps_removed: current.steps_removed,
        offset_from_master: current.offset_from_master,
        mean_path_delay: current.mean_path_delay,
        parent_port: Some(parent.parent_port),
        parent_stats: parent.parent_stats,
        observed_variance: parent.observed_variance,
        observed_rate: parent.observed_rate,
        grandmaster_priority1: Some(parent.precedence.priority1),
        grandmaster_class: Some(parent.precedence.class),
        grandmaster_accuracy: Some(parent.precedence.accuracy),
        grandmaster_variance: Some(parent.precedence.variance),
        grandmaster_priority2: Some(parent.precedence.priority2),
        grandmaster: Some(parent.grandmaster),
        utc_offset: time.utc_offset,
        leap61: time.leap61,
        leap59: time.leap59,
        utc_valid: time.utc_valid,
        ptp_timescale: time.ptp_timescale,
        time_traceable: time.time_traceable,
        frequency_traceable: time.frequency_traceable,
        time_source: time.time_source,
    }
}

#[tactic(auto, unfolding(crate::specs::ImageReading::default_read))]
fn read_default_data_set(octets: &[u8]) -> DefaultDataSet
    requires { length octets.now ≡ 16 }
    ensures { result ≡ default_read octets.now }
{
    DefaultDataSet {
        identity: clock_identity_at(octets, 0),
        domain: octets[8],
        two_step: flag_at(octets, 9),
        precedence: precedence_at(octets, 10),
    }
}

#[tactic(auto, unfolding(crate::specs::ImageReading::current_read))]
fn read_current_data_set(octets: &[u8]) -> CurrentDataSet
    requires { length octets.now ≡ 18 }
    ensures { result ≡ current_read octets.now }
{
    CurrentDataSet {
        steps_removed: u16_at(octets, 0),
        offset_from_master: i64_at(octets, 2),
        mean_path_delay: i64_at(octets, 10),
    }
}

#[tactic(auto, unfolding(crate::specs::ImageReading::parent_read))]
fn read_parent_data_set(octets: &[u8]) -> ParentDataSet
    requires { length octets.now ≡ 31 }
    ensures { result ≡ parent_read octets.now }
{
    ParentDataSet {
        parent_port: port_identity_at(octets, 0),
        parent_stats: flag_at(octets, 10),
        observed_variance: u16_at(octets, 11),
        observed_rate: i32_at(octets, 13),
        grandmaster: clock_identity_at(octets, 23),
        precedence: precedence_at(octets, 17),
    }
}

#[tactic(auto, unfolding(crate::specs::ImageReading::time_read))]
fn read_time_properties_data_set(octets: &[u8]) -> TimePropertiesDataSet
    requires { length octets.now ≡ 9 }
    ensures { result ≡ time_read octets.now }
{
    TimePropertiesDataSet {
        utc_offset: i16_at(octets, 0),
        leap61: flag_at(octets, 2),
        leap59: flag_at(octets, 3),
        utc_valid: flag_at(octets, 4),
        ptp_timescale: flag_at(octets, 5),
        time_traceable: flag_at(octets, 6),
        frequency_traceable: flag_at(octets, 7),
        time_source: octets[8],
    }
}

/// The start values of an image's octets of the ports; none if there are more than have room.
fn read_ports(octets: &[u8]) -> Option<ArrayVec<PortStart, INLINE_PORTS>>
    ensures { (ports : List PortDataSet) → length ports ≤ INLINE_PORTS → All PortFits ports
        → octets.now ≡ ports_image ports
        → IsSomeAnd result (λ starts. starts.items ≡ map port_start ports) }
{
    let count = octets.len() / PORT_OCTETS;
    if INLINE_PORTS < count {
        return None;
    }
    let mut starts = ArrayVec::new();
    for place in 0..count {
        let first = PORT_OCTETS * place;
        starts.push(read_port(&octets[first..first + PORT_OCTETS]));
    }
    Some(starts)
}

/// The start values of an image's octets of the ports, in a block of memory.
fn read_ports_in(alloc: Global, octets: &[u8]) -> Result<Vec<PortStart>, OutOfMemory>
    ensures { (ports : List PortDataSet) → All PortFits ports
        → octets.now ≡ ports_image ports
        → IfOk result (λ starts. starts.items ≡ map port_start ports) }
{
    let count = octets.len() / PORT_OCTETS;
    let Ok(mut starts) = Vec::with_capacity(alloc, count) else {
        return Err(OutOfMemory);
    };
    for place in 0..count {
        let first = PORT_OCTETS * place;
        starts.push_reserved(read_port(&octets[first..first + PORT_OCTETS]));
    }
    Ok(starts)
}

#[tactic(auto, unfolding(crate::specs::ImageReading::port_read))]
fn read_port(octets: &[u8]) -> PortStart
    requires { length octets.now ≡ 15 }
    ensures { result ≡ port_read octets.now }
{
    let (own, settings) = octets.split_at(10);
    PortStart::with(own[0], i8_at(own, 1), i64_at(own, 2), settings)
}
