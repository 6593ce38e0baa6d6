//! What the dataField of a GET holds (15.5.3).

ghost use Rattle.std.specs.Prelude.{◌≡◌, ◌+◌, ◌≤◌, ◌++◌, ◌≢◌, [], length, true, option_map, Some, IfSome, IfNone};
ghost use Rattle.arrayvec.specs.ArrayVec.{array_vec_len};
ghost use Rattle.ptpm_data.specs.DataField.{clock_field_of, current_data_field, data_field_of, data_field_of_id, default_data_field, i16_octets, i32_octets, i64_octets, i8_octet, octet_data_field, parent_data_field, permits, port_data_field, port_settings_octets, precedence_octets, time_properties_data_field, utc_properties_data_field};
ghost use Rattle.ptpm_data.specs.ManagementId.{is_of_port};
ghost use Rattle.ptpm_data.specs.Members.{HasPort, port_of};
ghost use Rattle.ptpm_codec.specs.declared.message.Action.TheVariants.{Get};

use crate::data_sets::{
    ClockPrecedence, CurrentDataSet, DataSets, DefaultDataSet, ParentDataSet, PortDataSet,
    TimePropertiesDataSet,
};
use crate::management_id::{Layout, Scope, by_id};
use crate::port_list::port_at;
use crate::reply::Value;
use arrayvec::ArrayVec;
use byteorder::{BigEndian, ByteOrder};
use ptpm_codec::{ClockIdentity, put, put_u16};

impl DataSets {
    /// Leaves in the buffer what a GET of this id is answered, and nothing else. Takes no memory.
    ///
    /// The id permits GET; for an id of a port, the port is one of the clock's. For an id of the clock the port does not
    /// matter.
    pub fn lay(&self, id: u16, port: u16, buffer: &mut Value)
        requires permits { permits Get id ≡ true }
        requires port { is_of_port id ≡ true → HasPort port self.now }
        ensures { buffer.new.items ≡ data_field_of_id id port self.now }
    {
        buffer.clear();
        if let Some(row) = by_id(id) {
            match row.scope {
                Scope::Clock => self.put_clock_field(row.layout, buffer),
                Scope::Port => self.put_port_field(row.layout, port, buffer),
            }
        }
    }

    /// Appends the dataField of an id of the clock.
    #[tactic(auto, unfolding(crate::specs::DataField::clock_field_of))]
    pub(crate) fn put_clock_field(&self, layout: Layout, buffer: &mut Value)
        requires { buffer.old.items ≡ [] }
        ensures { buffer.new.items ≡ clock_field_of layout self.now }
    {
        if let Some(octet) = self.octet_of_clock(layout) {
            return put_octet(buffer, octet);
        }
        match layout {
            Layout::UserDescription => put(buffer, self.description.octets()),
            Layout::DefaultDataSet => put_default_data_set(
                buffer,
                &self.default,
                self.port_count(),
            ),
            Layout::CurrentDataSet => put_current_data_set(buffer, &self.current),
            Layout::ParentDataSet => put_parent_data_set(buffer, &self.parent),
            Layout::TimePropertiesDataSet => put_time_properties_data_set(buffer, &self.time),
            Layout::UtcProperties => put_utc_properties(buffer, &self.time),
            _ => {}
        }
    }

    /// The octet that an id shows of one member of the clock. None for every other id.
    #[inline(always)]
    #[tactic(auto, unfolding(crate::specs::DataField::clock_field_of))]
    pub(crate) fn octet_of_clock(&self, layout: Layout) -> Option<u8>
        ensures shown { IfSome result (λ octet. clock_field_of layout self.now
            ≡ octet_data_field octet) }
        ensures other { IfNone result ((layout ≢ Layout.Priority1)
            × ((layout ≢ Layout.Priority2)
            × ((layout ≢ Layout.Domain)
            × ((layout ≢ Layout.SlaveOnly)
            × (layout ≢ Layout.ClockAccuracy))))) }
    {
        let precedence = &self.default.precedence;
        match layout {
            Layout::Priority1 => Some(precedence.priority1),
            Layout::Priority2 => Some(precedence.priority2),
            Layout::Domain => Some(self.default.domain),
            Layout::SlaveOnly => Some(0),
            Layout::ClockAccuracy => Some(precedence.accuracy),
            _ => None,
        }
    }

    /// Appends the dataField of an id of a port; that of a port that the clock lacks has no octets.
    #[tactic(auto, unfolding(crate::specs::DataField::port_field_of))]
    fn put_port_field(&self, layout: Layout, port: u16, buffer: &mut Value)
        requires { buffer.old.items ≡ [] }
        ensures { buffer.new.items ≡ data_field_of layout (Some port) self.now }
    {
        if layout == Layout::PortDataSet {
            if let Some(set) = self.port(port) {
                put_port_data_set(buffer, &self.default.identity, port, set);
            }
        } else if let Some(octet) = self.octet_of_port(layout, port) {
            put_octet(buffer, octet);
        }
    }

    /// The octet that an id other than PORT_DATA_SET shows of a port. None if it shows no member of a port, or the clock
    /// lacks the port.
    #[inline(always)]
    #[tactic(auto, unfolding(crate::specs::DataField::port_field_of))]
    pub(crate) fn octet_of_port(&self, layout: Layout, port: u16) -> Option<u8>
        requires { layout ≢ Layout.PortDataSet }
        ensures shown { IfSome result (λ octet. data_field_of layout (Some port) self.now
            ≡ octet_data_field octet) }
        ensures nothing { IfNone result (data_field_of layout (Some port) self.now ≡ []) }
    {
        let set = self.port(port)?;
        match layout {
            Layout::Setting(setting) => Some(set.settings.octet(setting)),
            Layout::VersionNumber => Some(VERSION),
            _ => None,
        }
    }

    /// The data set of a port; none if the clock lacks it.
    pub(crate) fn port(&self, port: u16) -> Option<&PortDataSet>
        ensures { option_map (λ p. p.now) result ≡ port_of port self.now }
    {
        port_at(self.ports.as_slice(), port)
    }
}

/// versionNumber (8.2.15.4.6).
const VERSION: u8 = 2;

#[tactic(auto, unfolding(crate::specs::DataField::default_data_field))]
fn put_default_data_set(buffer: &mut Value, set: &DefaultDataSet, number_of_ports: u16)
    requires { array_vec_len buffer.old + 20 ≤ 130 }
    ensures { buffer.new.items ≡ buffer.old.items ++ default_data_field set.now number_of_ports }
{
    put(buffer, &[set.two_step as u8, 0]);
    put_u16(buffer, number_of_ports);
    put_precedence(buffer, &set.precedence);
    put(buffer, &set.identity.0);
    put(buffer, &[set.domain, 0]);
}

#[tactic(auto, unfolding(crate::specs::DataField::current_data_field))]
pub(crate) fn put_current_data_set<const N: usize>(
    buffer: &mut ArrayVec<u8, N>,
    set: &CurrentDataSet,
)
    requires { array_vec_len buffer.old + 18 ≤ N }
    ensures items { buffer.new.items ≡ buffer.old.items ++ current_data_field set.now }
    ensures len { array_vec_len buffer.new ≡ array_vec_len buffer.old + 18 }
{
    put_u16(buffer, set.steps_removed);
    put_i64(buffer, set.offset_from_master);
    put_i64(buffer, set.mean_path_delay);
}

#[tactic(auto, unfolding(crate::specs::DataField::parent_data_field))]
fn put_parent_data_set(buffer: &mut Value, set: &ParentDataSet)
    requires { array_vec_len buffer.old + 32 ≤ 130 }
    ensures { buffer.new.items ≡ buffer.old.items ++ parent_data_field set.now }
{
    put(buffer, &set.parent_port.clock.0);
    put_u16(buffer, set.parent_port.port);
    put(buffer, &[set.parent_stats as u8, 0]);
    put_u16(buffer, set.observed_variance);
    put_i32(buffer, set.observed_rate);
    put_precedence(buffer, &set.precedence);
    put(buffer, &set.grandmaster.0);
}

#[tactic(auto, unfolding(crate::specs::DataField::time_properties_data_field))]
fn put_time_properties_data_set(buffer: &mut Value, set: &TimePropertiesDataSet)
    requires { array_vec_len buffer.old + 4 ≤ 130 }
    ensures { buffer.new.items ≡ buffer.old.items ++ time_properties_data_field set.now }
{
    let flags = set.leap61 as u8
        + 2 * set.leap59 as u8
        + 4 * set.utc_valid as u8
        + 8 * set.ptp_timescale as u8
        + 16 * set.time_traceable as u8
        + 32 * set.frequency_traceable as u8;
    put_i16(buffer, set.utc_offset);
    put(buffer, &[flags, set.time_source]);
}

#[tactic(auto, unfolding(crate::specs::DataField::utc_properties_data_field))]
fn put_utc_properties(buffer: &mut Value, set: &TimePropertiesDataSet)
    requires { array_vec_len buffer.old + 4 ≤ 130 }
    ensures { buffer.new.items ≡ buffer.old.items ++ utc_properties_data_field set.now }
{
    let flags = set.leap61 as u8 + 2 * set.leap59 as u8 + 4 * set.utc_valid as u8;
    put_i16(buffer, set.utc_offset);
    put(buffer, &[flags, 0]);
}

#[tactic(auto, unfolding(crate::specs::DataField::precedence_octets))]
pub(crate) fn put_precedence<const N: usize>(
    buffer: &mut ArrayVec<u8, N>,
    precedence: &ClockPrecedence,
)
    requires { array_vec_len buffer.old + 6 ≤ N }
    ensures items { buffer.new.items ≡ buffer.old.items ++ precedence_octets precedence.now }
    ensures len { array_vec_len buffer.new ≡ array_vec_len buffer.old + 6 }
{
    put(
        buffer,
        &[precedence.priority1, precedence.class, precedence.accuracy],
    );
    put_u16(buffer, precedence.variance);
    put(buffer, &[precedence.priority2]);
}

#[tactic(auto, unfolding(crate::specs::DataField::port_data_field))]
#[inline(always)]
pub(crate) fn put_port_data_set<const N: usize>(
    buffer: &mut ArrayVec<u8, N>,
    identity: &ClockIdentity,
    port: u16,
    set: &PortDataSet,
)
    requires { array_vec_len buffer.old + 26 ≤ N }
    ensures { buffer.new.items ≡ buffer.old.items ++ port_data_field identity.now port set.now }
{
    put(buffer, &identity.0);
    put_u16(buffer, port);
    put(
        buffer,
        &[set.state.number(), i8_octet(set.log_min_delay_req)],
    );
    put_i64(buffer, set.peer_delay);
    put_port_settings(buffer, set);
}

/// The settings, and versionNumber.
#[tactic(auto, unfolding(crate::specs::DataField::port_settings_octets))]
#[inline(always)]
fn put_port_settings<const N: usize>(buffer: &mut ArrayVec<u8, N>, set: &PortDataSet)
    requires { array_vec_len buffer.old + 6 ≤ N }
    ensures { buffer.new.items ≡ buffer.old.items ++ port_settings_octets set.now }
{
    put(buffer, &set.settings.octets());
    put(buffer, &[VERSION]);
}

fn put_octet(buffer: &mut Value, octet: u8)
    requires { array_vec_len buffer.old + 2 ≤ 130 }
    ensures { buffer.new.items ≡ buffer.old.items ++ octet_data_field octet }
{
    put(buffer, &[octet, 0]);
}

#[tactic(auto, unfolding(crate::specs::DataField::i8_octet))]
pub(crate) fn i8_octet(number: i8) -> u8
    ensures { result ≡ i8_octet number }
{
    number.cast_unsigned()
}

#[tactic(auto, unfolding(crate::specs::DataField::i16_octets))]
pub(crate) fn put_i16<const N: usize>(buffer: &mut ArrayVec<u8, N>, number: i16)
    requires { array_vec_len buffer.old + 2 ≤ N }
    ensures items { buffer.new.items ≡ buffer.old.items ++ i16_octets number }
    ensures len { array_vec_len buffer.new ≡ array_vec_len buffer.old + 2 }
{
    put_u16(buffer, number.cast_unsigned());
}

#[tactic(auto, unfolding(crate::specs::DataField::i32_octets))]
pub(crate) fn put_i32<const N: usize>(buffer: &mut ArrayVec<u8, N>, number: i32)
    requires { array_vec_len buffer.old + 4 ≤ N }
    ensures items { buffer.new.items ≡ buffer.old.items ++ i32_octets number }
    ensures len { array_vec_len buffer.new ≡ array_vec_len buffer.old + 4 }
{
    let mut octets = [0; 4];
    BigEndian::write_i32(&mut octets, number);
    put(buffer, &octets);
}

#[tactic(auto, unfolding(crate::specs::DataField::i64_octets))]
pub(crate) fn put_i64<const N: usize>(buffer: &mut ArrayVec<u8, N>, number: i64)
    requires { array_vec_len buffer.old + 8 ≤ N }
    ensures items { buffer.new.items ≡ buffer.old.items ++ i64_octets number }
    ensures len { array_vec_len buffer.new ≡ array_vec_len buffer.old + 8 }
{
    let mut octets = [0; 8];
    BigEndian::write_i64(&mut octets, number);
    put(buffer, &octets);
}
