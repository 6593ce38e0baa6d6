//! The image of a clock's data sets: the octets in which they outlast the clock's power (this project's profile).

ghost use Rattle.std.specs.Prelude.{◌≡◌, ◌≤◌, ◌+◌, ◌*◌, ◌++◌, ◌↔◌, length, drop, IfSome, IfNone, IsSome};
ghost use Rattle.arrayvec.specs.ArrayVec.{array_vec_len};
ghost use Rattle.ptpm_data.specs.Image.{data_sets_octets, default_image, parent_image, port_image, ports_image, time_image};

use crate::data_field::{
    i8_octet, put_current_data_set, put_i16, put_i32, put_i64, put_precedence,
};
use crate::data_sets::{
    DataSets, DefaultDataSet, ParentDataSet, PortDataSet, TimePropertiesDataSet,
};
use crate::image_laws::fits_law;
use crate::ports::PORTS;
use arrayvec::ArrayVec;
use ptpm_codec::{put, put_u16};

/// How many octets it has of the clock, before its text.
pub(crate) const CLOCK_OCTETS: usize = 74;

/// How many it has of each port.
pub(crate) const PORT_OCTETS: usize = 15;

/// How many octets an image has at most: also a text of at most 128, and two octets that count the text and the ports.
pub const DATA_SETS_OCTETS: usize = CLOCK_OCTETS + 1 + 128 + 1 + PORT_OCTETS * PORTS;

/// Room for an image.
pub(crate) type Image = ArrayVec<u8, DATA_SETS_OCTETS>;

impl DataSets {
    /// How many octets the image has.
    #[tactic(auto, using(crate::proofs::ImageLemmas::image_length))]
    pub fn image_size(&self) -> usize
        ensures size { result ≡ length (data_sets_octets self.now) }
        ensures small { result ≤ DATA_SETS_OCTETS }
    {
        fits_law(self);
        CLOCK_OCTETS
            + 1
            + self.description.text().len()
            + 1
            + PORT_OCTETS * self.ports.as_slice().len()
    }

    /// Writes the image over the first octets of a place, and answers how many there are, at most `DATA_SETS_OCTETS`. The others stay. `None`,
    /// and nothing is written, if the place has too few. Takes no memory.
    pub fn image_into(&self, place: &mut [u8]) -> Option<usize>
        ensures room { IsSome result ↔ (length (data_sets_octets self.now) ≤ length place.old) }
        ensures size { IfSome result (λ size. size ≡ length (data_sets_octets self.now)) }
        ensures octets { IfSome result (λ size. place.new
            ≡ data_sets_octets self.now ++ drop size place.old) }
        ensures unchanged { IfNone result (place.new ≡ place.old) }
    {
        let image = self.image();
        let size = image.len();
        if place.len() < size {
            return None;
        }
        place[..size].copy_from_slice(image.as_slice());
        Some(size)
    }

    /// The image.
    #[tactic(auto, unfolding(crate::specs::Image::data_sets_octets, crate::specs::Image::clock_image))]
    pub(crate) fn image(&self) -> Image
        ensures { result.items ≡ data_sets_octets self.now }
    {
        let mut image = ArrayVec::new();
        put_default_data_set(&mut image, &self.default);
        put_current_data_set(&mut image, &self.current);
        put_parent_data_set(&mut image, &self.parent);
        put_time_properties_data_set(&mut image, &self.time);
        let text = self.description.text();
        put(&mut image, &[text.len() as u8]);
        put(&mut image, text);
        put(&mut image, &[self.ports.as_slice().len() as u8]);
        put_ports(&mut image, self.ports.as_slice());
        image
    }
}

#[tactic(auto, unfolding(crate::specs::Image::default_image))]
fn put_default_data_set(image: &mut Image, set: &DefaultDataSet)
    requires { array_vec_len image.old + 16 ≤ DATA_SETS_OCTETS }
    ensures items { image.new.items ≡ image.old.items ++ default_image set.now }
    ensures len { array_vec_len image.new ≡ array_vec_len image.old + 16 }
{
    put(image, &set.identity.0);
    put(image, &[set.domain, set.two_step as u8]);
    put_precedence(image, &set.precedence);
}

#[tactic(auto, unfolding(crate::specs::Image::parent_image, ptpm_codec::specs::Canonical::port_identity_octets))]
fn put_parent_data_set(image: &mut Image, set: &ParentDataSet)
    requires { array_vec_len image.old + 31 ≤ DATA_SETS_OCTETS }
    ensures items { image.new.items ≡ image.old.items ++ parent_image set.now }
    ensures len { array_vec_len image.new ≡ array_vec_len image.old + 31 }
{
    put(image, &set.parent_port.clock.0);
    put_u16(image, set.parent_port.port);
    put(image, &[set.parent_stats as u8]);
    put_u16(image, set.observed_variance);
    put_i32(image, set.observed_rate);
    put_precedence(image, &set.precedence);
    put(image, &set.grandmaster.0);
}

#[tactic(auto, unfolding(crate::specs::Image::time_image))]
fn put_time_properties_data_set(image: &mut Image, set: &TimePropertiesDataSet)
    requires { array_vec_len image.old + 9 ≤ DATA_SETS_OCTETS }
    ensures items { image.new.items ≡ image.old.items ++ time_image set.now }
    ensures len { array_vec_len image.new ≡ array_vec_len image.old + 9 }
{
    put_i16(image, set.utc_offset);
    put(
        image,
        &[
            set.leap61 as u8,
            set.leap59 as u8,
            set.utc_valid as u8,
            set.ptp_timescale as u8,
            set.time_traceable as u8,
            set.frequency_traceable as u8,
            set.time_source,
        ],
    );
}

#[tactic(auto, using(crate::proofs::ImageLemmas::ports_more, std::proofs::lemmas::List::take_all), unfolding(crate::specs::Image::ports_image))]
fn put_ports(image: &mut Image, ports: &[PortDataSet])
    requires { array_vec_len image.old + 15 * length ports.now ≤ DATA_SETS_OCTETS }
    ensures { image.new.items ≡ image.old.items ++ ports_image ports.now }
{
    for port in ports {
        put_port(image, port);
    }
}

#[tactic(auto, unfolding(crate::specs::Image::port_image))]
fn put_port(image: &mut Image, set: &PortDataSet)
    requires { array_vec_len image.old + 15 ≤ DATA_SETS_OCTETS }
    ensures items { image.new.items ≡ image.old.items ++ port_image set.now }
    ensures len { array_vec_len image.new ≡ array_vec_len image.old + 15 }
{
    put(
        image,
        &[set.state.number(), i8_octet(set.log_min_delay_req)],
    );
    put_i64(image, set.peer_delay);
    put(image, &set.settings.octets());
}
