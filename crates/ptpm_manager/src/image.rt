//! The image of a session: the octets in which it outlasts the manager's power (this project's profile).

ghost use Rattle.std.specs.Prelude.{◌≡◌, ◌≤◌, ◌+◌, ◌++◌, ◌↔◌, ◌^◌, ◌<◌, bytes_eq, length, take, drop, IfSome, IfNone, IsSome};
ghost use Rattle.arrayvec.specs.ArrayVec.{array_vec_len};
ghost use Rattle.byteorder.specs.Endian.{big_bytes};
ghost use Rattle.ptpm_codec.specs.Message.{IsDataField};
ghost use Rattle.ptpm_manager.specs.Image.{body_front, data_field_of, image_head, request_front, session_front, session_image, setup_image, unanswered_front};
ghost use Rattle.ptpm_manager.specs.Session.{IsConsistent};

use crate::saved::Saved;
use crate::session::Session;
use crate::setup::{Setup, TARGET_PORTS};
use arrayvec::ArrayVec;
use ptpm_codec::{DATA_FIELD_OCTETS, put, put_u16};
use ptpm_data::Request;

/// The first octets of an image.
pub(crate) const MARK: &[u8; 4] = b"ptpm";

/// The kind of an image of a session; one of a clock is of kind 1.
pub(crate) const SESSION_KIND: u8 = 2;

pub(crate) const IMAGE_VERSION: u8 = 1;

/// How many octets an image has before the session.
pub(crate) const IMAGE_HEAD_OCTETS: usize = 12;

/// How many octets the image of a session has at most: 12 of the head, 48 of the session, and its request's dataField.
pub const SESSION_OCTETS: usize = FRONT_OCTETS + DATA_FIELD_OCTETS;

/// How many octets come before the dataField at most. `BODY_OCTETS` of these follow the head.
const FRONT_OCTETS: usize = IMAGE_HEAD_OCTETS + BODY_OCTETS;

const BODY_OCTETS: usize = 48;

/// Room for what comes before the dataField.
type Front = ArrayVec<u8, FRONT_OCTETS>;

/// Room for what of it follows the head.
type Body = ArrayVec<u8, BODY_OCTETS>;

impl Session {
    /// How many octets the image has.
    pub fn image_size(&self) -> usize
        ensures size { result ≡ length (session_image self.now) }
        ensures small { result ≤ SESSION_OCTETS }
    {
        self.saved().image_size()
    }

    /// Writes the image over the first octets of a place, and answers how many there are: 53 to 1,478. The others stay. `None`,
    /// and nothing is written, if the place has too few. How often the request may still be sent is not in the image. Takes no
    /// memory.
    pub fn image_into(&self, place: &mut [u8]) -> Option<usize>
        ensures room { IsSome result ↔ (length (session_image self.now) ≤ length place.old) }
        ensures size { IfSome result (λ size. size ≡ length (session_image self.now)) }
        ensures octets { IfSome result
            (λ size. place.new ≡ session_image self.now ++ drop size place.old) }
        ensures unchanged { IfNone result (place.new ≡ place.old) }
    {
        let saved = self.saved();
        let size = saved.image_size();
        if place.len() < size {
            return None;
        }
        saved.write_image(place);
        Some(size)
    }
}

impl Saved<'_> {
    /// How many octets the image has.
    fn image_size(&self) -> usize
        requires { IsConsistent self.now }
        ensures size { result ≡ length (session_image self.now) }
        ensures small { result ≤ SESSION_OCTETS }
    {
        self.front().len() + self.data_field().len()
    }

    /// Writes the image over the first octets of a place.
    fn write_image(&self, place: &mut [u8])
        requires consistent { IsConsistent self.now }
        requires room { length (session_image self.now) ≤ length place.old }
        ensures { place.new
            ≡ session_image self.now ++ drop (length (session_image self.now)) place.old }
    {
        write_both(place, self.front().as_slice(), self.data_field());
    }

    /// Whether these octets are the image.
    #[tactic(auto, using(crate::proofs::ImageLaws::front_and_field))]
    pub(crate) fn is_image(&self, octets: &[u8]) -> bool
        requires { IsConsistent self.now }
        ensures { result ≡ bytes_eq octets.now (session_image self.now) }
    {
        is_made_of(octets, self.front().as_slice(), self.data_field())
    }

    /// The image as far as the dataField.
    #[tactic(auto, using(crate::proofs::ImageLaws::body_size), unfolding(crate::specs::Image::image_front))]
    fn front(&self) -> Front
        requires { IsConsistent self.now }
        ensures { result.items ≡ session_front self.now }
    {
        let body = self.body();
        let mut front = ArrayVec::new();
        put_head(&mut front, (body.len() + self.data_field().len()) as u32);
        put(&mut front, body.as_slice());
        front
    }

    /// What of it follows the head.
    #[tactic(auto, unfolding(crate::specs::Image::body_front))]
    fn body(&self) -> Body
        requires { IsConsistent self.now }
        ensures { result.items
            ≡ body_front self.now.setup self.now.domain self.now.issued self.now.reported
            self.now.unanswered }
    {
        let mut body = ArrayVec::new();
        put_setup(&mut body, &self.setup);
        put(&mut body, &[self.domain]);
        put_u64(&mut body, self.issued);
        put_u64(&mut body, self.reported);
        put_unanswered(&mut body, &self.unanswered);
        body
    }

    /// The dataField of the request, with which the image ends.
    fn data_field(&self) -> &[u8]
        requires { IsConsistent self.now }
        ensures octets { result.now ≡ data_field_of self.now.unanswered }
        ensures small { length result.now ≤ DATA_FIELD_OCTETS }
    {
        match &self.unanswered {
            None => &[],
            Some(request) => request.octets,
        }
    }
}

/// Writes these two parts, one after the other, over the first octets of a place.
fn write_both(place: &mut [u8], front: &[u8], rest: &[u8])
    requires { length front.now + length rest.now ≤ length place.old }
    ensures { place.new
        ≡ front.now ++ rest.now ++ drop (length front.now + length rest.now) place.old }
{
    let size = front.len();
    write_first(place, front);
    write(place, size, rest);
}

fn write_first(place: &mut [u8], octets: &[u8])
    requires { length octets.now ≤ length place.old }
    ensures { place.new ≡ octets.now ++ drop (length octets.now) place.old }
{
    place[..octets.len()].copy_from_slice(octets);
}

/// Writes octets over those of a place, from the one at `at` on.
fn write(place: &mut [u8], at: usize, octets: &[u8])
    requires { at + length octets.now ≤ length place.old }
    ensures { place.new
        ≡ take at place.old ++ octets.now ++ drop (at + length octets.now) place.old }
{
    let end = at + octets.len();
    place[at..end].copy_from_slice(octets);
}

/// Whether octets are these two parts, one after the other.
#[tactic(auto, using(crate::proofs::ImageLaws::parts_short, crate::proofs::ImageLaws::parts_long))]
fn is_made_of(octets: &[u8], front: &[u8], rest: &[u8]) -> bool
    ensures { result ≡ bytes_eq octets.now (front.now ++ rest.now) }
{
    if octets.len() < front.len() {
        return false;
    }
    let (head, tail) = octets.split_at(front.len());
    head == front && tail == rest
}

#[tactic(auto, unfolding(crate::specs::Image::image_head))]
fn put_head(front: &mut Front, size: u32)
    requires { array_vec_len front.old + 12 ≤ FRONT_OCTETS }
    ensures items { front.new.items ≡ front.old.items ++ image_head 2 size }
    ensures len { array_vec_len front.new ≡ array_vec_len front.old + 12 }
{
    put(
        front,
        &[b'p', b't', b'p', b'm', SESSION_KIND, IMAGE_VERSION, 0, 0],
    );
    put_u32(front, size);
}

fn put_u32(front: &mut Front, number: u32)
    requires { array_vec_len front.old + 4 ≤ FRONT_OCTETS }
    ensures items { front.new.items ≡ front.old.items ++ big_bytes 4 number }
    ensures len { array_vec_len front.new ≡ array_vec_len front.old + 4 }
{
    put(front, &number.to_be_bytes());
}

#[tactic(auto, unfolding(crate::specs::Image::setup_image, ptpm_codec::specs::Canonical::port_identity_octets))]
fn put_setup(body: &mut Body, setup: &Setup)
    requires room { array_vec_len body.old + 23 ≤ BODY_OCTETS }
    requires ports { setup.now.ports ≤ TARGET_PORTS }
    ensures items { body.new.items ≡ body.old.items ++ setup_image setup.now }
    ensures len { array_vec_len body.new ≡ array_vec_len body.old + 23 }
{
    put(body, &setup.me.clock.0);
    put_u16(body, setup.me.port);
    put(body, &setup.target.0);
    put(body, &[setup.ports as u8]);
    put_u16(body, setup.first);
    put(body, &[setup.hops, setup.attempts]);
}

fn put_u64(body: &mut Body, number: u64)
    requires { array_vec_len body.old + 8 ≤ BODY_OCTETS }
    ensures items { body.new.items ≡ body.old.items ++ big_bytes 8 number }
    ensures len { array_vec_len body.new ≡ array_vec_len body.old + 8 }
{
    put(body, &number.to_be_bytes());
}

fn put_unanswered(body: &mut Body, unanswered: &Option<Request<'_>>)
    requires room { array_vec_len body.old ≡ 40 }
    requires octets { IfSome unanswered.now (λ q. IsDataField q.octets) }
    ensures { body.new.items ≡ body.old.items ++ unanswered_front unanswered.now }
{
    match unanswered {
        None => put(body, &[0]),
        Some(request) => {
            put(body, &[1]);
            put_request(body, request);
        }
    }
}

fn put_request(body: &mut Body, request: &Request<'_>)
    requires room { array_vec_len body.old ≡ 41 }
    requires octets { IsDataField request.now.octets }
    ensures { body.new.items ≡ body.old.items ++ request_front request.now }
{
    put(body, &[request.action.code()]);
    put_u16(body, request.id);
    put_u16(body, request.port);
    put_u16(body, request.octets.len() as u16);
}
