//! The image of a clock, in which it outlasts its host, and the clock back from it.

ghost use Rattle.std.specs.Prelude.{◌≡◌, ◌≤◌, ◌+◌, ◌++◌, ◌↔◌, true, IfErr, IfNone, IfOk, IfSome, IsSome, IsSomeAnd, IsTrue, MatchResult, None, Option, Some, [], drop, length, take, List, ℕ};
ghost use Rattle.std.specs.FinMap as fin;
ghost use Rattle.std.specs.List.{All};
ghost use Rattle.ptpm_agent.specs.Turn.{State};
ghost use Rattle.ptpm_table.specs.Entries.{is_known};
ghost use Rattle.ptpm_table.specs.Managers.{identities};
ghost use Rattle.ptpm_saved.specs.Image.{SavedClock, clock_image, saved_of};
ghost use Rattle.ptpm_saved.specs.SavingClock.{Datagram};
ghost use Rattle.ptpm_host.specs.Clock.{clock_in, state_in};
ghost use Rattle.ptpm_host.specs.Coming.{ClockState};
ghost use Rattle.ptpm_host.specs.Restoring.{CanRestore, CanRestoreWith, IsBack, IsBackWith, IsBegunAs, IsDamagedInside, IsOwnerRefused, HasOwner, IsRefusedBy, IsRestoreRefused, IsUnderWayRefused, inside};
ghost use Rattle.ptpm_host.specs.SavingClock.{clock_state_in, request_under_way};
ghost use Rattle.ptpm_host.specs.UnderWay.{IsUnderWayImage, has_under_way, image_with, under_way_front, under_way_image};
ghost use Rattle.ptpm_host.specs.Settings.{configured};

use crate::clock::HostedClock;
use crate::judged::{judge_image, judge_owner};
use crate::managers::judged_table;
use crate::refusal::ClockRestoreRefusal;
use crate::settings::ManagerSettings;
use crate::under_way::{UnderWay, may_be_under_way};
use ptpm_codec::u16_at;
use ptpm_data::DataSets;
use ptpm_saved::{RestoreError, image_into, put_back_judged};
use std::alloc::Global;

/// How many octets an image has before what it is of.
const HEAD_OCTETS: usize = 12;

/// How many octets come before the message that is under way: the head, the port, and the number of its octets.
const FRONT_OCTETS: usize = HEAD_OCTETS + 4;

/// An image with what is under way, taken apart.
#[derive(Clone, Copy)]
struct ImageParts<'a> {
    port: u16,
    message: &'a [u8],
    /// The image of the clock alone.
    clock: &'a [u8],
}

impl HostedClock {
    /// Leaves the clock's image at the head of `octets`, and answers how many octets it has: 104 to 216,289. What comes after
    /// them stays. `None`, and nothing is written, if there is room for fewer. Managers and rights are not in it. If something is
    /// under way, the image is of a kind of its own. Takes no memory.
    pub fn image(&self, octets: &mut [u8]) -> Option<usize>
        ensures room { IsSome result
            ↔ (length (image_with (request_under_way self.now.under_way) (clock_image (state_in self.now))) ≤ length octets.old) }
        ensures size { IfSome result (λ n. n ≡ length (image_with (request_under_way self.now.under_way) (clock_image (state_in self.now)))) }
        ensures octets { IfSome result
            (λ n. octets.new ≡ image_with (request_under_way self.now.under_way) (clock_image (state_in self.now)) ++ drop n octets.old) }
        ensures unchanged { IfNone result (octets.new ≡ octets.old) }
    {
        match &self.under_way {
            None => image_into(&self.agent, octets),
            Some(under_way) => self.image_with(under_way, octets),
        }
    }

    /// The same with this under way. The image of the clock alone comes last in it.
    fn image_with(&self, under_way: &UnderWay, octets: &mut [u8]) -> Option<usize>
        ensures room { IsSome result ↔ (length (under_way_image (under_way.now.port, take under_way.now.size under_way.now.octets)
            (clock_image (state_in self.now))) ≤ length octets.old) }
        ensures size { IfSome result (λ n. n ≡ length (under_way_image (under_way.now.port, take under_way.now.size under_way.now.octets)
            (clock_image (state_in self.now)))) }
        ensures octets { IfSome result (λ n. octets.new ≡ under_way_image (under_way.now.port, take under_way.now.size under_way.now.octets)
            (clock_image (state_in self.now)) ++ drop n octets.old) }
        ensures unchanged { IfNone result (octets.new ≡ octets.old) }
    {
        let start = FRONT_OCTETS + under_way.message().len();
        if octets.len() < start {
            return None;
        }
        let (front, rest) = octets.split_at_mut(start);
        match image_into(&self.agent, rest) {
            Some(size) => {
                let behind = (start - HEAD_OCTETS + size) % 4_294_967_296;
                write_front(front, under_way, behind as u32);
                Some(start + size)
            }
            None => None,
        }
    }

    /// The clock of an image, if it is of this identity and has this many ports. Also how many of its entries were let go, since
    /// their managers are not among these. Managers and rights are these; all else is as it was saved, also what is under way. An
    /// image is refused for the first reason that holds. Memory is asked for once managers and identity were judged. For a clock of up
    /// to `ptpm_data::INLINE_PORTS` ports it is asked for last.
    pub fn restored_boxed(
        alloc: Global,
        identity: &[u8; 8],
        ports: usize,
        managers: &[ManagerSettings],
        image: &[u8],
    ) -> Result<(Box<HostedClock>, u8), ClockRestoreRefusal>
        ensures restored { IfOk result (λ r. (c : SavedClock) × (under_way : Option Datagram)
            × CanRestoreWith (record { 0 = identity.now }) ports managers.now image.now c under_way
            × IsBackWith c under_way managers.now r.0.value r.1) }
        ensures refused { IfErr result (λ e. IsRefusedBy (has_under_way image.now)
            (record { 0 = identity.now }) ports managers.now image.now e) }
        ensures found { (c : SavedClock) (under_way : Option Datagram)
            → CanRestoreWith (record { 0 = identity.now }) ports managers.now image.now c under_way
            → MatchResult result (λ r. IsBackWith c under_way managers.now r.0.value r.1)
            (λ e. e ≡ ClockRestoreRefusal.OutOfMemory) }

        // From its image a clock whose managers are all among these goes on as it was.
        ensures back { (s : ClockState)
            → CanRestoreWith (record { 0 = identity.now }) ports managers.now image.now
            (saved_of s.state) s.under_way
            → All (λ e. is_known e.0 (identities (configured managers.now)) ≡ true)
            (fin.entries s.state.entries)
            → IfOk result (λ r. (clock_state_in r.0.value ≡ s) × (r.1 ≡ 0)) }
    {
        if has_under_way(image) {
            HostedClock::restored_with(alloc, identity, ports, managers, image)
        } else {
            HostedClock::restored_alone(alloc, identity, ports, managers, image)
        }
    }

    /// The clock of an image with what is under way.
    fn restored_with(
        alloc: Global,
        identity: &[u8; 8],
        ports: usize,
        managers: &[ManagerSettings],
        image: &[u8],
    ) -> Result<(Box<HostedClock>, u8), ClockRestoreRefusal>
        ensures restored { IfOk result (λ r. (c : SavedClock) × (x : Datagram)
            × CanRestoreWith (record { 0 = identity.now }) ports managers.now image.now c (Some x)
            × IsBackWith c (Some x) managers.now r.0.value r.1) }
        ensures refused { IfErr result (λ e. IsUnderWayRefused
            (record { 0 = identity.now }) ports managers.now image.now e) }
        ensures found { (c : SavedClock) (x : Datagram)
            → CanRestoreWith (record { 0 = identity.now }) ports managers.now image.now c (Some x)
            → MatchResult result (λ r. IsBackWith c (Some x) managers.now r.0.value r.1)
            (λ e. e ≡ ClockRestoreRefusal.OutOfMemory) }
    {
        let Some(parts) = taken_apart(image, ports) else {
            judge_owner(identity, managers)?;
            return Err(ClockRestoreRefusal::Image(RestoreError::Damaged));
        };
        match HostedClock::restored_alone(alloc, identity, ports, managers, parts.clock) {
            Ok((mut clock, gone)) => {
                clock.under_way = Some(UnderWay::of(parts.port, parts.message));
                Ok((clock, gone))
            }
            Err(refusal) => Err(inside(refusal)),
        }
    }

    /// The clock of an image with nothing under way.
    fn restored_alone(
        alloc: Global,
        identity: &[u8; 8],
        ports: usize,
        managers: &[ManagerSettings],
        image: &[u8],
    ) -> Result<(Box<HostedClock>, u8), ClockRestoreRefusal>
        ensures restored { IfOk result (λ r. (c : SavedClock)
            × CanRestore (record { 0 = identity.now }) ports managers.now image.now c
            × IsBack c managers.now r.0.value r.1) }
        ensures refused { IfErr result
            (λ e. IsRestoreRefused (record { 0 = identity.now }) ports managers.now image.now e) }
        ensures found { (c : SavedClock)
            → CanRestore (record { 0 = identity.now }) ports managers.now image.now c
            → MatchResult result (λ r. IsBack c managers.now r.0.value r.1)
            (λ e. e ≡ ClockRestoreRefusal.OutOfMemory) }
        ensures nothing { IfOk result (λ r. r.0.value.under_way ≡ None) }
    {
        let mut clock = HostedClock::without_entries(alloc, identity, ports, managers, image)?;
        match put_back_judged(alloc, image, &mut clock.agent) {
            Ok(gone) => Ok((clock, gone)),
            Err(_) => Err(ClockRestoreRefusal::OutOfMemory),
        }
    }

    /// The clock of an image without its entries. It is never inlined: so the stack has no data sets while entries are put back.
    #[inline(never)]
    fn without_entries(
        alloc: Global,
        identity: &[u8; 8],
        ports: usize,
        managers: &[ManagerSettings],
        image: &[u8],
    ) -> Result<Box<HostedClock>, ClockRestoreRefusal>
        ensures made { IfOk result (λ r. (c : SavedClock)
            × CanRestore (record { 0 = identity.now }) ports managers.now image.now c
            × IsBegunAs c managers.now r.value) }
        ensures refused { IfErr result
            (λ e. IsRestoreRefused (record { 0 = identity.now }) ports managers.now image.now e) }
        ensures found { (c : SavedClock)
            → CanRestore (record { 0 = identity.now }) ports managers.now image.now c
            → MatchResult result (λ r. IsBegunAs c managers.now r.value)
            (λ e. e ≡ ClockRestoreRefusal.OutOfMemory) }
        ensures nothing { IfOk result (λ r. r.value.under_way ≡ None) }
    {
        let mut sets = DataSets::blank();
        judge_image(alloc, identity, ports, managers, image, &mut sets)?;
        let Ok(table) = judged_table(alloc, sets.identity(), sets.port_count(), managers) else {
            return Err(ClockRestoreRefusal::OutOfMemory);
        };
        match HostedClock::boxed(alloc, sets, table) {
            Ok(clock) => Ok(clock),
            Err(_) => Err(ClockRestoreRefusal::OutOfMemory),
        }
    }
}

/// Writes the message that is under way, and what comes before it, over a place for these.
fn write_front(place: &mut [u8], under_way: &UnderWay, behind: u32)
    requires { length place.old ≡ 16 + length (take under_way.now.size under_way.now.octets) }
    ensures { place.new ≡ under_way_front behind under_way.now.port
        (length (take under_way.now.size under_way.now.octets))
        ++ take under_way.now.size under_way.now.octets }
{
    let message = under_way.message();
    let (front, rest) = place.split_at_mut(FRONT_OCTETS);
    front.copy_from_slice(&front_of(behind, under_way.port, message.len() as u16));
    rest.copy_from_slice(message);
}

/// Whether this comes before a message of `count` octets.
fn is_front(front: &[u8], size: u32, port: u16, count: u16) -> bool
    ensures { IsTrue result ↔ front.now ≡ under_way_front size port count }
{
    front == front_of(size, port, count).as_slice()
}

/// What comes before a message of `count` octets that is under way, with `size` octets after the head.
#[tactic(auto, unfolding(crate::specs::UnderWay::under_way_front, ptpm_manager::specs::Image::image_head))]
fn front_of(size: u32, port: u16, count: u16) -> [u8; FRONT_OCTETS]
    ensures { result ≡ under_way_front size port count }
{
    let [first, second, third, fourth] = size.to_be_bytes();
    let [port_high, port_low] = port.to_be_bytes();
    let [count_high, count_low] = count.to_be_bytes();
    [
        b'p', b't', b'p', b'm', 3, 1, 0, 0, first, second, third, fourth, port_high, port_low,
        count_high, count_low,
    ]
}

/// Whether an image says that it has what is under way.
#[tactic(auto, unfolding(crate::specs::UnderWay::has_under_way))]
fn has_under_way(image: &[u8]) -> bool
    ensures { result ≡ has_under_way image.now }
{
    image.len() >= HEAD_OCTETS && image[..4] == b"ptpm"[..] && image[4] == 3 && image[5] == 1
}

/// What is under way in an image for a clock with this many ports, and the image of the clock alone.
fn taken_apart(image: &[u8], ports: usize) -> Option<ImageParts<'_>>
    ensures opened { IfSome result (λ o. IsUnderWayImage ports (o.port, o.message.now) o.clock.now image.now) }
    ensures found { (x : Datagram) (clock : List ℕ) → IsUnderWayImage ports x clock image.now
        → IsSomeAnd result (λ o. ((o.port, o.message.now) ≡ x) × (o.clock.now ≡ clock)) }
{
    if image.len() < FRONT_OCTETS {
        return None;
    }
    let port = u16_at(image, HEAD_OCTETS);
    let count = u16_at(image, HEAD_OCTETS + 2);
    let (front, rest) = image.split_at(FRONT_OCTETS);
    let behind = (4 + rest.len()) % 4_294_967_296;
    if !is_front(front, behind as u32, port, count) {
        return None;
    }
    if rest.len() < count as usize {
        return None;
    }
    let (message, clock) = rest.split_at(count as usize);
    if port == 0 {
        return None;
    }
    if ports < port as usize {
        return None;
    }
    if !may_be_under_way(message) {
        return None;
    }
    Some(ImageParts {
        port,
        message,
        clock,
    })
}

/// Why an image is refused, if the image of the clock alone inside it is refused so.
fn inside(refusal: ClockRestoreRefusal) -> ClockRestoreRefusal
    ensures { result ≡ inside refusal }
{
    match refusal {
        ClockRestoreRefusal::Image(
            RestoreError::NotAnImage | RestoreError::OtherVersion | RestoreError::OtherKind,
        ) => ClockRestoreRefusal::Image(RestoreError::Damaged),
        other => other,
    }
}
