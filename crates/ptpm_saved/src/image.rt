//! The image of a clock: the octets in which it survives the loss of power (this project's profile).

ghost use Rattle.std.specs.Prelude.{◌≡◌, ◌≤◌, ◌+◌, ◌*◌, ◌++◌, ◌↔◌, ◌⊎◌, ◌<◌, false, length, drop, IfSome, IfNone, IsSome, IsTrue};
ghost use Rattle.std.specs.FinMap as fin;
ghost use Rattle.arrayvec.specs.ArrayVec.{array_vec_len};
ghost use Rattle.byteorder.specs.Endian.{big_bytes};
ghost use Rattle.ptpm_codec.specs.Canonical.{port_identity_octets};
ghost use Rattle.ptpm_agent.specs.Agent.{state_of};
ghost use Rattle.ptpm_data.specs.Image.{data_sets_octets};
ghost use Rattle.ptpm_manager.specs.Image.{image_head, request_front};
ghost use Rattle.ptpm_codec.specs.Message.{IsDataField};
ghost use Rattle.ptpm_table.specs.Lending.{IsKeepable, lent_answer, lent_outcome};
ghost use Rattle.ptpm_saved.specs.Image.{answer_image, answers_image, clock_image, entries_image, entry_image, outcome_image, port_octets, widest, over};

use arrayvec::ArrayVec;
use ptpm_agent::Agent;
use ptpm_codec::{DATA_FIELD_OCTETS, put, put_u16};
use ptpm_data::{DATA_SETS_OCTETS, DataSets, PORTS, Request, data_sets_law, fits_law};
use ptpm_table::{LendingTable, LentAnswer, LentEntry, LentWhat, MOST_MANAGERS};

/// How many octets an image has before the clock.
pub(crate) const HEAD_OCTETS: usize = 12;

/// How many octets the image of an entry has before the request's dataField.
const FRONT_OCTETS: usize = 19;

/// How many octets the images of a reply's answers have at most: 30 each.
const ANSWERS_OCTETS: usize = 30 * PORTS;

/// How many octets the image of an entry has at most: those before the dataField, the dataField, one that counts the answers, and
/// the answers.
const ENTRY_OCTETS: usize = FRONT_OCTETS + DATA_FIELD_OCTETS + 1 + ANSWERS_OCTETS;

/// How many octets the image of a clock has at most. They are 12 of the head, those of the data sets, one that counts the
/// entries, and an entry of each manager.
pub const CLOCK_OCTETS: usize = HEAD_OCTETS + DATA_SETS_OCTETS + 1 + MOST_MANAGERS * ENTRY_OCTETS;

/// Room for what comes before the dataField.
type Front = ArrayVec<u8, FRONT_OCTETS>;

/// How many octets a clock's image has.
pub fn image_size<T: LendingTable + Drop>(agent: &Agent<T>) -> usize
    ensures size { result ≡ length (clock_image (state_of T.entries agent.now)) }
    ensures small { result ≤ CLOCK_OCTETS }
{
    HEAD_OCTETS + agent.sets().image_size() + 1 + entries_size(agent.table())
}

/// How many octets the images of a table's entries have.
fn entries_size<T: LendingTable>(table: &T) -> usize
    ensures size { result ≡ length (entries_image (fin.entries (T.entries table.now))) }
    ensures small { result ≤ MOST_MANAGERS * ENTRY_OCTETS }
{
    let entries = table.in_order();
    let mut size = 0;
    for index in 0..entries.count() {
        size += entry_size(&entries.entry(index));
    }
    size
}

fn entry_size(entry: &LentEntry<'_>) -> usize
    requires { IsKeepable entry.now.entry }
    ensures size { result ≡ length (entry_image (entry.now.manager, entry.now.entry)) }
    ensures small { result ≤ ENTRY_OCTETS }
{
    let request = entry.request();
    front(entry, &request).len() + field_size(&request) + 1 + answers_size(entry)
}

fn field_size(request: &Request<'_>) -> usize
    ensures { result ≡ length request.now.octets }
{
    request.octets.len()
}

fn answers_size(entry: &LentEntry<'_>) -> usize
    requires { IsKeepable entry.now.entry }
    ensures size { result ≡ length (answers_image entry.now.entry.reply.answers) }
    ensures small { result ≤ ANSWERS_OCTETS }
{
    let mut size = 0;
    for place in 0..entry.answer_count() {
        size += answer_size(&entry.answer(place));
    }
    size
}

#[tactic(auto, unfolding(crate::specs::Image::answer_image))]
fn answer_size(answer: &LentAnswer<'_>) -> usize
    requires { length (outcome_image (lent_outcome answer.now.what)) ≤ 132 }
    ensures { result ≡ length (answer_image (lent_answer answer.now)) }
{
    port_size(answer.port) + outcome_size(&answer.what)
}

fn port_size(port: Option<u16>) -> usize
    ensures size { result ≡ length (port_octets port) }
    ensures small { result ≤ 2 }
{
    match port {
        None => 0,
        Some(_) => 2,
    }
}

fn outcome_size(what: &LentWhat<'_>) -> usize
    requires { length (outcome_image (lent_outcome what.now)) ≤ 132 }
    ensures { result ≡ length (outcome_image (lent_outcome what.now)) }
{
    match what {
        LentWhat::Value(octets) => 2 + octets.len(),
        LentWhat::Done => 1,
        LentWhat::Refused(_) => 3,
    }
}

/// Writes a clock's image over the first octets of a place, and answers how many there are: 104 to `CLOCK_OCTETS`. The other octets
/// stay. `None` if the place has too few octets, and then nothing is written. The entries are gone through once if the place has
/// room for as many entries of any size. Otherwise they are gone through twice, first for their sizes. Takes no memory.
#[tactic(auto, unfolding(crate::specs::Image::over))]
pub fn image_into<T: LendingTable + Drop>(agent: &Agent<T>, place: &mut [u8]) -> Option<usize>
    ensures room { IsSome result
        ↔ (length (clock_image (state_of T.entries agent.now)) ≤ length place.old) }
    ensures size { IfSome result
        (λ size. size ≡ length (clock_image (state_of T.entries agent.now))) }
    ensures octets { IfSome result
        (λ size. place.new ≡ clock_image (state_of T.entries agent.now) ++ drop size place.old) }
    ensures unchanged { IfNone result (place.new ≡ place.old) }
{
    if !has_room(agent, place.len()) {
        return None;
    }
    Some(write_image(agent, place))
}

/// Whether this many octets are room for a clock's image. If they are room for as many entries of any size, no octet of an entry is
/// counted.
fn has_room<T: LendingTable + Drop>(agent: &Agent<T>, room: usize) -> bool
    ensures room { IsTrue result → (widest (state_of T.entries agent.now) ≤ room)
        ⊎ (length (clock_image (state_of T.entries agent.now)) ≤ room) }
    ensures none { result ≡ false
        → room < length (clock_image (state_of T.entries agent.now)) }
{
    if widest(agent) <= room {
        return true;
    }
    image_size(agent) <= room
}

/// How many octets a clock's image would have, if each entry had the most that one can have.
fn widest<T: LendingTable + Drop>(agent: &Agent<T>) -> usize
    ensures { result ≡ widest (state_of T.entries agent.now) }
{
    let sets = agent.sets();
    data_sets_law(sets);
    fits_law(sets);
    HEAD_OCTETS + sets.image_size() + 1 + agent.table().entry_count() * ENTRY_OCTETS
}

/// Writes the image over the first octets of a place, and answers how many there are. The head comes last, since it says how many
/// follow it.
fn write_image<T: LendingTable + Drop>(agent: &Agent<T>, place: &mut [u8]) -> usize
    requires { (widest (state_of T.entries agent.now) ≤ length place.old)
        ⊎ (length (clock_image (state_of T.entries agent.now)) ≤ length place.old) }
    ensures size { result ≡ length (clock_image (state_of T.entries agent.now)) }
    ensures room { result ≤ length place.old }
    ensures place { place.new ≡ over 0 (clock_image (state_of T.entries agent.now)) place.old }
{
    let sets = agent.sets();
    data_sets_law(sets);
    fits_law(sets);
    let table = agent.table();
    let end = write_sets(place, HEAD_OCTETS, sets);
    let end = write(place, end, &[table.entry_count() as u8]);
    let end = write_entries(place, end, table);
    write(place, 0, &head(end - HEAD_OCTETS));
    end
}

/// Writes octets over those of a place, from the one at `at` on, and answers where they end.
#[tactic(auto, unfolding(crate::specs::Image::over))]
#[inline(always)]
fn write(place: &mut [u8], at: usize, octets: &[u8]) -> usize
    requires { at + length octets.now ≤ length place.old }
    ensures place { place.new ≡ over at octets.now place.old }
    ensures end { result ≡ at + length octets.now }
{
    let end = at + octets.len();
    place[at..end].copy_from_slice(octets);
    end
}

#[tactic(auto, unfolding(crate::specs::Image::over), using(crate::proofs::WrittenLemmas::drop_twice))]
fn write_sets(place: &mut [u8], at: usize, sets: &DataSets) -> usize
    requires { at + length (data_sets_octets sets.now) ≤ length place.old }
    ensures place { place.new ≡ over at (data_sets_octets sets.now) place.old }
    ensures end { result ≡ at + length (data_sets_octets sets.now) }
{
    let Some(size) = sets.image_into(&mut place[at..]) else {
        unreachable!()
    };
    at + size
}

fn write_entries<T: LendingTable>(place: &mut [u8], at: usize, table: &T) -> usize
    requires { (at + length (fin.entries (T.entries table.now)) * ENTRY_OCTETS ≤ length place.old)
        ⊎ (at + length (entries_image (fin.entries (T.entries table.now))) ≤ length place.old) }
    ensures place { place.new
        ≡ over at (entries_image (fin.entries (T.entries table.now))) place.old }
    ensures end { result ≡ at + length (entries_image (fin.entries (T.entries table.now))) }
    ensures small { result ≤ at + length (fin.entries (T.entries table.now)) * ENTRY_OCTETS }
    ensures count { length (fin.entries (T.entries table.now)) ≤ MOST_MANAGERS }
{
    let entries = table.in_order();
    let mut end = at;
    for index in 0..entries.count() {
        end = write_entry(place, end, &entries.entry(index));
    }
    end
}

fn write_entry(place: &mut [u8], at: usize, entry: &LentEntry<'_>) -> usize
    requires keepable { IsKeepable entry.now.entry }
    requires room { at + length (entry_image (entry.now.manager, entry.now.entry))
        ≤ length place.old }
    ensures place { place.new
        ≡ over at (entry_image (entry.now.manager, entry.now.entry)) place.old }
    ensures end { result ≡ at + length (entry_image (entry.now.manager, entry.now.entry)) }
{
    let request = entry.request();
    let first = write(place, at, front(entry, &request).as_slice());
    let second = write_field(place, first, &request);
    let third = write(place, second, &[entry.answer_count() as u8]);
    write_answers(place, third, entry)
}

/// What comes before the dataField of an entry's request.
#[tactic(auto, unfolding(ptpm_codec::specs::Canonical::port_identity_octets))]
#[inline(always)]
fn front(entry: &LentEntry<'_>, request: &Request<'_>) -> Front
    requires { IsDataField request.now.octets }
    ensures items { result.items
        ≡ port_identity_octets entry.now.manager ++ big_bytes 2 entry.now.entry.number
        ++ request_front request.now }
    ensures len { array_vec_len result ≡ FRONT_OCTETS }
{
    let mut front = ArrayVec::new();
    let manager = entry.manager();
    put(&mut front, &manager.clock.0);
    put_u16(&mut front, manager.port);
    put_u16(&mut front, entry.number());
    put(&mut front, &[request.action.code()]);
    put_u16(&mut front, request.id);
    put_u16(&mut front, request.port);
    put_u16(&mut front, request.octets.len() as u16);
    front
}

fn write_field(place: &mut [u8], at: usize, request: &Request<'_>) -> usize
    requires { at + length request.now.octets ≤ length place.old }
    ensures place { place.new ≡ over at request.now.octets place.old }
    ensures end { result ≡ at + length request.now.octets }
{
    write(place, at, request.octets)
}

fn write_answers(place: &mut [u8], at: usize, entry: &LentEntry<'_>) -> usize
    requires keepable { IsKeepable entry.now.entry }
    requires room { at + length (answers_image entry.now.entry.reply.answers) ≤ length place.old }
    ensures place { place.new ≡ over at (answers_image entry.now.entry.reply.answers) place.old }
    ensures end { result ≡ at + length (answers_image entry.now.entry.reply.answers) }
{
    let mut answers = entry.answers();
    let mut end = at;
    while let Some(answer) = answers.next() {
        end = write_answer(place, end, &answer);
    }
    end
}

#[tactic(auto, unfolding(crate::specs::Image::answer_image))]
fn write_answer(place: &mut [u8], at: usize, answer: &LentAnswer<'_>) -> usize
    requires room { at + length (answer_image (lent_answer answer.now)) ≤ length place.old }
    requires small { length (outcome_image (lent_outcome answer.now.what)) ≤ 132 }
    ensures place { place.new ≡ over at (answer_image (lent_answer answer.now)) place.old }
    ensures end { result ≡ at + length (answer_image (lent_answer answer.now)) }
{
    let end = write_port(place, at, answer.port);
    write_what(place, end, &answer.what)
}

#[tactic(auto, using(crate::proofs::WrittenLemmas::over_none))]
fn write_port(place: &mut [u8], at: usize, port: Option<u16>) -> usize
    requires { at + length (port_octets port) ≤ length place.old }
    ensures place { place.new ≡ over at (port_octets port) place.old }
    ensures end { result ≡ at + length (port_octets port) }
{
    match port {
        None => at,
        Some(port) => write(place, at, &port.to_be_bytes()),
    }
}

#[tactic(auto, using(crate::proofs::WrittenLemmas::over_on))]
fn write_what(place: &mut [u8], at: usize, what: &LentWhat<'_>) -> usize
    requires room { at + length (outcome_image (lent_outcome what.now)) ≤ length place.old }
    requires small { length (outcome_image (lent_outcome what.now)) ≤ 132 }
    ensures place { place.new ≡ over at (outcome_image (lent_outcome what.now)) place.old }
    ensures end { result ≡ at + length (outcome_image (lent_outcome what.now)) }
{
    match what {
        LentWhat::Value(octets) => {
            let end = write(place, at, &[0, octets.len() as u8]);
            write_value(place, end, octets)
        }
        LentWhat::Done => write(place, at, &[1]),
        LentWhat::Refused(error) => {
            let [high, low] = error.number().to_be_bytes();
            write(place, at, &[2, high, low])
        }
    }
}

/// What `write` does, for a value. The data sets of eight ports have 26 octets each: of such a copy LLVM makes a few moves.
#[inline(always)]
fn write_value(place: &mut [u8], at: usize, octets: &[u8]) -> usize
    requires { at + length octets.now ≤ length place.old }
    ensures place { place.new ≡ over at octets.now place.old }
    ensures end { result ≡ at + length octets.now }
{
    match octets.as_array::<26>() {
        Some(octets) => write(place, at, octets),
        None => write(place, at, octets),
    }
}

/// The head of the image of a clock, for this many octets after it.
#[tactic(auto, unfolding(ptpm_manager::specs::Image::image_head))]
pub(crate) fn head(size: usize) -> [u8; HEAD_OCTETS]
    requires { size ≤ 4294967295 }
    ensures { result ≡ image_head 1 size }
{
    let [a, b, c, d] = (size as u32).to_be_bytes();
    [b'p', b't', b'p', b'm', 1, 1, 0, 0, a, b, c, d]
}
