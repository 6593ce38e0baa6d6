//! Restores a clock from its image (this project's profile).

ghost use Rattle.std.specs.Prelude.{◌≡◌, ◌≤◌, ◌%◌, ◌↔◌, IfErr, IfOk, IfSome, IsSomeAnd, IsTrue, List, MatchResult, None, OnOk, Some, true, if◌then◌else◌, length, map, max};
ghost use Rattle.std.specs.FinMap as fin;
ghost use Rattle.std.specs.List.{All};
ghost use Rattle.std.specs.Ordering.{is_lt};
ghost use Rattle.ptpm_agent.specs.Agent.{state_of};
ghost use Rattle.ptpm_agent.specs.Turn.{State};
ghost use Rattle.ptpm_codec.specs.declared.identity.PortIdentity.{PortIdentity};
ghost use Rattle.ptpm_codec.specs.Identity.{identity_cmp};
ghost use Rattle.ptpm_data.specs.Image.{DataSetsFit};
ghost use Rattle.ptpm_data.specs.Members.{DataSetsValue, IsConsistent};
ghost use Rattle.ptpm_data.specs.Reply.{answer_of};
ghost use Rattle.ptpm_table.specs.Entries.{Entry, is_known};
ghost use Rattle.ptpm_table.specs.Lending.{IsAfter, IsKeepable};
ghost use Rattle.ptpm_manager.specs.Image.{image_head};
ghost use Rattle.ptpm_saved.specs.Image.{AreEntries, IsSaved, SavedClock, answers_kept, clock_image, entries_image, saved_of};
ghost use Rattle.ptpm_saved.specs.Restoring.{IsBegun, IsImageOf, IsOpened, IsRefused, IsRefusedByHead, IsRestored, IsWhyNot, OpensAs, head_refusal, kept_by};
ghost use Rattle.ptpm_saved.specs.EntryReading.{entry_read};

use crate::answer_room::AnswerRoom;
use crate::entry_reading::{SavedRequest, read_entry};
use crate::error::{RestoreError, RestoreFault};
use crate::image::{HEAD_OCTETS, head};
use ptpm_agent::Agent;
use ptpm_codec::{ClockIdentity, OutOfMemory, PortIdentity};
use ptpm_data::{DataSets, INLINE_PORTS, PortAnswer, image_end};
use ptpm_table::{MOST_MANAGERS, SureTable};
use std::alloc::Global;
use std::cmp::Ordering;

/// The entries of an image, before they are read.
#[derive(Drop)]
struct SavedEntries<'a> {
    /// How many there are.
    count: u8,
    octets: &'a [u8],
}

/// The clock of an image, over a table without entries. The image has to be of the table's clock, with this many ports. Also
/// answers how many entries were let go, since their managers are not among those of the table. An image is refused for the
/// first reason that holds. Takes memory for a clock of more than `INLINE_PORTS` ports alone.
pub fn restored<T: SureTable + Drop>(
    alloc: Global,
    image: &[u8],
    ports: u16,
    table: T,
) -> Result<(Agent<T>, u8), RestoreFault>
    requires none { T.entries table ≡ fin.empty }
    requires room { max INLINE_PORTS ports ≤ T.most table }
    ensures restored { IfOk result
        (λ r. (c : SavedClock) × IsImageOf c image.now × (r.0.sets ≡ c.sets)
        × IsRestored (T.owner table).managers c.entries fin.empty (T.entries r.0.table) r.1) }
    ensures owner { IfOk result (λ r. T.owner r.0.table ≡ T.owner table) }
    ensures refused { IfErr result (λ e. IsWhyNot (T.owner table).identity ports image.now e) }
    ensures found { (c : SavedClock) → IsImageOf c image.now
        → c.sets.default.identity ≡ (T.owner table).identity → length c.sets.ports ≡ ports
        → MatchResult result (λ r. (r.0.sets ≡ c.sets)
        × IsRestored (T.owner table).managers c.entries fin.empty (T.entries r.0.table) r.1)
        (λ e. e ≡ RestoreFault.OutOfMemory) }

    // The image of a clock whose managers are all known to the table restores this clock, and lets none of them go.
    ensures back { (s : State) → IsSaved (saved_of s) → image.now ≡ clock_image s
        → s.sets.default.identity ≡ (T.owner table).identity → length s.sets.ports ≡ ports
        → All (λ e. is_known e.0 (T.owner table).managers ≡ true) (fin.entries s.entries)
        → MatchResult result (λ r. (state_of T.entries r.0 ≡ s) × (r.1 ≡ 0))
        (λ e. e ≡ RestoreFault.OutOfMemory) }
{
    let mut sets = DataSets::blank();
    judge_into(alloc, image, &table.clock(), ports as usize, &mut sets)?;
    let mut agent = Agent::new(sets, table);
    match put_back_judged(alloc, image, &mut agent) {
        Ok(gone) => Ok((agent, gone)),
        Err(_) => Err(RestoreFault::OutOfMemory),
    }
}

/// Leaves the data sets of an image in `sets`, from which a clock of this identity with this many ports goes on. The whole image is
/// judged, also its entries. None of these is kept, since `put_back_judged` does that. An image is refused for the first reason
/// that holds, and then any data sets may be left there. The stack needs no room for others.
pub fn judge_into(
    alloc: Global,
    image: &[u8],
    identity: &ClockIdentity,
    ports: usize,
    sets: &mut DataSets,
) -> Result<(), RestoreFault>
    ensures judged { OnOk result ((c : SavedClock) × IsImageOf c image.now
        × (sets.new ≡ c.sets) × (sets.new.default.identity ≡ identity.now)
        × (length sets.new.ports ≡ ports)) }
    ensures refused { IfErr result (λ e. IsWhyNot identity.now ports image.now e) }
    ensures found { (c : SavedClock) → IsImageOf c image.now
        → c.sets.default.identity ≡ identity.now → length c.sets.ports ≡ ports
        → MatchResult result (λ _. sets.new ≡ c.sets) (λ e. e ≡ RestoreFault.OutOfMemory) }
{
    if let Err(refusal) = judge_head(image) {
        return Err(RestoreFault::Refused(refusal));
    }
    let Ok(is_image) = read_body(alloc, image, sets) else {
        return Err(RestoreFault::OutOfMemory);
    };
    if !is_image {
        return Err(RestoreFault::Refused(RestoreError::Damaged));
    }
    if sets.identity() != *identity {
        return Err(RestoreFault::Refused(RestoreError::OtherClock));
    }
    if sets.port_count() as usize != ports {
        return Err(RestoreFault::Refused(RestoreError::OtherPorts));
    }
    Ok(())
}

/// Keeps those entries of an image in the agent of its clock whose managers the agent's table knows. Answers how many others were
/// let go. The image was judged before, and its data sets are not read. Data sets and managers stay. If memory is refused, no entry
/// is kept. Never inlined.
#[inline(never)]
pub fn put_back_judged<T: SureTable + Drop>(
    alloc: Global,
    image: &[u8],
    agent: &mut Agent<T>,
) -> Result<u8, OutOfMemory>
    requires judged { (c : SavedClock) × IsImageOf c image.now
        × (length c.sets.ports ≡ length agent.old.sets.ports) }
    requires room { answers_kept agent.old.sets ≤ T.most agent.old.table }
    ensures kept { (c : SavedClock) → IsImageOf c image.now
        → length c.sets.ports ≡ length agent.old.sets.ports
        → IfOk result (λ gone. IsRestored (T.owner agent.old.table).managers c.entries
        (T.entries agent.old.table) (T.entries agent.new.table) gone) }
    ensures sets { agent.new.sets ≡ agent.old.sets }
    ensures owner { T.owner agent.new.table ≡ T.owner agent.old.table }
    ensures most { T.most agent.new.table ≡ T.most agent.old.table }
{
    let Some(entries) = find_entries(image) else {
        unreachable!()
    };
    let mut room = AnswerRoom::new();
    room.fit(alloc, agent.sets().port_count())?;
    Ok(keep_entries(&entries, &mut room, agent))
}

/// Judges what the head says.
#[tactic(auto, unfolding(crate::specs::Restoring::head_refusal))]
fn judge_head(image: &[u8]) -> Result<(), RestoreError>
    ensures refusal { MatchResult result (λ _. head_refusal image.now ≡ None)
        (λ e. IsRefusedByHead image.now e) }
    ensures long { IfOk result (λ _. 12 ≤ length image.now) }
{
    if image.len() < HEAD_OCTETS || image[..4] != b"ptpm"[..] {
        return Err(RestoreError::NotAnImage);
    }
    if image[5] != 1 {
        return Err(RestoreError::OtherVersion);
    }
    if image[4] != 1 {
        return Err(RestoreError::OtherKind);
    }
    Ok(())
}

/// Whether these octets are an image. If so, leaves its data sets in `sets`. It is never inlined, and so are those below that say
/// so. Then the stack has the frame of one of them at a time.
#[inline(never)]
fn read_body(alloc: Global, image: &[u8], sets: &mut DataSets) -> Result<bool, OutOfMemory>
    ensures sound { IfOk result (λ is. IsTrue is
        → (c : SavedClock) × IsImageOf c image.now × (sets.new ≡ c.sets)) }
    ensures found { (c : SavedClock) → IsImageOf c image.now
        → IfOk result (λ is. IsTrue is × (sets.new ≡ c.sets)) }
{
    let Some(entries) = find_entries(image) else {
        return Ok(false);
    };
    let is_begun = read_sets(alloc, image, sets)?;
    if !is_begun {
        return Ok(false);
    }
    let is_whole = are_entries(alloc, &entries, sets.port_count())?;
    Ok(is_whole)
}

/// The entries of an image, which begin after the octets that its data sets take by the numbers in them. `None` if the data sets
/// do not end within the image.
fn find_entries(image: &[u8]) -> Option<SavedEntries<'_>>
    ensures opened { IfSome result (λ o. (d : DataSetsValue) → IsBegun image.now d
        → IsConsistent d → DataSetsFit d → IsOpened image.now d o.count o.octets.now) }
    ensures found { (c : SavedClock) → IsImageOf c image.now
        → IsSomeAnd result (λ o. OpensAs c c.sets o.count o.octets.now) }
{
    if image.len() < HEAD_OCTETS {
        return None;
    }
    let (_, body) = image.split_at(HEAD_OCTETS);
    let end = image_end(body)?;
    let (_, octets) = body.split_at(end);
    let (count, octets) = octets.split_first()?;
    Some(SavedEntries {
        count: *count,
        octets,
    })
}

/// Whether a head and data sets come first. If so, leaves these data sets in `sets`. Never inlined.
#[inline(never)]
fn read_sets(alloc: Global, image: &[u8], sets: &mut DataSets) -> Result<bool, OutOfMemory>
    ensures begun { IfOk result (λ is. IsTrue is → IsBegun image.now sets.new) }
    ensures consistent { IfOk result (λ is. IsTrue is → IsConsistent sets.new) }
    ensures fits { IfOk result (λ is. IsTrue is → DataSetsFit sets.new) }
    ensures found { (c : SavedClock) → IsImageOf c image.now
        → IfOk result (λ is. IsTrue is × (sets.new ≡ c.sets)) }
{
    if image.len() < HEAD_OCTETS {
        return Ok(false);
    }
    let (front, body) = image.split_at(HEAD_OCTETS);
    if !is_head(front, body.len()) {
        return Ok(false);
    }
    let is_first = sets.restore(alloc, body)?;
    Ok(is_first)
}

/// Whether this is the head of an image with this many octets after it.
fn is_head(front: &[u8], size: usize) -> bool
    ensures { IsTrue result ↔ front.now ≡ image_head 1 (size % 4294967296) }
{
    front == head(size % 4_294_967_296).as_slice()
}

/// Whether these are the entries of the image of a clock of this many ports. Never inlined: so the stack has the answers of an
/// entry only for this call.
#[inline(never)]
fn are_entries(alloc: Global, entries: &SavedEntries<'_>, ports: u16) -> Result<bool, OutOfMemory>
    ensures sound { IfOk result (λ are. IsTrue are
        → (es : List (PortIdentity × Entry)) × AreEntries (max INLINE_PORTS ports) es
        × (length es ≡ entries.now.count) × (entries.now.octets.now ≡ entries_image es)) }
    ensures found { (es : List (PortIdentity × Entry)) → AreEntries (max INLINE_PORTS ports) es
        → length es ≡ entries.now.count → entries.now.octets.now ≡ entries_image es
        → IfOk result (λ are. IsTrue are) }
{
    let mut room = AnswerRoom::new();
    room.fit(alloc, ports)?;
    Ok(judge_entries(entries, &mut room))
}

/// Whether there are this many entries in the order of their managers, and nothing else. They are read, and none is kept. Never
/// inlined.
#[inline(never)]
fn judge_entries(entries: &SavedEntries<'_>, room: &mut AnswerRoom) -> bool
    ensures sound { IsTrue result
        → (es : List (PortIdentity × Entry)) × AreEntries room.old.most es
        × (length es ≡ entries.now.count) × (entries.now.octets.now ≡ entries_image es) }
    ensures found { (es : List (PortIdentity × Entry)) → AreEntries room.old.most es
        → length es ≡ entries.now.count → entries.now.octets.now ≡ entries_image es
        → IsTrue result }
{
    let count = entries.count;
    if MOST_MANAGERS < count as usize {
        return false;
    }
    let mut octets = entries.octets;
    let mut after = None;
    for _place in 0..count {
        let Some((entry, rest)) = read_entry(octets, room) else {
            return false;
        };
        if !comes_after(&entry.manager, after) {
            return false;
        }
        after = Some(entry.manager);
        octets = rest;
    }
    octets.is_empty()
}

/// Keeps the entries whose managers the agent's table knows. Answers how many others there are. Never inlined.
#[inline(never)]
fn keep_entries<T: SureTable + Drop>(
    entries: &SavedEntries<'_>,
    room: &mut AnswerRoom,
    agent: &mut Agent<T>,
) -> u8
    requires entries { (es : List (PortIdentity × Entry)) × AreEntries room.old.most es
        × (length es ≡ entries.now.count) × (entries.now.octets.now ≡ entries_image es) }
    requires room { room.old.most ≤ T.most agent.old.table }
    ensures kept { (es : List (PortIdentity × Entry)) → AreEntries room.old.most es
        → length es ≡ entries.now.count → entries.now.octets.now ≡ entries_image es
        → IsRestored (T.owner agent.old.table).managers es (T.entries agent.old.table)
        (T.entries agent.new.table) result }
    ensures sets { agent.new.sets ≡ agent.old.sets }
    ensures owner { T.owner agent.new.table ≡ T.owner agent.old.table }
    ensures most { T.most agent.new.table ≡ T.most agent.old.table }
{
    let mut octets = entries.octets;
    let mut gone = 0;
    for _place in 0..entries.count {
        let Some((entry, rest)) = read_entry(octets, room) else {
            unreachable!()
        };
        let lost = keep(agent, &entry, room.as_slice());
        gone += lost;
        octets = rest;
    }
    gone
}

/// Keeps an entry with these answers if the agent's table knows its manager. Answers how many are let go: none or one.
fn keep<T: SureTable + Drop>(
    agent: &mut Agent<T>,
    entry: &SavedRequest<'_>,
    answers: &[PortAnswer],
) -> u8
    requires keepable { IsKeepable (entry_read entry.now (map answer_of answers.now)).1 }
    requires room { length answers.now ≤ T.most agent.old.table }
    ensures entries { T.entries agent.new.table
        ≡ kept_by (is_known entry.now.manager (T.owner agent.old.table).managers)
        (T.entries agent.old.table) (entry_read entry.now (map answer_of answers.now)) }
    ensures gone { result
        ≡ (if is_known entry.now.manager (T.owner agent.old.table).managers then 0 else 1) }
    ensures sets { agent.new.sets ≡ agent.old.sets }
    ensures owner { T.owner agent.new.table ≡ T.owner agent.old.table }
    ensures most { T.most agent.new.table ≡ T.most agent.old.table }
{
    if agent.table().knows(&entry.manager) {
        agent.keep_again(&entry.manager, entry.number, &entry.request, answers);
        0
    } else {
        1
    }
}

/// Whether a manager comes after another one. After `None` any manager does.
fn comes_after(who: &PortIdentity, other: Option<PortIdentity>) -> bool
    ensures { IsTrue result ↔ IsAfter other who.now }
{
    match other {
        None => true,
        Some(other) => is_before(&other, who),
    }
}

fn is_before(who: &PortIdentity, other: &PortIdentity) -> bool
    ensures { result ≡ is_lt (identity_cmp who.now other.now) }
{
    who.cmp(other) == Ordering::Less
}
