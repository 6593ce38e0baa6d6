//! Names for hosts in C: of managementIds, of what calls answer, of managementErrorIds, and of numbers and identities that a person
//! types. No call here takes a handle or memory.

ghost use Rattle.std.specs.Prelude.{◌≡◌, ◌≢◌, ℕ, IfNone, IfSome, Some, drop, length, option_and_then, take, true};
ghost use Rattle.std.specs.Str.{is_utf8};
ghost use Rattle.ptpm_c.specs.Typed.{IsClockRead, IsPortRead};
ghost use Rattle.ptpm_host.specs.AnswerNames.{answer_name};
ghost use Rattle.ptpm_host.specs.ErrorNames.{error_name};
ghost use Rattle.ptpm_host.specs.Names.{name_within, no_id, no_number, number_named, text_of};
ghost use Rattle.ptpm_members.specs.IdNames.{capitals, id_name, id_of, other_id_at, other_id_name, other_id_named};
ghost use Rattle.ptpm_members.specs.Identities.{clock_identity_of, port_identity_of};

use ptpm_host::{NO_ID, NO_NUMBER, answer_name, error_name, hand_out_name, number_named, text_of};
use ptpm_members::{
    clock_identity_of, id_named, id_of, other_id_at, other_id_name, other_id_named,
    port_identity_of, profile_id_name,
};

/// The managementId that has this name of ASCII letters in either case, such as `PRIORITY1` or `priority1`. 65,536, which is no id,
/// if no id has it.
#[unsafe(no_mangle)]
pub extern "C" fn ptpm_id_named(name: &[u8]) -> u32
    ensures named { result ≢ no_id → id_name result ≡ Some (capitals name.now) }
    ensures found { (id : ℕ) → id_name id ≡ Some (capitals name.now) → result ≡ id }
{
    match id_named(name) {
        Some(id) => u32::from(id),
        None => NO_ID,
    }
}

/// The managementId that a person types: its name in either case, or four hexadecimal digits, also after `0x`. 65,536, which is no
/// id, if it is none.
#[unsafe(no_mangle)]
pub extern "C" fn ptpm_id_parse(text: &[u8]) -> u32
    ensures found { IfSome (id_of text.now) (λ id. result ≡ id) }
    ensures none { IfNone (id_of text.now) (result ≡ no_id) }
{
    match id_of(text) {
        Some(id) => u32::from(id),
        None => NO_ID,
    }
}

/// Leaves the standard's name of a managementId at the head of `octets`, and answers how many octets it has. That is 0 if this
/// profile lacks the id, or there is no room for the whole name. What follows it stays.
#[unsafe(no_mangle)]
pub extern "C" fn ptpm_id_name(id: u16, octets: &mut [u8]) -> usize
    ensures size { result ≡ length (name_within (length octets.old) (id_name id)) }
    ensures name { take result octets.new ≡ name_within (length octets.old) (id_name id) }
    ensures behind { drop result octets.new ≡ drop result octets.old }
{
    hand_out_name(profile_id_name(id), octets)
}

/// The managementId that other clocks have and this profile lacks, and that has this name of ASCII letters in either case. Its
/// dataField is read by its members. 65,536, which is no id, if no such id has it.
#[unsafe(no_mangle)]
pub extern "C" fn ptpm_other_id_named(name: &[u8]) -> u32
    ensures named { result ≢ no_id → other_id_named name.now ≡ Some result }
    ensures found { is_utf8 name.now ≡ true → (id : ℕ) → other_id_named name.now ≡ Some id → result ≡ id }
{
    match other_id_named(name) {
        Some(id) => u32::from(id),
        None => NO_ID,
    }
}

/// Leaves the name of such an id at the head of `octets`, and answers how many octets it has. That is 0 if it is no such id, or
/// there is no room for the whole name. What follows it stays.
#[unsafe(no_mangle)]
pub extern "C" fn ptpm_other_id_name(id: u16, octets: &mut [u8]) -> usize
    ensures size { result ≡ length (name_within (length octets.old) (other_id_name id)) }
    ensures name { take result octets.new ≡ name_within (length octets.old) (other_id_name id) }
    ensures behind { drop result octets.new ≡ drop result octets.old }
{
    hand_out_name(other_id_name(id), octets)
}

/// Such an id at this place of them, which are in ascending order and counted from 0. 65,536, which is no id, past the last.
#[unsafe(no_mangle)]
pub extern "C" fn ptpm_other_id_at(place: usize) -> u32
    ensures found { IfSome (other_id_at place) (λ id. result ≡ id) }
    ensures past { IfNone (other_id_at place) (result ≡ no_id) }
{
    match other_id_at(place) {
        Some(id) => u32::from(id),
        None => NO_ID,
    }
}

/// Leaves the name of the number that a call answered at the head of `octets`, and answers how many octets it has. That is 0 if
/// the number has none, or there is no room for the whole name. What follows it stays.
#[unsafe(no_mangle)]
pub extern "C" fn ptpm_answer_name(number: u32, octets: &mut [u8]) -> usize
    ensures size { result ≡ length (name_within (length octets.old) (answer_name number)) }
    ensures name { take result octets.new ≡ name_within (length octets.old) (answer_name number) }
    ensures behind { drop result octets.new ≡ drop result octets.old }
{
    hand_out_name(answer_name(number), octets)
}

/// Leaves the standard's name of a managementErrorId, such as `WRONG_VALUE`, at the head of `octets` (15.5.4.3, table 109).
/// Answers how many octets it has. That is 0 if the standard names none, or there is no room for the whole name. What follows it
/// stays.
#[unsafe(no_mangle)]
pub extern "C" fn ptpm_error_name(error: u16, octets: &mut [u8]) -> usize
    ensures size { result ≡ length (name_within (length octets.old) (error_name error)) }
    ensures name { take result octets.new ≡ name_within (length octets.old) (error_name error) }
    ensures behind { drop result octets.new ≡ drop result octets.old }
{
    hand_out_name(error_name(error), octets)
}

/// The number of a name of the standard, in either case. The names are those of portStates for 1, of delayMechanisms for 2, and of
/// timeSources for 3. 65,536, which is no such number, if none has it.
#[unsafe(no_mangle)]
pub extern "C" fn ptpm_number_named(names: u32, name: &[u8]) -> u32
    ensures found { IfSome (number_named names name.now) (λ number. result ≡ number) }
    ensures none { IfNone (number_named names name.now) (result ≡ no_number) }
{
    match number_named(names, name) {
        Some(number) => u32::from(number),
        None => NO_NUMBER,
    }
}

/// Leaves the clockIdentity that a person types in `identity`: sixteen hexadecimal digits in either case, also with a dot after the
/// sixth and the tenth. Answers whether the text is one. If not, `identity` stays.
#[unsafe(no_mangle)]
pub extern "C" fn ptpm_identity_parse(text: &[u8], identity: &mut [u8; 8]) -> bool
    ensures { IsClockRead (option_and_then clock_identity_of (text_of text.now)) result identity.old identity.new }
{
    let Some(text) = text_of(text) else {
        return false;
    };
    let Some(clock) = clock_identity_of(text) else {
        return false;
    };
    let octets = clock.0;
    *identity = octets;
    true
}

/// Leaves the portIdentity that a person types in `clock` and `port`: a clockIdentity, a slash or a hyphen, and a decimal number up
/// to 65,535. Answers whether the text is one. If not, both stay.
#[unsafe(no_mangle)]
pub extern "C" fn ptpm_port_identity_parse(text: &[u8], clock: &mut [u8; 8], port: &mut u16) -> bool
    ensures { IsPortRead (option_and_then port_identity_of (text_of text.now)) result (clock.old, port.old) (clock.new, port.new) }
{
    let Some(text) = text_of(text) else {
        return false;
    };
    let Some(identity) = port_identity_of(text) else {
        return false;
    };
    let octets = identity.clock.0;
    *clock = octets;
    *port = identity.port;
    true
}
