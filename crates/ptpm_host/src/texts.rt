//! Texts as octets that a host reads.

ghost use Rattle.std.specs.Prelude.{◌≡◌, Option};
ghost use Rattle.ptpm_host.specs.Texts.{HandsOut, IsPut, KeepsText};
ghost use Rattle.ptpm_members.specs.FieldText.{field_text};
ghost use Rattle.ptpm_members.specs.Takes.{takes_text};

use ptpm_members::{FieldText, Takes, TextSink};

/// The octets of the caller that a text goes to, filled from the head on.
#[derive(Drop)]
struct Room<'a> {
    octets: &'a mut [u8],
    /// How many octets the text has so far; `None` once there was no room for a piece of it.
    size: Option<usize>,
}

impl TextSink for Room<'_> {
    ghost use Rattle.std.proofs.Common.{◌∙◌, refl};
    ghost use Rattle.ptpm_host.specs.Texts.{keeps_none, keeps_twice};

    ghost pushed = { λ s text t. KeepsText (s.octets.now, s.size) text (t.octets.now, t.size) × (t.octets.ghost_name ≡ s.octets.ghost_name) };

    ghost pushed_none = { λ s. (keeps_none (s.octets.now, s.size), refl) };

    ghost pushed_twice = { λ r s t a b first second. (keeps_twice (r.octets.now, r.size) (s.octets.now, s.size) (t.octets.now, t.size) a b first.0 second.0, second.1 ∙ first.1) };

    fn push_str(&mut self, text: &str) {
        self.push(text.as_bytes());
    }

    fn push_ascii(&mut self, character: u8) {
        self.push(&[character]);
    }
}

impl Room<'_> {
    fn push(&mut self, text: &[u8])
        ensures kept { KeepsText (self.old.octets.now, self.old.size) text.now (self.new.octets.now, self.new.size) }
        ensures same_reference { self.new.octets.ghost_name ≡ self.old.octets.ghost_name }
    {
        let Some(size) = self.size else {
            return;
        };
        self.size = put(text, self.octets, size);
    }
}

/// Puts a text in octets at a place, and answers the place after it. `None` if there is no room for all of it.
fn put(text: &[u8], octets: &mut [u8], at: usize) -> Option<usize>
    ensures { IsPut text.now octets.old at result octets.new }
{
    if octets.len() < at || octets.len() - at < text.len() {
        return None;
    }
    octets[at..at + text.len()].copy_from_slice(text);
    Some(at + text.len())
}

/// Leaves the lines of a dataField at the head of `octets`, and answers how many octets they have. `None` if there is no room
/// for all lines. What comes after them stays. Takes no memory.
pub fn hand_out_lines(text: &FieldText<'_>, octets: &mut [u8]) -> Option<usize>
    ensures { HandsOut (field_text text.now.lead.now text.now.id text.now.octets.now) result octets.old octets.new }
{
    let mut room = Room {
        octets,
        size: Some(0),
    };
    text.push_into(&mut room);
    room.size
}

/// Leaves in words what a SET takes for a member at the head of `octets`, and answers how many octets they have. `None` if there
/// is no room for all of them. What comes after them stays. Takes no memory.
pub fn hand_out_takes(takes: Takes, octets: &mut [u8]) -> Option<usize>
    ensures { HandsOut (takes_text takes.0) result octets.old octets.new }
{
    let mut room = Room {
        octets,
        size: Some(0),
    };
    takes.push_into(&mut room);
    room.size
}
