//! Laws of the definitions, each the contract of a function that does nothing.

ghost use Rattle.std.specs.Prelude.{◌≡◌, ◌++◌, ◌↔◌, ◌-◌, ◌<◌, Some, ℕ, ◌+◌, ◌*◌, ◌/◌, ◌%◌, ◌^◌, ◌≤◌, List, length, drop, slice_set};
ghost use Rattle.ptpm_codec.specs.declared.message.Message.{Message};
ghost use Rattle.ptpm_codec.specs.Canonical.{canonical};
ghost use Rattle.ptpm_codec.specs.Layout.{boundary_hops, message_octets, sequence_id, source_port_identity, target_port_identity};
ghost use Rattle.ptpm_codec.specs.Message.{IsValid, Fits};
ghost use Rattle.ptpm_codec.specs.Reading.{IsWellFormed, message_of};
ghost use Rattle.ptpm_codec.specs.Spelling.{Spells};

/// No octets spell two messages.
pub fn one_message()
    ensures { (v w : Message) (m : List ℕ) → Spells v m → Spells w m → v ≡ w }
{}

/// Each datagram is refused or spells a message, and never both.
#[tactic(auto, using(crate::proofs::ReadingLaws::spelled, crate::proofs::ReadingLaws::none_refused))]
pub fn one_or_the_other()
    ensures { (d : List ℕ) → IsWellFormed d ↔ ((v : Message) × Spells v (message_octets d)) }
{}

/// `message_of` gives a value exactly if the first messageLength octets spell it.
pub fn message_of_spelling()
    ensures { (v : Message) (d : List ℕ) → (message_of d ≡ Some v) ↔ Spells v (message_octets d) }
{}

/// The canonical spelling spells its message, whatever octets follow, and is from 54 to 1,472 octets long.
pub fn round_trip()
    ensures spells { (v : Message) (rest : List ℕ)
        → IsValid v
        → Fits v
        → Spells v (message_octets (canonical v ++ rest)) }
    ensures read { (v : Message) (rest : List ℕ)
        → IsValid v
        → Fits v
        → message_of (canonical v ++ rest) ≡ Some v }
    ensures octets { (v : Message) (rest : List ℕ)
        → IsValid v
        → Fits v
        → message_octets (canonical v ++ rest) ≡ canonical v }
    ensures at_least { (v : Message) → IsValid v → Fits v → 54 ≤ length (canonical v) }
    ensures at_most { (v : Message) → IsValid v → Fits v → length (canonical v) ≤ 1472 }
{}

/// What a boundary clock passes on is the message with boundaryHops less by one. In any list, that octet is no part of the
/// two identities, of sequenceId, or of the octets from 46 on.
pub fn forwarded_message()
    ensures message { (v : Message) (d : List ℕ)
        → message_of d ≡ Some v
        → 0 < boundary_hops d
        → message_of (slice_set (message_octets d) 45 (boundary_hops d - 1))
        ≡ Some (record v { hops = v.hops - 1 }) }
    ensures source { (m : List ℕ) (n : ℕ)
        → source_port_identity (slice_set m 45 n) ≡ source_port_identity m }
    ensures target { (m : List ℕ) (n : ℕ)
        → target_port_identity (slice_set m 45 n) ≡ target_port_identity m }
    ensures number { (m : List ℕ) (n : ℕ) → sequence_id (slice_set m 45 n) ≡ sequence_id m }
    ensures behind { (m : List ℕ) (n : ℕ) → drop 46 (slice_set m 45 n) ≡ drop 46 m }
{}

/// Writing domainNumber, the source's portNumber and both hop fields into a canonical spelling gives that of the message
/// so changed.
pub fn rewritten()
    ensures domain { (v : Message) (n : ℕ) → Fits v →
        slice_set (canonical v) 4 n ≡ canonical (record v { domain = n }) }
    ensures port { (v : Message) (high low : ℕ)
        → Fits v
        → high < 256
        → low < 256
        → slice_set (slice_set (canonical v) 28 high) 29 low
        ≡ canonical
        (record v { source = record { clock = v.source.clock; port = high * 256 + low } }) }
    ensures starting_hops { (v : Message) (n : ℕ) → Fits v →
        slice_set (canonical v) 44 n ≡ canonical (record v { starting_hops = n }) }
    ensures hops { (v : Message) (n : ℕ) → Fits v →
        slice_set (canonical v) 45 n ≡ canonical (record v { hops = n }) }
    ensures all { (v : Message) (domain port starting_hops hops : ℕ) → Fits v → port < 2 ^ 16 →
        slice_set (slice_set (slice_set (slice_set (slice_set (canonical v)
        4 domain) 28 (port / 256)) 29 (port % 256)) 44 starting_hops) 45 hops
        ≡ canonical (record v {
          domain = domain;
          source = record { clock = v.source.clock; port = port };
          starting_hops = starting_hops;
          hops = hops;
        }) }
{}
