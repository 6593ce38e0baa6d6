//! Laws of seals and of places, each the contract of a function that changes nothing.

ghost use Rattle.std.specs.Prelude.{◌≡◌, ◌≢◌, ◌≤◌, ◌<◌, ◌⊎◌, ◌^◌, ◌++◌, ◌∷◌, ℕ, IsErr, List, length, true, Ok};
ghost use Rattle.ptpm_seal.specs.declared.sealing.Sealed.{Sealed};
ghost use Rattle.ptpm_seal.specs.Crc.{AreOctets, crc_of};
ghost use Rattle.ptpm_seal.specs.Places.{Held, IsNewest, IsWritten};
ghost use Rattle.ptpm_seal.specs.Sealing.{image_size, is_headed, seal_of, unsealed};

/// An image whose head says its size is found with its seal, whatever comes after them.
pub fn seal_law()
    ensures { (image rest : List ℕ) (count : ℕ) → is_headed image ≡ true → image_size image ≡ length image → count < 2 ^ 64
        → unsealed ((image ++ seal_of image count) ++ rest) ≡ Ok (record { size = length image; count = count }) }
{}

/// A change of one octet changes the CRC-32.
pub fn crc_law()
    ensures { (front rest : List ℕ) (octet other : ℕ) → AreOctets front → AreOctets rest → octet < 2 ^ 8 → other < 2 ^ 8
        → octet ≢ other
        → crc_of (front ++ octet ∷ rest) ≢ crc_of (front ++ other ∷ rest) }
{}

/// An image with its seal is refused if one octet of both is another one. The four octets of its size are left out. A lesser size is
/// refused unless the image has another seal that is whole, after as many octets.
pub fn changed_octet_law()
    ensures { (image front rest : List ℕ) (count octet other : ℕ) → is_headed image ≡ true → image_size image ≡ length image
        → image ++ seal_of image count ≡ front ++ octet ∷ rest → AreOctets (front ++ octet ∷ rest) → other < 2 ^ 8 → octet ≢ other
        → length front < 8 ⊎ 12 ≤ length front
        → IsErr (unsealed (front ++ other ∷ rest)) }
{}

/// A place that does not hold the newest image is written, with one of more saves. However the write is torn, the newest image is
/// then that one, or the one that was it before. This supposes that a torn write leaves the place with the new image or with
/// none: the CRC-32 finds what it leaves.
pub fn torn_writes_keep_one()
    ensures { (before after : Held) (places i w : ℕ) (s saved : Sealed) → IsNewest before places i s → w < places → w ≢ i
        → s.count < saved.count → IsWritten before after w saved
        → IsNewest after places i s ⊎ IsNewest after places w saved }
{}
