//! Words as a host in C hands them in: a zero octet after each.

ghost use Rattle.std.specs.Prelude.{◌≡◌, ◌≤◌, ℕ, List, IfSome, IsSomeAnd, length, map, position};
ghost use Rattle.ptpm_host.specs.Words.{AreWords, BeginsWith, is_zero, most_words};

use arrayvec::ArrayVec;
use std::str;

/// A name and a value for each of ten members, the most that a dataField has.
pub(crate) const MOST_WORDS: usize = 20;

/// The words that octets are. `None` if they are no words, or more than a dataField takes. Takes no
/// memory.
pub(crate) fn words(octets: &[u8]) -> Option<ArrayVec<&str, MOST_WORDS>>
    ensures words { IfSome result (λ words. AreWords (map (λ w. w.now) words.items) octets.now) }
    ensures only { (words : List (List ℕ))
        → AreWords words octets.now
        → length words ≤ most_words
        → IsSomeAnd result (λ found. map (λ w. w.now) found.items ≡ words) }
{
    let mut words = ArrayVec::new();
    let mut rest = octets;
    while !rest.is_empty() {
        let Some((word, more)) = first_word(rest) else {
            return None;
        };
        if words.is_full() {
            return None;
        }
        words.push(word);
        rest = more;
    }
    Some(words)
}

/// The first word of octets, and what comes after its zero octet.
fn first_word(octets: &[u8]) -> Option<(&str, &[u8])>
    ensures found { IfSome result (λ r. BeginsWith r.0.now r.1.now octets.now) }
    ensures only { (word more : List ℕ)
        → BeginsWith word more octets.now
        → IsSomeAnd result (λ r. (r.0.now ≡ word) × (r.1.now ≡ more)) }
{
    let end = zero(octets)?;
    match str::from_utf8(&octets[..end]) {
        Ok(word) => Some((word, &octets[end + 1..])),
        Err(_) => None,
    }
}

/// The place of the first zero octet.
fn zero(octets: &[u8]) -> Option<usize>
    ensures { result ≡ position is_zero octets.now }
{
    octets.iter().position(|octet| *octet == 0)
}
