//! The words of a line.

ghost use Rattle.std.specs.Prelude.{◌≡◌, ◌==◌, ◌∷◌, [], None, Some, MatchOption, option_map, drop, not, position, slice_get};
ghost use Rattle.ptpm_text.specs.Words.{space, words, one_word, two_words, three_words, first_words};

/// The first word of a text and what follows it; `None` if it has no words.
pub fn split_word<'a>(text: &'a str) -> Option<(&'a str, &'a str)>
    ensures { MatchOption result (words text.now ≡ [])
        (λ r. words text.now ≡ r.0.now ∷ words r.1.now) }
{
    let start = word_start(text)?;
    let text = &text[start..];
    match word_size(text) {
        Some(size) => Some(text.split_at(size)),
        None => Some((text, "")),
    }
}

/// The place of the first octet that is no space.
fn word_start(text: &str) -> Option<usize>
    ensures { result ≡ position (λ octet. not (octet == space)) text.now }
{
    text.as_bytes().iter().position(|octet| *octet != b' ')
}

/// The place of the first space.
fn word_size(text: &str) -> Option<usize>
    ensures { result ≡ position (λ octet. octet == space) text.now }
{
    text.as_bytes().iter().position(|octet| *octet == b' ')
}

/// The word of a text at a place, from 0.
pub fn word_at(text: &str, place: usize) -> Option<&str>
    ensures { option_map (λ word. word.now) result ≡ slice_get (words text.now) place }
{
    let (first, rest) = split_word(text)?;
    if place == 0 {
        return Some(first);
    }
    word_at(rest, place - 1)
}

/// The word of a text that has one and no more.
pub fn one_word(text: &str) -> Option<&str>
    ensures { option_map (λ a. a.now) result ≡ one_word (words text.now) }
{
    let (first, rest) = split_word(text)?;
    match split_word(rest) {
        None => Some(first),
        Some(_) => None,
    }
}

/// The words of a text that has two and no more.
pub fn two_words(text: &str) -> Option<(&str, &str)>
    ensures { option_map (λ w. (w.0.now, w.1.now)) result ≡ two_words (words text.now) }
{
    let (first, rest) = split_word(text)?;
    let second = one_word(rest)?;
    Some((first, second))
}

/// The words of a text that has three and no more.
pub fn three_words(text: &str) -> Option<(&str, &str, &str)>
    ensures { option_map (λ w. (w.0.now, w.1.now, w.2.now)) result ≡ three_words (words text.now) }
{
    let (first, rest) = split_word(text)?;
    let (second, third) = two_words(rest)?;
    Some((first, second, third))
}

/// The first two words of a text that has two or more, and what follows them.
pub fn split_two_words(text: &str) -> Option<(&str, &str, &str)>
    ensures words { option_map (λ w. (w.0.now, w.1.now)) result ≡ first_words (words text.now) }
    ensures rest { MatchOption result (first_words (words text.now) ≡ None)
        (λ w. words w.2.now ≡ drop 2 (words text.now)) }
{
    let (first, rest) = split_word(text)?;
    let (second, rest) = split_word(rest)?;
    Some((first, second, rest))
}
