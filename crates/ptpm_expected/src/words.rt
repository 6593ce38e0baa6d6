//! The words of a line.

/// What is before the note that ends a line. A note begins with a `#` that is not in quotes.
pub(crate) fn without_note(line: &str) -> &str {
    let place = unquoted(line, '#').unwrap_or(line.len());
    line.get(..place).unwrap_or(line)
}

/// The first of the choices that a text has, and the rest after `|`, if there are more. A `|` in quotes divides nothing.
pub(crate) fn first_choice(text: &str) -> (&str, Option<&str>) {
    let Some(place) = unquoted(text, '|') else {
        return (text.trim(), None);
    };
    let first = text.get(..place).unwrap_or("");
    let rest = text.get(place..).unwrap_or("");
    let rest = rest.strip_prefix('|').unwrap_or(rest);
    (first.trim(), Some(rest))
}

/// The first word of a text, and what is after it.
pub(crate) fn first_word(text: &str) -> (&str, &str) {
    let text = text.trim_start();
    let first = text.split_whitespace().next().unwrap_or("");
    let rest = text.strip_prefix(first).unwrap_or("");
    (first, rest.trim())
}

/// The place of a character that is in no quotes. In quotes a `\` takes its meaning from the character after it.
fn unquoted(text: &str, wanted: char) -> Option<usize> {
    let mut is_quoted = false;
    let mut is_escaped = false;
    for (place, character) in text.char_indices() {
        if !is_quoted && character == wanted {
            return Some(place);
        }
        if is_escaped {
            is_escaped = false;
        } else if character == '"' {
            is_quoted = !is_quoted;
        } else if is_quoted && character == '\\' {
            is_escaped = true;
        }
    }
    None
}
