//! Marks of clocks, by their places.

ghost use Rattle.std.specs.Prelude.{◌≡◌, false, slice_index_or};

/// Whether the clock at a place is marked. One past the last mark is not.
pub fn is_marked(marks: &[bool], place: usize) -> bool
    ensures { result ≡ slice_index_or marks.now place false }
{
    match marks.get(place) {
        Some(mark) => *mark,
        None => false,
    }
}
