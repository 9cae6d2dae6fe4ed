// What answers say.

/// What the number says.
pub(crate) fn text_of(number: u32) -> &'static str {
    match number {
        0 => "done",
        1 => "out of memory",
        2 => "an argument is out of its range",
        3 => "the handle has no index",
        4 => "the row is in use",
        5 => "the index is full",
        6 => "the clock is at its end",
        7 => "the row is not live",
        8 => "the index is of another class",
        9 => "the buffer is too short",
        10 => "the bytes are no image of an index of this class",
        11 => "a pointer is null",
        _ => "no such number",
    }
}
