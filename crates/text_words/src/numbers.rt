//! Numbers as `run` prints them: decimal digits without a sign or a leading zero.

/// Reads the number of a section over the whole line.
pub fn section_number(word: &str) -> Option<u16> {
    if is_plain(word) {
        word.parse().ok()
    } else {
        None
    }
}

/// Reads the number of a train, a frame, a fault or a reason.
pub fn number_of(word: &str) -> Option<u32> {
    if is_plain(word) {
        word.parse().ok()
    } else {
        None
    }
}

fn is_plain(word: &str) -> bool {
    word == "0" || !(word.starts_with('+') || word.starts_with('0'))
}
