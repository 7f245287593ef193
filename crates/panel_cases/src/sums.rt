// A number below 65,521 that nearly every change of a list changes.

fn mixed(sum: u64, w: u16) -> u64 {
    (sum % 65521 * 31 + u64::from(w)) % 65521
}

pub fn of_bytes(bytes: &[u8]) -> u64 {
    bytes.iter().fold(1, |sum, b| mixed(sum, u16::from(*b)))
}

pub fn of_words(words: &[u16]) -> u64 {
    words.iter().fold(1, |sum, w| mixed(sum, *w))
}
