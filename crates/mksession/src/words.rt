// The words of a line.

pub fn is_space(b: u8) -> bool {
    matches!(b, b' ' | b',' | b'\t' | b'\r')
}

// The line from its next word on.
pub fn trim(line: &[u8]) -> &[u8] {
    match line.iter().position(|b| !is_space(*b)) {
        Some(start) => &line[start..],
        None => b"",
    }
}

// The word that the line begins with, and the line from the next one on. The word is empty where a space or the end
// stands there.
pub fn take(line: &[u8]) -> (&[u8], &[u8]) {
    let end = line.iter().position(|b| is_space(*b)).unwrap_or(line.len());
    let (word, rest) = line.split_at(end);
    (word, trim(rest))
}

// What stands before the first such byte, and behind it.
pub fn split_once(word: &[u8], b: u8) -> Option<(&[u8], &[u8])> {
    let at = word.iter().position(|x| *x == b)?;
    Some((&word[..at], &word[at + 1..]))
}
