// What stands in a text.
use std::alloc::{AllocError, Global};

// How often these bytes stand in the text.
pub(crate) fn count_of(text: &[u8], part: &str) -> usize {
    let part = part.as_bytes();
    let mut found = 0usize;
    for start in 0..text.len() {
        if text[start..].starts_with(part) {
            found = found.wrapping_add(1);
        }
    }
    found
}

// Each of these parts stands once in the text.
pub(crate) fn has_once(text: &[u8], parts: &[&str]) -> bool {
    parts.iter().all(|part| count_of(text, part) == 1)
}

// The text has this record.
pub(crate) fn has_record(text: &[u8], record: &str) -> bool {
    text.split(|byte| *byte == b'\n')
        .any(|line| line == record.as_bytes())
}

// The text has each of these pieces once, among so many: its weight, and its gives.
pub(crate) fn has_pieces(
    alloc: Global,
    text: &[u8],
    count: usize,
    pieces: &[&str],
) -> Result<bool, AllocError> {
    for piece in pieces {
        let mut found = 0usize;
        for number in 1..=count {
            let records = format!(in alloc; "\npiece,{number},{piece}")?;
            found = found.wrapping_add(count_of(text, &records));
        }
        if found != 1 {
            return Ok(false);
        }
    }
    Ok(true)
}
