//! Parts of texts, by their lines.

/// The first lines of a text.
pub(crate) fn first_lines(text: &[u8], count: usize) -> &[u8] {
    let mut left = count;
    for (at, byte) in text.iter().enumerate() {
        if left == 0 {
            return &text[..at];
        }
        if *byte == b'\n' {
            left -= 1;
        }
    }
    text
}

pub(crate) fn count_lines(text: &[u8]) -> usize {
    text.iter().filter(|byte| **byte == b'\n').count()
}

/// The whole lines at the beginning of a text.
pub(crate) fn whole_lines(text: &[u8]) -> &[u8] {
    match text.iter().rposition(|byte| *byte == b'\n') {
        Some(at) => &text[..=at],
        None => &[],
    }
}

/// What was given of a text, where this is left.
pub(crate) fn given<'a>(text: &'a [u8], left: &[u8]) -> &'a [u8] {
    let count = text.len().saturating_sub(left.len());
    &text[..count.min(text.len())]
}
