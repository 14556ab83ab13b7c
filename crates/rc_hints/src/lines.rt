//! Words of a line and their columns.

/// The bytes from one place to another.
pub fn between(bytes: &[u8], start: usize, end: usize) -> &[u8] {
    if start <= end && end <= bytes.len() {
        &bytes[start..end]
    } else {
        &[]
    }
}

/// The words from this place on.
pub fn from<'a, 'b>(words: &'b [&'a [u8]], place: usize) -> &'b [&'a [u8]] {
    if place <= words.len() {
        &words[place..]
    } else {
        &[]
    }
}

/// The word at a place, and none after the last.
pub fn word_at<'a>(words: &[&'a [u8]], place: usize) -> &'a [u8] {
    if place < words.len() {
        words[place]
    } else {
        &[]
    }
}

fn is_blank(b: u8) -> bool {
    b == b' ' || b == b'\t' || b == b'\r'
}

/// The column, from 1, at which a word of a line begins; after the last word, the one after its end.
pub fn column_of(line: &[u8], place: usize) -> usize {
    let mut count: usize = 0;
    let mut inside = false;
    let mut end: usize = 1;
    for i in 0..line.len() {
        if line[i] == b'#' {
            return end;
        }
        let is_word = !is_blank(line[i]);
        if is_word && !inside {
            if count == place {
                return i + 1;
            }
            count = count.saturating_add(1);
        }
        if is_word {
            end = (i + 1).saturating_add(1);
        }
        inside = is_word;
    }
    end
}

/// The place of a byte in a word.
pub fn place_of(word: &[u8], byte: u8) -> Option<usize> {
    word.iter().position(|b| *b == byte)
}
