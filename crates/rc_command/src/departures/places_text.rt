//! Places of a model, in words.

use itoa::Buffer;
use rc_follow::places::{Need, Place, Places};
use rc_log::words::word_at;
use rc_report::source::{Lines, put_line_words};
use rc_text::text::{put_piece, put_pieces};
use std::alloc::{AllocError, Global};

/// How many places are printed at most.
const MOST_PLACES: usize = 3;

/// Adds that the model is at the first three of these places, with what the call of a line of a log would have needed there.
pub fn put_places(
    text: &mut Vec<u8>,
    alloc: Global,
    lines: &Lines<'_>,
    line: &[u8],
    places: &Places,
) -> Result<(), AllocError> {
    put_piece(text, b"the model is at ")?;
    for (index, place) in places.lines.iter().take(MOST_PLACES).enumerate() {
        put_piece(text, before(index))?;
        put_place(text, alloc, lines, line, *place)?;
    }
    let count = places.lines.len();
    if places.ends && count < MOST_PLACES {
        put_pieces(text, &[before(count), b"the end of the thread"])?;
    }
    if !places.ends && count == 0 {
        put_piece(text, b"no call")?;
    }
    Ok(())
}

fn before(index: usize) -> &'static [u8] {
    if index == 0 { b"" } else { b"; or " }
}

/// Adds a place: its line, and what the call would have needed.
fn put_place(
    text: &mut Vec<u8>,
    alloc: Global,
    lines: &Lines<'_>,
    line: &[u8],
    place: Place,
) -> Result<(), AllocError> {
    let mut number = Buffer::new();
    let words = words_of(alloc, lines, place.number)?;
    put_pieces(
        text,
        &[
            b"line ",
            number.format(place.number).as_bytes(),
            b": ",
            &words,
        ],
    )?;
    put_need(text, line, place.need)
}

/// The words of a line of the model, without the brace at its end.
fn words_of(alloc: Global, lines: &Lines<'_>, number: u32) -> Result<Vec<u8>, AllocError> {
    let mut words = Vec::new(alloc);
    put_line_words(&mut words, lines, number)?;
    if words.ends_with(b" {") {
        words.truncate(words.len().saturating_sub(2));
    }
    Ok(words)
}

/// Adds what the call of a line of a log would have needed.
fn put_need(text: &mut Vec<u8>, line: &[u8], need: Need) -> Result<(), AllocError> {
    let (mut first, mut second) = (Buffer::new(), Buffer::new());
    match need {
        Need::OtherCall => Ok(()),
        Need::Queued(count) => {
            put_pieces(
                text,
                &[b", with ", first.format(count).as_bytes(), b" queued"],
            )
        }
        Need::Found(completion) => {
            put_pieces(
                text,
                &[
                    b", with ",
                    first.format(completion.user_data).as_bytes(),
                    b" ",
                    second.format(completion.res).as_bytes(),
                    b" next",
                ],
            )
        }
        Need::Front(user_data) => {
            put_pieces(
                text,
                &[b", with ", first.format(user_data).as_bytes(), b" next"],
            )
        }
        Need::NotOut => put_pieces(text, &[b", where ", word_at(line, 3), b" isn't out"]),
        Need::OtherResult => {
            put_pieces(
                text,
                &[
                    b", where ",
                    word_at(line, 3),
                    b" can't have the result ",
                    word_at(line, 4),
                ],
            )
        }
        Need::NotThere => put_piece(text, b", which isn't all there"),
    }
}
