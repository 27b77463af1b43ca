// The edits of a line: what is changed in a case's buffers before the call.
ghost use Rattle.std.specs.Prelude.{◌≤◌};
ghost use Rattle.rules.specs.Sizes.{record_size};

use crate::buffers::{Buffer, Buffers};
use crate::words::{Words, behind, number};
use rules::layout::{EVENT_SIZE, RECORD_SIZE, ROW_SIZE};

// BUFFER#LENGTH or BUFFER:PLACE=BYTE.
#[derive(Clone, Copy)]
enum Edit {
    Length(Buffer, usize),
    Byte(Buffer, usize, u8),
}

// The length of a record of a buffer, 1 for a buffer that has none.
fn record_size(buffer: Buffer) -> usize
    ensures { result ≤ record_size }
{
    match buffer {
        Buffer::Image | Buffer::First | Buffer::Second => RECORD_SIZE,
        Buffer::Events => EVENT_SIZE,
        Buffer::Table => ROW_SIZE,
        _ => 1,
    }
}

// A place in a buffer: BYTE, or RECORD/BYTE for a byte of a record.
fn place(buffer: Buffer, text: &[u8]) -> usize {
    let byte = behind(text, b'/');
    if byte.is_empty() {
        number(text)
    } else {
        number(text) * record_size(buffer) + number(byte)
    }
}

// The first bytes of `text`, to where `rest` of it begins.
fn before<'a>(text: &'a [u8], rest: &[u8]) -> &'a [u8] {
    text.get(..text.len().saturating_sub(rest.len()))
        .unwrap_or(&[])
}

impl Edit {
    // The edit that a line has from `text` on. Its word has the sign, the BYTE can be behind a later `=`.
    fn at(text: &[u8]) -> Option<Self> {
        let buffer = Buffer::named(text)?;
        let word = before(text, behind(text, b' '));
        let length = behind(word, b'#');
        if !length.is_empty() {
            return Some(Edit::Length(buffer, number(length)));
        }
        if behind(word, b':').is_empty() {
            return None;
        }
        let change = behind(text, b':');
        let value = behind(change, b'=');
        let place = place(buffer, before(change, value));
        Some(Edit::Byte(buffer, place, (number(value) % 256) as u8))
    }
}

impl Buffers {
    // Carries out the edits of a line, in order: its words from the third to `=>`.
    pub fn edit(&mut self, line: &[u8]) {
        let words = Words(line)
            .skip(2)
            .take_while(|text| !text.starts_with(b"=>"));
        for text in words {
            match Edit::at(text) {
                Some(Edit::Length(buffer, n)) => self.get_mut(buffer).resize(n),
                Some(Edit::Byte(buffer, place, value)) => self.get_mut(buffer).set(place, value),
                None => {}
            }
        }
    }
}
