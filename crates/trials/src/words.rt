// Words and numbers in a text of any bytes.
ghost use Rattle.std.specs.Prelude.{◌<◌, ◌≤◌, length};
ghost use Rattle.std.specs.Iterator.{at_most};

// What follows the first byte `b`: nothing if there is none.
pub fn behind(text: &[u8], b: u8) -> &[u8]
    ensures within { length result.now ≤ length text.now }
    ensures fewer { 0 < length text.now → length result.now < length text.now }
{
    match text.iter().position(|byte| *byte == b) {
        Some(place) => &text[place + 1..],
        None => &text[text.len()..],
    }
}

// The bytes to before the first that is a space or below.
pub fn first_word(text: &[u8]) -> &[u8] {
    match text.iter().position(|byte| *byte <= b' ') {
        Some(end) => &text[..end],
        None => text,
    }
}

// What is left of a line, from each of its words on. A single space parts them.
#[derive(Drop)]
pub struct Words<'a>(pub &'a [u8]);

impl<'a> Iterator for Words<'a> {
    type Item = &'a [u8];

    ghost remaining = { λ words. at_most (length words.0.now) };

    fn next(&mut self) -> Option<&'a [u8]> {
        let text = self.0;
        if text.is_empty() {
            return None;
        }
        self.0 = behind(text, b' ');
        Some(text)
    }
}

// The line from its first word on that begins with `name`, or nothing.
pub fn named<'a>(line: &'a [u8], name: &[u8]) -> &'a [u8] {
    Words(line)
        .find(|text| text.starts_with(name))
        .unwrap_or(&[])
}

// The number in decimal that the text begins with, to its first byte that is no digit; 0 where there is none. A digit more than twelve
// pushes the highest out.
pub fn number(text: &[u8]) -> usize
    ensures { result < 10000000000000 }
{
    let mut number = 0;
    for byte in text {
        if !byte.is_ascii_digit() {
            break;
        }
        number = number % 1000000000000 * 10 + usize::from(*byte - b'0');
    }
    number
}
