// The records of an image.
ghost use Rattle.std.specs.Prelude.{◌≡◌, ◌*◌, ◌<◌, ◌≤◌, MatchOption, length};
ghost use Rattle.rules.specs.Sizes.{record_size};
ghost use Rattle.rules.specs.Sorts.{block};
ghost use Rattle.rules.specs.Image.{labels, record_at, block_field, entry};

use rules::layout::{BLOCK_PLACE, ENTRY_PLACE, RECORD_SIZE};
use rules::limits::Image;
use rules::sorts::{Block, Label, label_number};

// How many records an image has: none where its length is bad.
pub fn count_labels(image: &[u8]) -> usize
    ensures { result ≡ labels image.now }
{
    let n = image.len() / RECORD_SIZE;
    if (image.len() == RECORD_SIZE * n) & (n <= Image::RECORDS) {
        n
    } else {
        0
    }
}

// The record at a label: that part of the image, or its empty part.
pub fn record_at(image: &[u8], at: Label) -> &[u8]
    ensures { result.now ≡ record_at image.now at.0 }
{
    if usize::from(label_number(at)) < count_labels(image) {
        record_of(image, at)
    } else {
        &image[..0]
    }
}

// The same as a record, if the image has it.
pub fn find_record(image: &[u8], at: Label) -> Option<&[u8; RECORD_SIZE]>
    ensures { MatchOption result (labels image.now ≤ at.0)
        (λ r. (at.0 < labels image.now) × (r.now ≡ record_at image.now at.0)) }
{
    record_at(image, at).as_array()
}

// Where the record at a label begins.
fn place_of(at: Label) -> usize
    ensures { result ≡ record_size * at.0 }
{
    RECORD_SIZE * usize::from(label_number(at))
}

// The same at a label that the image has.
pub fn record_of(image: &[u8], at: Label) -> &[u8]
    requires { at.0 < labels image.now }
    ensures { (result.now ≡ record_at image.now at.0) × (length result.now ≡ record_size) }
{
    let from = place_of(at);
    &image[from..from + RECORD_SIZE]
}

// The block and the entry of the record at a label that the image has.
pub fn block_at(image: &[u8], at: Label) -> Block
    requires { at.0 < labels image.now }
    ensures { result ≡ block (block_field (record_at image.now at.0)) }
{
    Block::from(image[place_of(at) + BLOCK_PLACE])
}

pub fn entry_at(image: &[u8], at: Label) -> u8
    requires { at.0 < labels image.now }
    ensures { result ≡ entry (record_at image.now at.0) }
{
    image[place_of(at) + ENTRY_PLACE]
}
