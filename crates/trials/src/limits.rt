// Trials that are not marked: 512 records pass, in one image and in two that are linked, and 513 do not.
use crate::buffers::{Buffers, Part};
use crate::lines::Call;
use crate::tally::Tally;
use rules::layout::RECORD_SIZE;
use std::io::Result;
use std::rt::Runtime;

// 514 EXIT records of a block go to a buffer, whatever its length.
fn exits(part: &mut Part, block: u8) {
    let mut record = [0; RECORD_SIZE];
    record[0] = 10;
    record[1] = block;
    for place in part.all.chunks_exact_mut(RECORD_SIZE).take(514) {
        for (to, from) in place.iter_mut().zip(&record) {
            *to = *from;
        }
    }
}

// Every image length from 0 to 43,176: 84 × n passes for n 1 to 512, and no other.
pub fn image_lengths(rt: &impl Runtime, buffers: &mut Buffers) -> Result<Tally> {
    buffers.load(rt, b".", b"limits", Call::Check);
    exits(&mut buffers.image, 0);
    let mut tally = Tally::new();
    for n in 0..=514 * RECORD_SIZE {
        buffers.image.length = n;
        let passes = 0 < n && n <= 43008 && n % 84 == 0;
        let wanted = if passes { 0 } else { 65536 };
        tally.count(rt, n, buffers.check() == wanted)?;
    }
    Ok(tally)
}

// What the link of so many records returns, its output as long as both images.
fn linked(buffers: &mut Buffers, first: u16, second: u16) -> u32 {
    buffers.first.length = RECORD_SIZE * usize::from(first);
    buffers.second.length = RECORD_SIZE * usize::from(second);
    let mut out = Part::filled(7, buffers.first.length + buffers.second.length);
    buffers.link(&mut out)
}

// Every count of the first image's records from 1 to 511: 512 records pass together, and 513 do not.
pub fn link_counts(rt: &impl Runtime, buffers: &mut Buffers) -> Result<Tally> {
    buffers.load(rt, b".", b"limits", Call::Check);
    exits(&mut buffers.first, 0);
    exits(&mut buffers.second, 1);
    let mut tally = Tally::new();
    for n in 1..512 {
        let passes = linked(buffers, n, 512 - n) == 0;
        let refused = linked(buffers, n, 513 - n) == 917504;
        tally.count(rt, usize::from(n), passes && refused)?;
    }
    Ok(tally)
}
