// The refusals of the link: 1 to 4 of both images and the table, then 13 to 15.
#![tactic(auto, using(check_refusal::specs::Refusals::refusing))]

ghost use Rattle.std.specs.Prelude.{◌≡◌, [], ◌^◌, ◌<◌};
ghost use Rattle.std.specs.Int.Bits.{bit_or};
ghost use Rattle.rules.specs.Sizes.{block_count};
ghost use Rattle.rules.specs.Image.{labels};
ghost use Rattle.rules.specs.Check.{first_refusal, images_faults};
ghost use Rattle.rules.specs.Link.{names};
ghost use Rattle.rules.specs.Calls.{shared_block_fault, too_many_records_fault, output_length_fault, link_return};
ghost use Rattle.check_refusal.specs.Refusals.{number_of};
ghost use Rattle.check_link.specs.BlockSets.{BlocksIn, SetOf};

use check_image::{image_length_fault, record_fault, table_fault, table_length_fault};
use check_records::Records;
use check_refusal::{Refusal, ensure};
use rules::layout::{BLOCK_PLACE, RECORD_SIZE};
use rules::limits::Image;
use rules::sorts::{Block, block_number};

// A set of blocks with one block more.
pub fn with_block(set: u16, b: Block) -> u16
    requires { b.0 < block_count }
    ensures { result ≡ bit_or set (2 ^ b.0) }
{
    set | (1u16 << block_number(b))
}

// The blocks that an image names, as a set: bit b for block b.
pub fn block_set(image: &[u8], n: usize) -> u16
    requires { (n ≡ labels image.now) × BlocksIn image.now }
    ensures { SetOf (names image.now) result }
{
    let mut set: u16 = 0;
    for l in 0..n {
        set = with_block(set, Block::from(image[RECORD_SIZE * l + BLOCK_PLACE]));
    }
    set
}

pub fn shared_block_fault(first: &[u8], n: usize, second: &[u8], m: usize) -> Result<(), Refusal>
    requires { (n ≡ labels first.now) × BlocksIn first.now × (m ≡ labels second.now) × BlocksIn second.now }
    ensures { number_of result ≡ shared_block_fault first.now second.now }
{
    ensure(
        (block_set(first, n) & block_set(second, m)) == 0,
        Refusal::SharedBlock,
    )
}

#[tactic(auto, unfolding(rules::specs::Calls::too_many_records_fault))]
pub fn too_many_records_fault(first: &Records, second: &Records) -> Result<(), Refusal>
    ensures { number_of result ≡ too_many_records_fault first.now.image.now second.now.image.now }
{
    ensure(
        first.count + second.count <= Image::RECORDS,
        Refusal::TooManyRecords,
    )
}

#[tactic(auto, unfolding(rules::specs::Calls::output_length_fault))]
pub fn output_length_fault(first: &[u8], second: &[u8], out: &[u8]) -> Result<(), Refusal>
    ensures { number_of result ≡ output_length_fault first.now second.now out.now }
{
    ensure(
        out.len() == first.len() + second.len(),
        Refusal::OutputLength,
    )
}

// The first of the refusals 1 to 4: the first image before the second within a number.
pub fn images_fault(
    first: &[u8],
    n: usize,
    second: &[u8],
    m: usize,
    table: &[u8],
) -> Result<(), Refusal>
    requires { (n ≡ labels first.now) × (m ≡ labels second.now) }
    ensures { number_of result ≡ first_refusal (images_faults first.now second.now table.now []) }
{
    let one = Records {
        image: first,
        count: n,
    };
    let other = Records {
        image: second,
        count: m,
    };
    image_length_fault(&one)?;
    image_length_fault(&other)?;
    table_length_fault(table)?;
    table_fault(table)?;
    record_fault(&one)?;
    record_fault(&other)
}

// The first of the link's refusals.
#[tactic(auto, using(crate::specs::Faults::link_refusing), unfolding(rules::specs::Calls::link_return))]
pub fn link_fault(first: &[u8], second: &[u8], table: &[u8], out: &[u8]) -> Result<(), Refusal>
    ensures { number_of result ≡ link_return first.now second.now table.now out.now }
{
    let one = Records::of(first);
    let other = Records::of(second);
    images_fault(first, one.count, second, other.count, table)?;
    shared_block_fault(first, one.count, second, other.count)?;
    too_many_records_fault(&one, &other)?;
    output_length_fault(first, second, out)
}
