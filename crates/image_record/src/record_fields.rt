// The fields of a record, each in its sort.
ghost use Rattle.std.specs.Prelude.{◌≡◌, length};
ghost use Rattle.rules.specs.Sorts.{label, block};
ghost use Rattle.rules.specs.Sizes.{record_size};
ghost use Rattle.rules.specs.Image.{block_field, entry, label_a, label_b, operands};

use bytes_fields::read::get16;
use rules::layout::{BLOCK_PLACE, ENTRY_PLACE, LABEL_A_PLACE, LABEL_B_PLACE, OPERAND_COUNT_PLACE};
use rules::sorts::{Block, Label};

pub fn block_field(r: &[u8]) -> Block
    requires { length r.now ≡ record_size }
    ensures { result ≡ block (block_field r.now) }
{
    Block::from(r[BLOCK_PLACE])
}

pub fn entry_field(r: &[u8]) -> u8
    requires { length r.now ≡ record_size }
    ensures { result ≡ entry r.now }
{
    r[ENTRY_PLACE]
}

pub fn label_a(r: &[u8]) -> Label
    requires { length r.now ≡ record_size }
    ensures { result ≡ label (label_a r.now) }
{
    Label::from(get16(r, LABEL_A_PLACE))
}

pub fn label_b(r: &[u8]) -> Label
    requires { length r.now ≡ record_size }
    ensures { result ≡ label (label_b r.now) }
{
    Label::from(get16(r, LABEL_B_PLACE))
}

pub fn operand_count(r: &[u8]) -> u8
    requires { length r.now ≡ record_size }
    ensures { result ≡ operands r.now }
{
    r[OPERAND_COUNT_PLACE]
}
