// The image check: the refusals 1 to 4, lowest number first.
#![tactic(auto, using(check_refusal::specs::Refusals::refusing))]

ghost use Rattle.std.specs.Prelude.{◌≡◌, [], length};
ghost use Rattle.rules.specs.Sizes.{table_size};
ghost use Rattle.rules.specs.Check.{image_length_fault, table_length_fault, table_fault, record_fault, first_refusal, image_faults};
ghost use Rattle.check_refusal.specs.Refusals.{number_of};

use check_records::Records;
use check_refusal::{Refusal, ensure};
use image_table::{first_bad_row, rows_ok};
use rules::layout::TABLE_SIZE;

#[tactic(auto, unfolding(rules::specs::Check::image_length_fault))]
pub fn image_length_fault(records: &Records) -> Result<(), Refusal>
    ensures { number_of result ≡ image_length_fault records.now.image.now }
{
    ensure(0 < records.count, Refusal::ImageLength)
}

#[tactic(auto, unfolding(rules::specs::Check::table_length_fault))]
pub fn table_length_fault(table: &[u8]) -> Result<(), Refusal>
    ensures { number_of result ≡ table_length_fault table.now }
{
    ensure(table.len() == TABLE_SIZE, Refusal::TableLength)
}

// Number 3, at the first row that is out of range. It is compiled once: few calls come here, and a good table costs no call.
#[inline(never)]
pub fn row_fault(table: &[u8]) -> Result<(), Refusal>
    requires { length table.now ≡ table_size }
    ensures { number_of result ≡ table_fault table.now }
{
    match first_bad_row(table) {
        Some(b) => Err(Refusal::TableField(b)),
        None => Ok(()),
    }
}

// The same. The first row is looked for only where there is one.
pub fn table_fault(table: &[u8]) -> Result<(), Refusal>
    requires { length table.now ≡ table_size }
    ensures { number_of result ≡ table_fault table.now }
{
    if rows_ok(table) {
        Ok(())
    } else {
        row_fault(table)
    }
}

#[tactic(auto, using(check_records::specs::BadRecord::fault_found, check_records::specs::BadRecord::no_fault))]
pub fn record_fault(records: &Records) -> Result<(), Refusal>
    ensures { number_of result ≡ record_fault records.now.image.now }
{
    match records.first_bad() {
        Some(l) => Err(Refusal::Record(l)),
        None => Ok(()),
    }
}

// The first of the refusals 1 to 4. It is compiled into its callers, since a result is handed over in memory.
#[inline(always)]
pub fn image_fault(image: &[u8], table: &[u8]) -> Result<(), Refusal>
    ensures { number_of result ≡ first_refusal (image_faults image.now table.now []) }
{
    let records = Records::of(image);
    image_length_fault(&records)?;
    table_length_fault(table)?;
    table_fault(table)?;
    record_fault(&records)
}
