// The image: the record at a label, and the fields of a record.
#![tactic(auto)]

pub mod record_fields;
pub mod records;
