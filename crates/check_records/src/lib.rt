// The first record that breaks a rule.
#![tactic(auto)]

ghost use Rattle.std.specs.Prelude.{◌≡◌};
ghost use Rattle.rules.specs.Image.{labels};
ghost use Rattle.check_records.specs.BadRecord.{bad_record};

use check_record::rule::rule_ok;
use image_record::records::count_labels;
use rules::layout::RECORD_SIZE;
use rules::sorts::Label;

// An image and how many records it has.
#[derive(Clone, Copy)]
pub struct Records<'a> {
    pub image: &'a [u8],
    pub count: usize,
    ghost counted: { count ≡ labels image.now },
}

impl<'a> Records<'a> {
    pub fn of(image: &'a [u8]) -> Self
        ensures { result.image.now ≡ image.now }
    {
        Records {
            image,
            count: count_labels(image),
        }
    }

    // The first label whose record breaks a rule.
    pub fn first_bad(&self) -> Option<Label>
        ensures { result ≡ bad_record self.now.image.now }
    {
        for l in 0..self.count {
            let at = RECORD_SIZE * l;
            let r = &self.image[at..at + RECORD_SIZE];
            if !rule_ok(self.image, self.count, r) {
                return Some(Label::from(l as u16));
            }
        }
        None
    }
}
