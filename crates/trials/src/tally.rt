// How many trials were made, and how many of them agree.
ghost use Rattle.std.specs.Prelude.{◌≤◌};

use std::fmt;
use std::io::Result;

#[derive(Clone, Copy)]
pub struct Tally {
    agreed: u64,
    tried: u64,
    ghost within: { agreed ≤ tried },
}

impl Tally {
    pub fn new() -> Self {
        Tally {
            agreed: 0,
            tried: 0,
        }
    }

    // Counts a trial. One that failed is named by its number.
    pub fn count(&mut self, rt: &impl Print, number: usize, agrees: bool) -> Result<()> {
        self.tried = self.tried.saturating_add(1);
        if agrees {
            self.agreed = self.agreed.saturating_add(1);
            return Ok(());
        }
        println!(rt; "failed: {number}")
    }
}

impl fmt::Display for Tally {
    fn fmt<W: fmt::Write>(&self, f: &mut fmt::Formatter<W>) -> fmt::Result {
        write!(f, "{} of {}", self.agreed, self.tried)
    }
}
