// A thread's state as one value, and how a job begins, goes on, calls, returns and ends on it.
ghost use Rattle.std.specs.Prelude.{◌≡◌, [], ◌∷◌, ◌++◌, map, ◌<◌, ◌≤◌, eqb, take, drop};
ghost use Rattle.std.proofs.Math.Option.{some};
ghost use Rattle.rules.specs.Sizes.{register_count, return_count, idle_label};
ghost use Rattle.rules.specs.Machine.{fill, job};
ghost use Rattle.state_registers.specs.Filling.{ZerosAfter};
ghost use Rattle.state_thread.specs.Returns.{newest_of, older_of};
ghost use Rattle.state_thread.specs.Threads.{Idle, Tidy, Running, Runs, returns_of, registers_of, keeping, idle_thread};

use rules::layout::HELD_SIZE;
use rules::sorts::{Label, Thread, label_number};
use state_registers::low;

// At the label 65,535 a thread is idle. Depth is the number of return labels in use; they stand oldest first. Bit r of the presence set
// is for register r. The signals held for new trees are their count, and their bytes as the record has them. An array is indexed in a local
// copy of it and never as a field, which would keep the whole value in memory.
// Kept: the presence set and the registers are two fields, and not one `Registers`: `Tidy`, `idle_thread` and `raw_thread` name them.
#[derive(Clone, Copy)]
pub struct ThreadState {
    pub present: u32,
    pub label: Label,
    pub locks: u16,
    pub depth: usize,
    pub returns: [u16; Thread::RETURNS],
    pub registers: [u16; Thread::REGISTERS],
    pub held: usize,
    pub signals: [u8; HELD_SIZE],
}

impl ThreadState {
    // A thread with nothing to do.
    pub fn idle() -> Self
        ensures { result ≡ idle_thread }
    {
        Self {
            present: 0,
            label: Label::from(Label::IDLE),
            locks: 0,
            depth: 0,
            returns: [0u16; Thread::RETURNS],
            registers: [0u16; Thread::REGISTERS],
            held: 0,
            signals: [0u8; HELD_SIZE],
        }
    }

    // Whether it has no job.
    pub fn is_idle(self) -> bool
        ensures { result ≡ eqb self.label.0 idle_label }
    {
        label_number(self.label) == Label::IDLE
    }

    // An idle thread takes a signal: its values fill registers 0 upward, the others are absent.
    pub fn take(self, label: Label, values: [u16; Thread::REGISTERS], count: u8) -> Self
        requires { Idle self × (label.0 < idle_label) × (count ≤ register_count) × ZerosAfter count values }
        ensures { Runs result 0 (job label.0 [] (fill (take count values))) }
    {
        self.enter(label, values, count)
    }

    // A direct SEND.
    // Kept: the values and their count are two parameters: a caller has them apart, and would build a struct for this call alone.
    pub fn enter(mut self, label: Label, values: [u16; Thread::REGISTERS], count: u8) -> Self
        requires { Tidy self × (label.0 < idle_label) × (count ≤ register_count) × ZerosAfter count values }
        ensures { Runs result self.locks (keeping self (job label.0 (returns_of self) (fill (take count values)))) }
    {
        self.label = label;
        self.fill(values, count)
    }

    // A CALL: the return label goes behind the others.
    pub fn call(
        mut self,
        label: Label,
        back: Label,
        values: [u16; Thread::REGISTERS],
        count: u8,
    ) -> Self
        requires { Running self × (self.depth < return_count) × (label.0 < idle_label)
            × (count ≤ register_count) × ZerosAfter count values }
        ensures { Runs result self.locks
            (keeping self (job label.0 (returns_of self ++ (back.0 ∷ [])) (fill (take count values)))) }
    {
        let next = self.depth;
        let mut returns = self.returns;
        returns[next] = label_number(back);
        self.returns = returns;
        self.depth = next + 1;
        self.enter(label, values, count)
    }

    // A RETURN: the newest return label is taken.
    pub fn return_to_caller(mut self, values: [u16; Thread::REGISTERS], count: u8) -> Self
        requires { Running self × (0 < self.depth) × (newest_of (returns_of self) < idle_label)
            × (count ≤ register_count) × ZerosAfter count values }
        ensures { Runs result self.locks
            (keeping self (job (newest_of (returns_of self)) (older_of (returns_of self)) (fill (take count values)))) }
    {
        let newest = self.depth - 1;
        let mut returns = self.returns;
        let label = Label::from(returns[newest]);
        returns[newest] = 0;
        self.returns = returns;
        self.depth = newest;
        self.enter(label, values, count)
    }

    // A TRANSFER: the first of the values go into registers 0 upward. The values after them are the registers', which stay.
    pub fn transfer(mut self, label: Label, values: [u16; Thread::REGISTERS], count: u8) -> Self
        requires { Running self × (label.0 < idle_label)
            × (count ≤ register_count) × (drop count values ≡ drop count self.registers) }
        ensures { Runs result self.locks
            (keeping self (job label.0 (returns_of self) (map some (take count values) ++ drop count (registers_of self)))) }
    {
        self.label = label;
        self.present = self.present | low(count);
        self.registers = values;
        self
    }

    // On to a label, with the same registers.
    pub fn move_on(mut self, label: Label) -> Self
        requires { Running self × (label.0 < idle_label) }
        ensures { Runs result self.locks (keeping self (job label.0 (returns_of self) (registers_of self))) }
    {
        self.label = label;
        self
    }

    // The end of a job: nothing of it stays in the thread.
    pub fn end(self) -> Self
        ensures { result ≡ idle_thread }
    {
        Self::idle()
    }
}
