// The registers of a thread, and which of them are present.
ghost use Rattle.std.specs.Prelude.{◌≡◌, ◌<◌, ◌≤◌, set, take};
ghost use Rattle.std.proofs.Math.Option.{some};
ghost use Rattle.rules.specs.Machine.{job};
ghost use Rattle.rules.specs.Sizes.{register_count};
ghost use Rattle.state_registers.specs.Filling.{ZerosAfter};
ghost use Rattle.state_thread.specs.Threads.{Running, Runs, returns_of, registers_of, keeping, filled};

use crate::thread::ThreadState;
use bytes_lock_set::sets::BitSet;
use rules::sorts::Thread;
use state_registers::Registers;

impl ThreadState {
    // Every register is set, with its presence bit: the first of the values in registers 0 upward, the others absent and zero. No bit of
    // the presence set that came stays, and bits 25 to 31 are zero.
    pub fn fill(mut self, values: [u16; Thread::REGISTERS], count: u8) -> Self
        requires { (count ≤ register_count) × ZerosAfter count values }
        ensures { result ≡ filled self (take count values) }
    {
        let came = self.registers;
        let registers = Registers {
            present: self.present,
            values: came,
        };
        let all = registers.fill(values, count);
        let filled = all.values;
        self.present = all.present;
        self.registers = filled;
        self
    }

    // A register stored to becomes present.
    pub fn assign_register(mut self, register: u16, value: u16) -> Self
        requires { Running self × (register < register_count) }
        ensures { Runs result self.locks
            (keeping self (job self.label.0 (returns_of self) (set (registers_of self) register (some value)))) }
    {
        let at = register as usize;
        let mut registers = self.registers;
        registers[at] = value;
        self.registers = registers;
        self.present = self.present.with(at);
        self
    }
}
