// The registers of a thread, and which of them are present, filled in one pass.
#![tactic(auto)]

ghost use Rattle.std.specs.Prelude.{◌≡◌, ◌-◌, ◌^◌, ◌<◌, ◌≤◌, take};
ghost use Rattle.rules.specs.Sizes.{register_count};
ghost use Rattle.state_registers.specs.Bits.{with_bit};
ghost use Rattle.state_registers.specs.Filling.{filled_by, ZerosAfter};

use rules::sorts::Thread;

// Bit r of the presence set is for register r.
#[derive(Clone, Copy)]
pub struct Registers {
    pub present: u32,
    pub values: [u16; Thread::REGISTERS],
}

// The presence set of registers 0 to count - 1.
pub fn low(count: u8) -> u32
    requires { count ≤ register_count }
    ensures { result ≡ 2 ^ count - 1 }
{
    (1u32 << count) - 1
}

// A presence set with one register's bit as in another.
fn with_bit(present: u32, other: u32, register: usize) -> u32
    requires { register < register_count }
    ensures { result ≡ with_bit register other present }
{
    let bit = 1u32 << register;
    ((present | bit) ^ bit) | (other & bit)
}

impl Registers {
    // Every register is set, with its presence bit: the first of the values in registers 0 upward, the others absent and zero. No bit of
    // the presence set that came stays, and bits 25 to 31 are zero.
    pub fn fill(mut self, values: [u16; Thread::REGISTERS], count: u8) -> Self
        requires { (count ≤ register_count) × ZerosAfter count values }
        ensures { result ≡ filled_by (take count values) }
    {
        let given = low(count);
        let mut present = self.present;
        let mut registers = self.values;
        // After i turns registers 0 to i - 1 are final, and the others, presence bits too, as they came.
        for i in 0..Thread::REGISTERS {
            registers[i] = values[i];
            present = with_bit(present, given, i);
        }
        // Bits 25 to 31 are no register's.
        self.present = present & low(Thread::REGISTERS as u8);
        self.values = registers;
        self
    }
}
