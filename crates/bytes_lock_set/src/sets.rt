// Sets of small numbers as the bits of one number: bit i for i.
ghost use Rattle.std.specs.Prelude.{◌≡◌, ℕ, ◌^◌, ◌<◌};
ghost use Rattle.std.specs.Int.Bits.{bit_or};
ghost use Rattle.rules.specs.Bytes.{has};

pub trait BitSet: Copy {
    // The number that the law knows the set by, and how many bits it has.
    ghost number: { Self → ℕ };

    ghost width: { ℕ };

    fn has(self, i: usize) -> bool
        requires { i < width }
        ensures { result ≡ has i (number self) };

    // With i too.
    fn with(self, i: usize) -> Self
        requires { i < width }
        ensures { number result ≡ bit_or (number self) (2 ^ i) };
}

impl BitSet for u16 {
    ghost number = { λ set. set };

    ghost width = { 16 };

    fn has(self, i: usize) -> bool {
        (self >> i) % 2 == 1
    }

    fn with(self, i: usize) -> Self {
        self | 1 << i
    }
}

impl BitSet for u32 {
    ghost number = { λ set. set };

    ghost width = { 32 };

    fn has(self, i: usize) -> bool {
        (self >> i) % 2 == 1
    }

    fn with(self, i: usize) -> Self {
        self | 1 << i
    }
}
