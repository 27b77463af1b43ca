// The four sorts of number of docs/MACHINE.md. Their fields are private: a sort is made by its `from` alone and opened by its own named
// function, which takes no other, so one sort given for another, or a plain number given for one, does not compile.
ghost use Rattle.std.specs.Prelude.{◌≡◌};
ghost use Rattle.rules.specs.Sorts.{label, block, thread, lock};

// A record's index in the image.
#[derive(Clone, Copy, PartialEq, Eq)]
pub struct Label(u16);

// A block's index in the block table.
#[derive(Clone, Copy, PartialEq, Eq)]
pub struct Block(u8);

// A worker thread.
#[derive(Clone, Copy, PartialEq, Eq)]
pub struct Thread(u8);

// A lock. The block table says which lock guards a block.
#[derive(Clone, Copy, PartialEq, Eq)]
pub struct Lock(u8);

impl From<u16> for Label {
    ghost from_gives = { λ n l. l ≡ label n };

    fn from(number: u16) -> Self {
        Self(number)
    }
}

pub fn label_number(l: Label) -> u16
    ensures { result ≡ l.0 }
{
    l.0
}

impl From<u8> for Block {
    ghost from_gives = { λ n b. b ≡ block n };

    fn from(number: u8) -> Self {
        Self(number)
    }
}

pub fn block_number(b: Block) -> u8
    ensures { result ≡ b.0 }
{
    b.0
}

impl From<u8> for Thread {
    ghost from_gives = { λ n t. t ≡ thread n };

    fn from(number: u8) -> Self {
        Self(number)
    }
}

pub fn thread_number(t: Thread) -> u8
    ensures { result ≡ t.0 }
{
    t.0
}

impl From<u8> for Lock {
    ghost from_gives = { λ n l. l ≡ lock n };

    fn from(number: u8) -> Self {
        Self(number)
    }
}

pub fn lock_number(l: Lock) -> u8
    ensures { result ≡ l.0 }
{
    l.0
}
