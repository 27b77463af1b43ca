// Kinds that a byte names: of an entry, of a block, of an event.
ghost use Rattle.std.specs.Prelude.{◌≡◌};
ghost use Rattle.rules.specs.Kinds.{event_kind};

use crate::codes::{ARRIVAL, BUFFERED, CMX, CUT, DIRECT, EXTERNAL, FD, STEP};

// How a record may be come to from elsewhere.
#[derive(Clone, Copy, PartialEq, Eq)]
pub enum Entry {
    Direct = DIRECT as isize,
    Buffered = BUFFERED as isize,
    External = EXTERNAL as isize,
}

#[derive(Clone, Copy, PartialEq, Eq)]
pub enum BlockKind {
    Fd = FD as isize,
    Cmx = CMX as isize,
}

#[derive(Clone, Copy, PartialEq, Eq)]
pub enum EventKind {
    Arrival,
    Step,
    Cut,
}

// A byte that names no kind.
#[derive(Clone, Copy, PartialEq, Eq)]
pub struct UnknownKind(pub u8);

impl TryFrom<u8> for EventKind {
    type Error = UnknownKind;

    ghost try_from_gives = { λ n r. r ≡ event_kind n };

    fn try_from(number: u8) -> Result<Self, UnknownKind> {
        match number {
            ARRIVAL => Ok(EventKind::Arrival),
            STEP => Ok(EventKind::Step),
            CUT => Ok(EventKind::Cut),
            _ => Err(UnknownKind(number)),
        }
    }
}
