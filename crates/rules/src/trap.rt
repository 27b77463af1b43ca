// Why a job is ended by a trap. The law and the bytes of an answer know each reason by its number.
ghost use Rattle.std.specs.Prelude.{◌≡◌};
ghost use Rattle.rules.specs.Traps.{reason};

use crate::codes::{
    ABSENT_REGISTER, BELOW_ZERO, FOREIGN_FD_BLOCK, HELD_FULL, NO_RETURN_LABEL, NOT_DECIMAL,
    PENDING_FULL, RETURNS_FULL, ZERO_DIVISOR,
};

#[derive(Clone, Copy, PartialEq, Eq)]
pub enum Trap {
    AbsentRegister,
    NoReturnLabel,
    ReturnsFull,
    PendingFull,
    ForeignFdBlock,
    HeldFull,
    BelowZero,
    ZeroDivisor,
    NotDecimal,
}

impl From<Trap> for u8 {
    ghost from_gives = { λ t n. n ≡ reason t };

    fn from(trap: Trap) -> Self {
        match trap {
            Trap::AbsentRegister => ABSENT_REGISTER,
            Trap::NoReturnLabel => NO_RETURN_LABEL,
            Trap::ReturnsFull => RETURNS_FULL,
            Trap::PendingFull => PENDING_FULL,
            Trap::ForeignFdBlock => FOREIGN_FD_BLOCK,
            Trap::HeldFull => HELD_FULL,
            Trap::BelowZero => BELOW_ZERO,
            Trap::ZeroDivisor => ZERO_DIVISOR,
            Trap::NotDecimal => NOT_DECIMAL,
        }
    }
}
