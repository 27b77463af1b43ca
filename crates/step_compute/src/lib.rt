// What an operation of ASSIGN's kind gives for the values of its sources.
#![tactic(auto)]

ghost use Rattle.std.specs.Prelude.{◌≡◌};
ghost use Rattle.rules.specs.Effects.{one, compute};
ghost use Rattle.rules.specs.declared.statement.Operation.TheVariants.{Subtract, Divide, Pack, Unpack, DecimalAdd};
ghost use Rattle.lemmas_step.specs.Got.{as_got};
ghost use Rattle.step_compute.specs.Computes.{values_of};

use rules::statement::Operation;
use rules::trap::Trap;
use rules_decimal::{add_packed, is_packed, pack_number, unpack_number};

// What is worked out, a value for each destination.
#[derive(Clone, Copy)]
pub struct Computation {
    pub first: u16,
    pub second: u16,
}

// One value, for the first destination.
fn one_result(v: u16) -> Result<Computation, Trap>
    ensures { as_got values_of result ≡ one v }
{
    Ok(Computation {
        first: v,
        second: 0,
    })
}

// p - q, or the trap of a difference below zero.
fn difference(p: u16, q: u16) -> Result<Computation, Trap>
    ensures { as_got values_of result ≡ compute Subtract p q }
{
    if p < q {
        Err(Trap::BelowZero)
    } else {
        one_result(p - q)
    }
}

// The quotient and the remainder of p and q, or the trap of a zero divisor.
fn quotient_and_remainder(p: u16, q: u16) -> Result<Computation, Trap>
    ensures { as_got values_of result ≡ compute Divide p q }
{
    if q == 0 {
        return Err(Trap::ZeroDivisor);
    }
    Ok(Computation {
        first: p / q,
        second: p % q,
    })
}

// p packed, or the trap of a number above 9,999.
fn packing(p: u16) -> Result<Computation, Trap>
    ensures { as_got values_of result ≡ compute Pack p 0 }
{
    if p > 9999 {
        Err(Trap::NotDecimal)
    } else {
        one_result(pack_number(p))
    }
}

// p unpacked, or the trap of a digit above 9.
fn unpacking(p: u16) -> Result<Computation, Trap>
    ensures { as_got values_of result ≡ compute Unpack p 0 }
{
    if is_packed(p) {
        one_result(unpack_number(p))
    } else {
        Err(Trap::NotDecimal)
    }
}

// The decimal sum of p and q, or the trap of a digit above 9 in either.
fn decimal_sum(p: u16, q: u16) -> Result<Computation, Trap>
    ensures { as_got values_of result ≡ compute DecimalAdd p q }
{
    if is_packed(p) && is_packed(q) {
        one_result(add_packed(p, q))
    } else {
        Err(Trap::NotDecimal)
    }
}

// What an operation gives for the values of its sources.
pub fn computed(o: Operation, p: u16, q: u16) -> Result<Computation, Trap>
    ensures { as_got values_of result ≡ compute o p q }
{
    match o {
        Operation::Copy => one_result(p),
        Operation::Add => one_result(p.wrapping_add(q)),
        Operation::Subtract => difference(p, q),
        Operation::Multiply => one_result(p.wrapping_mul(q)),
        Operation::Divide => quotient_and_remainder(p, q),
        Operation::Pack => packing(p),
        Operation::Unpack => unpacking(p),
        Operation::DecimalAdd => decimal_sum(p, q),
    }
}
