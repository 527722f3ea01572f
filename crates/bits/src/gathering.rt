//! Gathering sets of numbers below 64.
ghost use Rattle.std.specs.Prelude.{◌≡◌, ℕ, ◌<◌, true};
ghost use Rattle.bits.specs.Bits.{bit};
ghost use Rattle.bits.specs.Gathering.{LedOnto};

use crate::sets::with_member;

/// The numbers below a count that pass the test; numbers past 63 are left out.
pub fn gather<F: Fn(u8) -> bool>(count: u8, test: F) -> u64
    requires { F.IsAlwaysCallable test }
    ensures inside { (i : ℕ) → bit result i ≡ true → i < count }
    ensures told { (i : ℕ) → i < count → i < 64 → F.post test i (bit result i) }
{
    let mut found = 0;
    for number in 0..count {
        if test(number) {
            found = with_member(found, number);
        }
    }
    found
}

/// A set, and what the numbers below a count lead to; numbers past 63 are left out.
pub fn gather_onto<F: Fn(u8) -> Option<u8>>(before: u64, count: u8, lead: F) -> u64
    requires { F.IsAlwaysCallable lead }
    ensures { LedOnto (F.post lead) count before result }
{
    let mut reached = before;
    for number in 0..count {
        if let Some(next) = lead(number) {
            reached = with_member(reached, next);
        }
    }
    reached
}
