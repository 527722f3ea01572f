//! Sets of numbers below 64: members, and the lowest of them.
ghost use Rattle.std.specs.Prelude.{◌≡◌, ℕ, ◌<◌, false, not, ◌&&◌, ◌||◌, ◌==◌, nat_lt};
ghost use Rattle.bits.specs.Below.{count_below};
ghost use Rattle.bits.specs.Bits.{bit, Lowest, without};

/// Whether the number is in the set.
pub fn has_member(set: u64, number: u8) -> bool
    ensures { result ≡ bit set number }
{
    number < 64 && (set >> number) & 1 == 1
}

/// The set with one number more; a number past 63 is left out.
pub fn with_member(set: u64, number: u8) -> u64
    ensures adds { (i : ℕ) → bit result i ≡ (bit set i || (nat_lt number 64 && number == i)) }
    ensures grows { bit set number ≡ false → number < 64 → set < result }
{
    if number < 64 {
        set | (1 << number)
    } else {
        set
    }
}

/// How many numbers of the set are below a number.
pub fn members_below(set: u64, number: u8) -> u8
    ensures { result ≡ count_below number (bit set) }
{
    if number < 64 {
        (set & ((1 << number) - 1)).count_ones() as u8
    } else {
        set.count_ones() as u8
    }
}

/// The lowest number of the set, or none where it is empty.
pub fn lowest(set: u64) -> Option<u8>
    ensures { Lowest (bit set) result }
{
    // a branch and no `then_some`: each arm is proved by itself
    if set == 0 {
        None
    } else {
        Some(set.trailing_zeros() as u8)
    }
}

/// The lowest number that is in the first set alone, or none.
pub fn lowest_alone(first: u64, second: u64) -> Option<u8>
    ensures { Lowest (without (bit first) (bit second)) result }
{
    lowest(first & !second)
}
