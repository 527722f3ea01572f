//! Claims: what the holder of an area carries, and can't leave behind.
ghost use Rattle.std.specs.Prelude.{◌≡◌, ℕ, true};

use std::marker::PhantomData;

/// A claim's two numbers: its area's number, and the area's serial as the comparison began.
#[derive(Clone, Copy, Debug, PartialEq, Eq)]
pub struct Numbers {
    pub area: u32,
    pub serial: u32,
}

/// Says of a claim that its comparison is not concluded.
pub struct Comparing;

/// Says of a claim that its comparison was concluded apart.
pub struct Apart;

/// The kinds of claim that a conclusion gives: those of a comparison concluded apart.
pub trait ConcludedApart {}

impl ConcludedApart for Apart {}

/// A claim, and in its type what its comparison is at. It can't be let go before it is spent.
pub struct Lease<S> {
    numbers: Numbers,
    // a mark, by which the check refuses to let a claim go before it is spent
    spent: bool,
    at: PhantomData<S>,
}

/// What take and oust give.
pub type Claim = Lease<Comparing>;

/// What a conclusion apart gives for the claim, with the same numbers.
pub type ApartClaim = Lease<Apart>;

impl<S> Drop for Lease<S> {
    fn drop(self)
        requires { self.spent ≡ true }
    {
        let Self {
            numbers: _,
            spent: _,
            at: _,
        } = self;
    }
}

impl<S> Lease<S> {
    /// The claim's two numbers.
    pub fn numbers(&self) -> Numbers
        ensures { result ≡ self.now.numbers }
    {
        self.numbers
    }

    /// The area's number.
    pub fn number(&self) -> u32
        ensures { result ≡ self.now.numbers.area }
    {
        self.numbers.area
    }

    /// The serial as the comparison began.
    pub fn serial(&self) -> u32
        ensures { result ≡ self.now.numbers.serial }
    {
        self.numbers.serial
    }
}

/// What giving up asks of a claim: its two numbers, and that it can be spent.
pub trait Held {
    // the area's number
    ghost area: { Self → ℕ };
    // the area's serial as the comparison began
    ghost turn: { Self → ℕ };

    /// The area's number.
    fn number(&self) -> u32
        ensures { result ≡ area self.now };

    /// The serial as the comparison began.
    fn serial(&self) -> u32
        ensures { result ≡ turn self.now };

    /// Spends the claim.
    fn spend(self);
}

impl<S> Held for Lease<S> {
    ghost area = { λ c. c.numbers.area };

    ghost turn = { λ c. c.numbers.serial };

    fn number(&self) -> u32 {
        Lease::number(self)
    }

    fn serial(&self) -> u32 {
        Lease::serial(self)
    }

    fn spend(self) {
        let mut claim = self;
        claim.spent = true;
    }
}

impl Lease<Comparing> {
    /// A claim with these numbers.
    pub(crate) fn new(numbers: Numbers) -> Claim
        ensures { result.numbers ≡ numbers }
    {
        Lease {
            numbers,
            spent: false,
            at: PhantomData,
        }
    }

    /// Spends the claim for an apart claim with its numbers.
    pub(crate) fn part(self) -> ApartClaim
        ensures { result.numbers ≡ self.numbers }
    {
        let apart = Lease {
            numbers: self.numbers,
            spent: false,
            at: PhantomData,
        };
        self.spend();
        apart
    }
}
