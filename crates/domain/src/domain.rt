//! What every kind of domain answers. A value is any `u32`.
ghost use Rattle.std.specs.Prelude.{◌≡◌, ℕ, Bool};
ghost use Rattle.domain.specs.Sets.{Smallest, alone};

/// A fixed set of values. No answer refuses or changes anything.
pub trait Domain {
    // the set, as a test on values; what it says past the last value does not matter
    ghost holds: { Self → ℕ → Bool };

    /// Whether the value is a member.
    fn has(&self, value: u32) -> bool
        ensures { result ≡ holds self.now value };

    /// The smallest member, or none where there is none.
    fn least(&self) -> Option<u32>
        ensures { Smallest (holds self.now) result };

    /// The smallest value that this domain has and the other has not, or none where there is none.
    fn gap(&self, other: &Self) -> Option<u32>
        ensures { Smallest (alone (holds self.now) (holds other.now)) result };
}
