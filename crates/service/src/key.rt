ghost use Rattle.std.specs.Prelude.{◌≡◌};
ghost use Rattle.service.specs.Meaning.{Sameness};
ghost use Rattle.service.specs.ByNumber.{same_number};

/// A key, under which a worker is known.
///
/// `sameness` says which keys are the same, and proves that each is the same as itself, and that sameness goes both
/// ways and from one to the next.
pub trait Key: Copy {
    ghost sameness: { Sameness Self };

    /// Whether both are one key. Two keys that are not equal can be, as names that differ in case.
    fn same(&self, other: &Self) -> bool
        ensures { result ≡ sameness.same self.now other.now };
}

/// A branch number: the same as an equal one alone.
impl Key for u32 {
    ghost sameness = { same_number (λ n. n) };

    fn same(&self, other: &u32) -> bool {
        *self == *other
    }
}
