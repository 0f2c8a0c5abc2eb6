ghost use Rattle.std.specs.Prelude.{◌≡◌};
ghost use Rattle.service.specs.Meaning.{Weights};
ghost use Rattle.service.specs.ByNumber.{by_number};

/// A weight, by which one of two workers is preferred: the lighter one.
///
/// `order` says which of two weights is not heavier, and proves that of any two one is not heavier than the other, and
/// that this goes from one to the next.
pub trait Weight: Copy {
    ghost order: { Weights Self };

    /// Whether this weight is lighter than the other, or as heavy.
    fn not_heavier(&self, other: &Self) -> bool
        ensures { result ≡ order.not_heavier self.now other.now };
}

/// A number of requests out: the smaller one is lighter.
impl Weight for u32 {
    ghost order = { by_number (λ n. n) };

    fn not_heavier(&self, other: &u32) -> bool {
        *self <= *other
    }
}
