/// An answer of a pattern, with the number that its two bits hold.
#[derive(Clone, Copy, PartialEq, Eq, Debug)]
pub enum Answer {
    /// It takes no request now.
    Pending = 0,
    /// It takes the next request.
    Ready = 1,
    /// It fails, with its place in the pattern as the error.
    Failed = 2,
}
