/// A request that was sent and is not completed.
#[derive(Clone, Copy, Default, PartialEq, Eq, Debug)]
pub struct DocketRecord {
    /// The number by which its caller completes it: no two requests noted in a docket have the same.
    pub ticket: u64,
    /// The serial of the worker that it went to.
    pub serial: u64,
    /// When it was sent, in nanoseconds.
    pub sent: u64,
}
