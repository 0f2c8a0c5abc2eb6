// The desk's week: its requests, its workers, and who comes and goes. Instants are nanoseconds from Monday's opening.
use std::array::IntoIter;
use std::fmt;
use std::iter::Chain;

/// The nanoseconds of a second.
pub const SECOND: u64 = 1_000_000_000;

/// The nanoseconds of a minute.
pub const MINUTE: u64 = 60 * SECOND;

/// A request for the price of a bond.
///
/// It prints as the minute, the broker, the bond, and the seconds that pricing takes.
#[derive(Clone, Copy)]
pub struct Request {
    /// Who asks.
    pub broker: &'static str,
    /// For which bond.
    pub bond: &'static str,
    /// When, in nanoseconds.
    pub at: u64,
    /// How long the pricing takes, in nanoseconds.
    pub takes: u64,
}

impl fmt::Display for Request {
    fn fmt<W: fmt::Write>(&self, f: &mut fmt::Formatter<W>) -> fmt::Result {
        let minute = self.at / MINUTE;
        let broker = self.broker;
        let bond = self.bond;
        let takes = self.takes / SECOND;
        write!(f, "{minute:>3} {broker:<6} {bond:<10} {takes:>4}")
    }
}

// A day: who asks for which bond, how many minutes after opening, and the seconds that pricing takes.
const DAY: [(&str, &str, u64, u64); PER_DAY] = [
    ("Adams", "WATER-31", 0, 40),
    ("Baker", "ROADS-28", 1, 90),
    ("Clark", "SCHOOL-40", 2, 30),
    ("Davis", "WATER-31", 2, 200),
    ("Adams", "BRIDGE-35", 3, 45),
    ("Evans", "ROADS-28", 4, 120),
    ("Baker", "SCHOOL-40", 5, 60),
    ("Clark", "PORT-33", 6, 75),
];

/// The requests of a day.
pub const PER_DAY: usize = 8;

/// Monday to Friday.
pub const DAYS: u64 = 5;

/// The nanoseconds from one opening to the next: a thousand minutes.
pub const DAY_LENGTH: u64 = 1_000 * MINUTE;

/// The requests of the day that opens at the instant `opening`.
pub fn requests(opening: u64) -> [Request; PER_DAY] {
    DAY.map(|(broker, bond, minute, seconds)| Request {
        broker,
        bond,
        at: opening.saturating_add(minute.saturating_mul(MINUTE)),
        takes: seconds.saturating_mul(SECOND),
    })
}

/// The workers of Monday.
pub const WORKERS: [&str; 8] = ["lon1", "lon2", "ny1", "ny2", "par1", "fra1", "tok1", "syd1"];

/// The workers that are withdrawn on Thursday.
pub const WITHDRAWN: [&str; 2] = ["lon1", "tok1"];

/// The workers that are added on Thursday, after the withdrawals.
pub const ADDED: [&str; 2] = ["lon3", "sin1"];

/// All workers of the week in the order of the feed: the first has the serial 1, the next 2, and so on.
pub fn workers() -> Chain<IntoIter<&'static str, 8>, IntoIter<&'static str, 2>> {
    WORKERS.into_iter().chain(ADDED)
}

/// The name of the worker with a serial, for printing: "none" where no worker has it.
pub fn worker(serial: u64) -> &'static str {
    (1u64..)
        .zip(workers())
        .find(|(given, _)| *given == serial)
        .map_or("none", |(_, name)| name)
}
