//! Cycles of poll, call and completion: a static library, which the benchmark beside tower times and sums.
//!
//! A cycle polls a balancer, sends the request 0 to the worker that the poll names, and completes a request that was
//! sent some calls before. [`cycles_by_count`] and [`cycles_by_time`] make a balancer, a cache and a docket of their
//! own, with workers weighed by requests out or by response time, and run as many cycles over them as they are told.
//! Each answers a sum, which has to be the same as with tower's code:
//!
//! - A cycle adds the serial of the worker that was named and its response, which is how many calls it has taken.
//! - A cycle that names nobody, or whose call is refused, adds 0.
//!
//! Both take the same numbers:
//!
//! - `workers`: how many there are; their keys are 0, 1, 2 and so on, and their serials begin with 1.
//! - `unready`: the workers whose keys it divides are never ready; with 0 all of them always are.
//! - `turnover`: in one of so many cycles a worker leaves and comes back, under its key and with another serial, one
//!   worker after the other; with 0 nobody leaves. Neither the first cycle counts, nor the one after each round of
//!   `turnover` times `workers` cycles: nobody leaves in those.
//! - `cycles`: how many cycles, a microsecond from one to the next.
//! - `out`: how many requests stay out.
//!
//! ```text
//! cycles_by_count(heap, 1, 0, 0, 2, 0)     // (1 + 1) + (1 + 2): the one worker takes two calls
//! ```
//!
//! [`counted_entry_bytes`], [`timed_entry_bytes`] and [`record_bytes`] say how much memory a worker of the cache and a
//! request of the docket take.
#![tactic(auto)]

ghost use Rattle.std.specs.Prelude.{◌≡◌, ◌⊎◌};
ghost use Rattle.cycles.specs.Sums.{IsSumByCount, IsSumByTime};

mod cycle;
mod repeated;
mod run;
mod shape;
#[cfg(test)]
mod tests;

use cache_model::Entry;
use docket::DocketRecord;
use load::{PeakEwma, PendingRequests, Squaring};
pub use repeated::Repeated;
pub use shape::Shape;
use std::alloc::Global;
use std::mem::size_of;
use workers::Patterned;

/// The sum of cycles with workers weighed by requests out, modulo 2^64; 0 where there is no memory.
#[unsafe(no_mangle)]
pub extern "C" fn cycles_by_count(
    heap: Global,
    workers: u32,
    unready: u32,
    turnover: u32,
    cycles: u32,
    out: u32,
) -> u64
    ensures { (result ≡ 0) ⊎ IsSumByCount workers unready turnover cycles out result }
{
    run::run_by_count(heap, Shape::new(workers, unready, turnover, cycles, out)).unwrap_or(0)
}

/// The sum of cycles with workers weighed by response time, modulo 2^64; 0 where there is no memory.
#[unsafe(no_mangle)]
pub extern "C" fn cycles_by_time(
    heap: Global,
    workers: u32,
    unready: u32,
    turnover: u32,
    cycles: u32,
    out: u32,
) -> u64
    ensures { (result ≡ 0) ⊎ IsSumByTime workers unready turnover cycles out result }
{
    run::run_by_time(heap, Shape::new(workers, unready, turnover, cycles, out)).unwrap_or(0)
}

/// The bytes of a cache's entry for a worker weighed by requests out.
#[unsafe(no_mangle)]
pub extern "C" fn counted_entry_bytes() -> usize
    ensures { result ≡ 64 }
{
    size_of::<Entry<u32, PendingRequests<Patterned>>>()
}

/// The bytes of a cache's entry for a worker weighed by response time.
#[unsafe(no_mangle)]
pub extern "C" fn timed_entry_bytes() -> usize
    ensures { result ≡ 88 }
{
    size_of::<Entry<u32, PeakEwma<Patterned, Squaring>>>()
}

/// The bytes of a docket's record of a request.
#[unsafe(no_mangle)]
pub extern "C" fn record_bytes() -> usize
    ensures { result ≡ 24 }
{
    size_of::<DocketRecord>()
}
