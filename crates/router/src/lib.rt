//! Whole runs of a balancer, and what is promised of them.
//!
//! A *pick* is a poll, a call with a request, or a completion of a ticket, each with its instant. [`run`] makes a new
//! balancer, cache and docket and applies the picks to them, one after the other. It works in memory that the caller
//! lends, allocates nothing and refuses nothing:
//!
//! ```text
//! let mut memory = Memory::new(heap, blank, 16, 64)?;
//! let mut answers = answers(heap, picks.len())?;
//! let opening = Opening { feed, words, budget: 16, first_serial: 1, first_ticket: 1 };
//! let closing = run(memory.as_mut_slices(), opening, &picks, answers.as_mut_slice());
//! for (pick, answer) in picks.iter().zip(&answers[..closing.count]) { .. }
//! let still_out = closing.router.docket.len();
//! ```
//!
//! [`run_owned`] is `run` for a caller who wants every answer and both lists in vectors of their own, which there may
//! be no memory for. Picks that come one at a time go to [`Router::step`], of which the same is promised.
#![tactic(auto)]

mod closing;
mod memory;
#[cfg(test)]
mod memory_tests;
mod opening;
mod owned_run;
mod router;
mod runs;
#[cfg(test)]
mod tests;

pub use closing::Closing;
pub use memory::{Memory, Slices, answers};
pub use opening::Opening;
pub use owned_run::OwnedRun;
pub use router::Router;
pub use runs::{run, run_owned};
