//! The two-choice balancer (tower: `balance::p2c`).
//!
//! A [`Balance`] reads a feed of workers that come and go, and names, at each poll, a ready worker: of two drawn at
//! random the one that is not heavier. It owns neither the cache nor the docket, so that a caller can look at them:
//! each call is handed what it needs.
//!
//! 1. [`Balance::poll_ready`] names a worker, by its serial, or answers that nobody is ready.
//! 2. [`Balance::call`] sends one request to the worker that the latest poll named, and answers a ticket with the
//!    response. Then a poll has to come first again.
//! 3. [`complete`] takes the ticket when the request is over.
//!
//! ```text
//! let mut balance = Balance::new(feed, 16);
//! if balance.poll_ready(&mut cache, now)?.worker.ready().is_some() {
//!     let (ticket, response) = balance.call(&mut cache, &mut docket, request, now)?;
//!     ..
//!     complete(&mut cache, &mut docket, ticket, later)?;
//! }
//! ```
//!
//! `router::Router` holds a balancer, a cache and a docket together.
#![tactic(auto)]

mod balance;
mod call;
mod completion;
mod feed;
mod poll;
mod search;

pub use balance::Balance;
pub use completion::complete;
