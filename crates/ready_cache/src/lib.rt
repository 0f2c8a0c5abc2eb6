//! The ready cache over two lent slices (tower: `ready_cache`).
//!
//! A [`ReadyCache`] holds workers under their keys, in two lists: those that said that they are ready for a request, and
//! those that are pending, which have to be asked. It allocates nothing: both lists work in memory that a caller lends,
//! which `router::Memory` makes on a heap. Every call that asks or tells a worker is handed the present instant.
//!
//! - [`ReadyCache::push`] takes a worker in, to the end of the pending ones. [`ReadyCache::evict`] lets one go: a ready
//!   one at once, a pending one when the next pass comes to it.
//! - [`ReadyCache::poll_pending`] asks the pending workers once each, in order, and moves those that are ready to the
//!   ready list. A worker that failed ends the pass and is gone; call again, and it goes on behind that worker.
//! - [`ReadyCache::check_ready`] asks a ready worker again. What a worker said may be old, so it is asked right before it
//!   is called: one that is no longer ready goes back to the pending ones, and one that failed is gone.
//! - [`ReadyCache::call_ready`] hands it the request. A worker that was called has to be asked again, so it is pending
//!   from then on.
//! - [`ReadyCache::finish`] tells the worker that the request is over, wherever it is by then.
//!
//! Check and call go by key, or by the place among the ready ([`ReadyCache::check_ready_index`],
//! [`ReadyCache::call_ready_index`]) for a caller that wants any ready worker, as a balancer does. A place is good until
//! the next call that takes a ready worker away, since the last one then moves into the gap. Requests that are out name
//! their worker by its serial, which stays the same:
//!
//! ```text
//! let mut cache = ReadyCache::new(ready, pending, 1);
//! let serial = cache.push(key, worker)?;
//! cache.poll_pending(now)?;
//! if cache.check_ready(&key, now)? {
//!     let response = cache.call_ready(&key, request, now)?;
//!     ..
//!     cache.finish(serial, now, later);
//! }
//! ```
#![tactic(auto)]

mod call;
mod demote;
mod entries;
mod places;
mod poll;
mod push;
mod ready_cache;

pub use ready_cache::{MOST, ReadyCache};
