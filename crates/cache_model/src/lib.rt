//! A ready cache as lists and numbers: what each of its calls does and answers.
//!
//! This crate has no cache in memory: that is `ready_cache::ReadyCache`, whose contracts cite the definitions here.
//! specs/Lists has the steps of one list of workers, specs/Cache those of a whole cache, one for each of its calls, and
//! specs/Laws what holds of a cache whatever is called.
//!
//! In Rattle the crate has what a cache and its users both speak of: [`Entry`], a worker with its key and its serial,
//! and the answers of calls that refuse or report a fault. Each answer has a number, by which traces name it, and rises
//! from layer to layer by `?`:
//!
//! ```text
//! EndpointRefusal -> CallRefusal              a call
//! Failed, NoPlace -> PendingError             a pass over the pending workers
//! PushError, NoPlace -> CacheError            a poll of the balancer
//! ```
#![tactic(auto)]

mod call_refusal;
mod entry;
mod error;

pub use call_refusal::CallRefusal;
pub use entry::Entry;
pub use error::{CacheError, Failed, NoPlace, PendingError, PushError, PushRefusal};
