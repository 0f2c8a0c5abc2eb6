//! Keys, weights, bare services and endpoints: the interfaces of what is balanced (tower:
//! tower-service, load).
//!
//! A worker is known under a [`Key`]. It is an [`Endpoint`]: asked by `poll_ready` whether it can
//! take a request, sent one by `call`, told by `finish` that one is over, and asked by `load` for
//! its [`Weight`]. A [`Service`] is what an endpoint is made over: it takes requests, counts none
//! of them and has no weight. Each interface has one ghost member, which says what an
//! implementation means; all contracts above are written over it.
//!
//! Each call is told its instant, a number of nanoseconds.
//!
//! ```text
//! let answer = endpoint.poll_ready(at);          Ready: it is granted one call
//! let response = endpoint.call(request, at)?;    and the grant is used up
//! endpoint.finish(at, later);                    one request fewer is out
//! ```
#![tactic(auto)]

mod endpoint;
mod key;
mod poll;
mod readiness;
mod refusal;
mod service;
mod weight;

pub use endpoint::Endpoint;
pub use key::Key;
pub use poll::Poll;
pub use readiness::Readiness;
pub use refusal::{EndpointRefusal, Invalid, ServiceRefusal};
pub use service::Service;
pub use weight::Weight;
