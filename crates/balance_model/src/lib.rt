//! The two-choice balancer and whole runs of it as lists and numbers: what each call does and answers, and what is
//! promised of every run.
//!
//! The balancer in memory is `balance::Balance`, and `router::Router` is that with its cache and its docket; their
//! contracts cite the definitions in specs/. Here stand what the calls answer ([`Polled`], [`PollError`],
//! [`CallError`], [`Completion`], [`CompleteError`]), a caller's steps ([`Pick`]) with their answers ([`Answer`]), and
//! the meanings of a balancer's kinds, which contracts cite ([`Kinds`]).
#![tactic(auto)]

mod answer;
mod kinds;
mod pick;

pub use answer::{Answer, CallError, CompleteError, Completion, PollError, Polled};
pub use kinds::Kinds;
pub use pick::Pick;
