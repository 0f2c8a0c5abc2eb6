//! Two bare services that stand in for workers: [`Paced`] answers by the clock, [`Patterned`] by a
//! list of answers.
//!
//! Programs and worked cases balance over them, since each answer can be told beforehand.
//!
//! ```text
//! let mut paced = Paced::new();
//! paced.poll_ready(10)                 Ready
//! paced.call(5, 10)                    Ok(15): busy for 5 nanoseconds
//! paced.poll_ready(14)                 Pending
//!
//! let mut patterned = Patterned::new(&[Answer::Ready, Answer::Failed])?;
//! patterned.poll_ready(10)             Ready
//! patterned.poll_ready(11)             Failed(1)
//! patterned.poll_ready(12)             Ready: the pattern starts over
//! ```
#![tactic(auto)]

mod answer;
mod paced;
mod patterned;

pub use answer::Answer;
pub use paced::Paced;
pub use patterned::Patterned;
