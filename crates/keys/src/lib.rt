//! Names as keys: texts of one to eight letters or digits, told apart without case.
//!
//! ```text
//! let name = Name::new(b"Bond7")?;
//! name.same(&Name::new(b"bOND7")?)    true: one key
//! format!(in heap; "{name}")?         Bond7, as it was spelt
//! Name::new(b"Bond 7")                Err(Invalid::Name), whose number is 13
//! ```
#![tactic(auto)]

mod name;
#[cfg(test)]
mod tests;

pub use name::Name;
