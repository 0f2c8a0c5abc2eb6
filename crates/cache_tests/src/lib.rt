//! Tests of the ready cache at concrete types and lengths.
//!
//! The cache is proved from the bounds of its key and its endpoint alone, and from what its slices hold. Here its calls
//! run over every kind of key, bare service and load measure of the repository (`kinds`), and in memory of several
//! lengths (`sizes`): none, one place, two uneven slices, and more than a cache may hold.
#![tactic(auto)]

#[cfg(test)]
mod cache_walk;
#[cfg(test)]
mod kinds;
#[cfg(test)]
mod sizes;
