//! A desk's week on one page: the same requests for prices, given to two routers.
//!
//! The first router weighs its workers by the requests that they have out, for quotes, the second by response time, for
//! revaluation. On Thursday two workers are withdrawn and two added. What each router is to do is made by
//! [`routers::picks`], one list for both; [`routers::quotes`] and [`routers::revaluation`] run it and read the tickets off
//! the answers. It takes no arguments and no input:
//!
//! ```text
//! cd crates/desk && rt run
//! ```
//!
//! It prints the requests of a day, then both lists of tickets side by side, and for each router what each worker got.
#![tactic(auto)]

mod routers;
mod tally;
mod ticket;
mod week;

use balance_model::Pick;
use std::fmt;
use tally::Tally;
use ticket::Ticket;

// A ticket on its side of the page, and blanks where there is none.
#[derive(Clone, Copy)]
struct Side<'a>(Option<&'a Ticket>);

impl fmt::Display for Side<'_> {
    fn fmt<W: fmt::Write>(&self, f: &mut fmt::Formatter<W>) -> fmt::Result {
        match self.0 {
            Some(ticket) => write!(f, "{ticket}"),
            None => write!(f, "{:<32}", ""),
        }
    }
}

// The requests of a day, which are the same each day.
fn print_requests(rt: &HostRuntime) -> anyhow::Result<()> {
    println!(rt; "Requests of each day: minute, broker, bond, seconds to price")?;
    for request in week::requests(0) {
        println!(rt; "{request}")?;
    }
    Ok(())
}

// Both lists of tickets, side by side.
fn print_lists(rt: &HostRuntime, quotes: &[Ticket], revaluation: &[Ticket]) -> anyhow::Result<()> {
    println!(rt; "")?;
    println!(rt; "quotes, by requests out          | revaluation, by response time")?;
    println!(rt; "tkt sent at worker answered end  | tkt sent at worker answered end")?;
    // by place, since a zip ends with the shorter list
    for i in 0..quotes.len().max(revaluation.len()) {
        let left = Side(quotes.get(i));
        let right = Side(revaluation.get(i));
        println!(rt; "{left} | {right}")?;
    }
    Ok(())
}

// A row for each worker: sent is completed and still out and lost together.
fn print_table(rt: &HostRuntime, title: &str, tickets: &[Ticket]) -> anyhow::Result<()> {
    println!(rt; "")?;
    println!(rt; "{title}")?;
    println!(rt; "worker sent completed still out lost")?;
    for (serial, name) in (1u64..).zip(week::workers()) {
        let tally = Tally::of(tickets, serial);
        println!(rt; "{name:<6} {tally}")?;
    }
    Ok(())
}

// Runs the picks through both routers, and prints what came of them.
fn print_week(rt: &HostRuntime, picks: &[Pick<u64>]) -> anyhow::Result<()> {
    let heap = rt.alloc();
    let quotes = routers::quotes(heap, picks)?;
    let revaluation = routers::revaluation(heap, picks)?;
    print_lists(rt, quotes.as_slice(), revaluation.as_slice())?;
    print_table(rt, "quotes", quotes.as_slice())?;
    print_table(rt, "revaluation", revaluation.as_slice())
}

fn main(rt: HostRuntime) -> anyhow::Result<()> {
    let picks = routers::picks(rt.alloc())?;
    print_requests(&rt)?;
    print_week(&rt, picks.as_slice())
}
