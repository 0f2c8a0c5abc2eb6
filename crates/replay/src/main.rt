//! Answers stored runs, which are compared with what tower answered to them.
//!
//! A run stands on standard input as text: how its balancer, cache and docket are made, what the feed answers, and what
//! is picked. The page docs/BESIDE-TOWER.md says how each line reads. For each pick the program prints what it answers,
//! and after a bar each of the two lists of the cache. A run, and beside it what is printed:
//!
//! ```text
//! run                                  run
//! sizes 4 4 8                          ready 1 0 | lon:1:-:0 |
//! first 1 1                            sent 1 1 | | lon:1:-:1
//! insert lon r
//! poll 10
//! call 20 7
//! ```
//!
//! `stdin` holds runs and `stdout` tower's answers to them; `beside-tower/sample.sh` makes both.
//! [`run::Run`] reads a run and replays it.
#![tactic(auto)]

mod answer;
mod cache_router;
mod kinds;
mod pick;
mod read;
mod run;

use run::Run;
use std::io::{BufRead, BufReader};

fn main(rt: HostRuntime) -> anyhow::Result<()> {
    let heap = rt.alloc();
    let mut run: Option<Run> = None;
    for line in BufReader::new(heap, rt.stdin())?.lines(heap) {
        let line = line?;
        if line.as_str() == "run" {
            if let Some(run) = run.replace(Run::new(heap)) {
                rt.print(run.replay(heap)?)?;
            }
        } else {
            // what stands before the first run is read, and in no run
            match run.as_mut() {
                Some(run) => run.read(heap, line.as_str())?,
                None => Run::new(heap).read(heap, line.as_str())?,
            }
        }
    }
    if let Some(run) = run {
        rt.print(run.replay(heap)?)?;
    }
    Ok(())
}
