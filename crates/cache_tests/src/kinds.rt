// The walk with each kind of key and each bare service, weighed by requests out and by response time.
use crate::cache_walk::{Keys, walk};
use keys::Name;
use load::{Halving, PeakEwma, PendingRequests, Settings};
use std::test::Fail;
use workers::{Answer, Paced, Patterned};

const SECOND: u64 = 1_000_000_000;

fn branches() -> Keys<u32> {
    Keys {
        one: 11,
        again: 11,
        two: 12,
    }
}

fn names() -> Result<Keys<Name>, Fail> {
    Ok(Keys {
        one: Name::new(b"lon1")?,
        again: Name::new(b"LON1")?,
        two: Name::new(b"ny")?,
    })
}

fn patterned() -> Result<Patterned, Fail> {
    Ok(Patterned::new(&[Answer::Ready, Answer::Ready, Answer::Pending, Answer::Ready])?)
}

fn by_time<S: Copy>(service: S) -> Result<PeakEwma<S, Halving>, Fail> {
    let settings = Settings {
        decay: Halving,
        default_rtt: SECOND,
        decay_period: SECOND,
    };
    Ok(PeakEwma::new(service, settings, 0)?)
}

#[test]
fn branches_of_patterned_workers(rt: HostRuntime) -> Result<(), Fail> {
    walk(
        &rt,
        rt.alloc(),
        branches(),
        PendingRequests::new(patterned()?),
        0,
    )?;
    walk(&rt, rt.alloc(), branches(), by_time(patterned()?)?, 0)
}

#[test]
fn branches_of_paced_workers(rt: HostRuntime) -> Result<(), Fail> {
    walk(
        &rt,
        rt.alloc(),
        branches(),
        PendingRequests::new(Paced::new()),
        5,
    )?;
    walk(&rt, rt.alloc(), branches(), by_time(Paced::new())?, 5)
}

#[test]
fn names_of_patterned_workers(rt: HostRuntime) -> Result<(), Fail> {
    walk(
        &rt,
        rt.alloc(),
        names()?,
        PendingRequests::new(patterned()?),
        0,
    )?;
    walk(&rt, rt.alloc(), names()?, by_time(patterned()?)?, 0)
}

#[test]
fn names_of_paced_workers(rt: HostRuntime) -> Result<(), Fail> {
    walk(
        &rt,
        rt.alloc(),
        names()?,
        PendingRequests::new(Paced::new()),
        5,
    )?;
    walk(&rt, rt.alloc(), names()?, by_time(Paced::new())?, 5)
}
