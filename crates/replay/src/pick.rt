// What is picked in a run: calls of the balancer, and of its cache.
use crate::read::Words;
use anyhow::anyhow;
use balance_model::Pick as BalancerPick;
use keys::Name;
use std::alloc::Global;
use workers::Patterned;

/// A ready worker that a pick of the cache names.
#[derive(Clone, Copy)]
pub enum Chosen {
    /// By its place among the ready.
    Place(usize),
    /// By its key.
    Key(Name),
}

/// A call of the cache itself, its instant in nanoseconds.
#[derive(Clone, Copy)]
pub enum CachePick {
    /// A new worker, which is made at that instant. A paced one does not look at the pattern.
    Push {
        at: u64,
        key: Name,
        worker: Patterned,
    },
    /// A worker is withdrawn.
    Evict {
        key: Name,
    },
    /// The pending workers are asked.
    Pass {
        at: u64,
    },
    /// A ready worker is asked whether it still is.
    Check {
        at: u64,
        chosen: Chosen,
    },
    /// A ready worker is sent a request, which is noted on the docket.
    Send {
        at: u64,
        chosen: Chosen,
        request: u64,
    },
}

/// A pick of the balancer, with a number for its request, or a pick of its cache.
#[derive(Clone, Copy)]
pub enum Pick {
    Balancer(BalancerPick<u64>),
    Cache(CachePick),
}

impl Pick {
    /// The pick that a line says: `kind` is its first word, and `words` are those behind it.
    pub fn read(heap: Global, kind: &str, words: &mut Words<'_>) -> anyhow::Result<Self> {
        if kind == "evict" {
            let key = words.name()?;
            return Ok(Pick::Cache(CachePick::Evict { key }));
        }
        let at = words.number()?;
        match kind {
            "poll" => Ok(Pick::Balancer(BalancerPick::Poll { at })),
            "call" => Ok(Pick::Balancer(BalancerPick::Call {
                request: words.number()?,
                at,
            })),
            "done" => Ok(Pick::Balancer(BalancerPick::Complete {
                ticket: words.number()?,
                at,
            })),
            _ => Ok(Pick::Cache(CachePick::read(heap, kind, at, words)?)),
        }
    }
}

impl CachePick {
    // The pick of the cache at an instant that a line says.
    fn read(heap: Global, kind: &str, at: u64, words: &mut Words<'_>) -> anyhow::Result<Self> {
        match kind {
            "push" => Ok(CachePick::Push {
                at,
                key: words.name()?,
                worker: words.worker(heap)?,
            }),
            "pass" => Ok(CachePick::Pass { at }),
            "check" => Ok(CachePick::Check {
                at,
                chosen: Chosen::Place(words.number()?),
            }),
            "checkkey" => Ok(CachePick::Check {
                at,
                chosen: Chosen::Key(words.name()?),
            }),
            "send" => Ok(CachePick::Send {
                at,
                chosen: Chosen::Place(words.number()?),
                request: words.number()?,
            }),
            "sendkey" => Ok(CachePick::Send {
                at,
                chosen: Chosen::Key(words.name()?),
                request: words.number()?,
            }),
            _ => Err(anyhow!("no such line")),
        }
    }
}
