// The balancer, cache and docket of a run, to which its picks are applied.
use crate::answer::{Answer, List};
use crate::kinds::{MakeWorker, Worker};
use crate::pick::{CachePick, Chosen, Pick};
use crate::run::Run;
use balance_model::{Answer as BalancerAnswer, CallError};
use cache_model::{CallRefusal, Entry, Failed};
use discover::Discover;
use keys::Name;
use rng::Rng;
use router::{Memory, Opening, Router};
use service::Endpoint;
use std::fmt;

/// A router whose cache is also called by itself, as a run's picks of the cache want it.
///
/// It prints as both lists of the cache, the ready and the pending, each after a bar.
#[derive(Drop)]
pub struct CacheRouter<'a, D: Discover, R> {
    router: Router<'a, Name, D::Service, D, R>,
}

impl<'a, D, R> CacheRouter<'a, D, R>
where
    D: Discover<Key = Name, Error = u32>,
    D::Service: Worker,
    R: Rng,
{
    /// A new router as the run says it, in this memory.
    pub fn new(run: &Run, feed: D, words: R, memory: &'a mut Memory<Name, D::Service>) -> Self {
        let opening = Opening {
            feed,
            words,
            budget: run.budget,
            first_serial: run.first_serial,
            first_ticket: run.first_ticket,
        };
        CacheRouter {
            router: Router::new(memory.as_mut_slices(), opening),
        }
    }

    /// Applies a pick, and writes a line: what it answered, and both lists.
    pub fn apply_and_write<M>(
        &mut self,
        pick: Pick,
        maker: M,
        out: &mut String,
    ) -> anyhow::Result<()>
    where
        M: MakeWorker<Worker = D::Service>,
    {
        let answer = self.apply(pick, maker)?;
        writeln!(out, "{answer}{self}")?;
        Ok(())
    }

    // Applies a pick; a push takes in the worker that `maker` makes of its pattern at its instant.
    fn apply<M>(
        &mut self,
        pick: Pick,
        maker: M,
    ) -> anyhow::Result<Answer<<D::Service as Endpoint>::Error>>
    where
        M: MakeWorker<Worker = D::Service>,
    {
        match pick {
            Pick::Balancer(pick) => {
                let pick = pick.map(|number| <D::Service as Worker>::request(number));
                Ok(Answer::Balancer(self.router.step(pick)))
            }
            Pick::Cache(pick) => self.apply_to_cache(pick, maker),
        }
    }

    // Applies a pick of the cache, as `apply` does.
    fn apply_to_cache<M>(
        &mut self,
        pick: CachePick,
        maker: M,
    ) -> anyhow::Result<Answer<<D::Service as Endpoint>::Error>>
    where
        M: MakeWorker<Worker = D::Service>,
    {
        let cache = &mut self.router.cache;
        match pick {
            CachePick::Push { at, key, worker } => {
                let worker = maker.make_worker(worker, at)?;
                Ok(Answer::Push(cache.push(key, worker)))
            }
            CachePick::Evict { key } => Ok(Answer::Evict(cache.evict(&key))),
            CachePick::Pass { at } => {
                let answer = cache.poll_pending(at);
                Ok(Answer::Pass(answer, cache.resume()))
            }
            CachePick::Check { at, chosen } => Ok(Answer::Check(self.check(chosen, at))),
            CachePick::Send {
                at,
                chosen,
                request,
            } => Ok(Answer::Balancer(BalancerAnswer::Called(self.send(chosen, request, at)))),
        }
    }

    // Asks a ready worker whether it still is.
    fn check(
        &mut self,
        chosen: Chosen,
        at: u64,
    ) -> Result<bool, Failed<Name, <D::Service as Endpoint>::Error>> {
        match chosen {
            Chosen::Place(place) => self.router.cache.check_ready_index(place, at),
            Chosen::Key(key) => self.router.cache.check_ready(&key, at),
        }
    }

    // Hands a request to a ready worker, and notes it.
    fn send(&mut self, chosen: Chosen, number: u64, at: u64) -> Result<(u64, u64), CallError> {
        let request = <D::Service as Worker>::request(number);
        let cache = &mut self.router.cache;
        let (entry, response) = match chosen {
            Chosen::Place(place) => (
                cache.get_ready_index(place),
                cache.call_ready_index(place, request, at)?,
            ),
            Chosen::Key(key) => (cache.get_ready(&key), cache.call_ready(&key, request, at)?),
        };
        let serial = entry.ok_or(CallRefusal::NotReady)?.serial;
        let ticket = self.router.docket.note(serial, at)?;
        Ok((ticket, response))
    }
}

impl<D, R> fmt::Display for CacheRouter<'_, D, R>
where
    D: Discover<Key = Name, Error = u32>,
    D::Service: Worker,
    R: Rng,
{
    fn fmt<W: fmt::Write>(&self, f: &mut fmt::Formatter<W>) -> fmt::Result {
        let ready = List(self.router.cache.iter_ready().as_slice());
        let pending = List(self.router.cache.iter_pending().as_slice());
        write!(f, " |{ready} |{pending}")
    }
}
