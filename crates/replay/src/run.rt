// A run: how its text says it, and how it is replayed.
use crate::cache_router::CacheRouter;
use crate::kinds::{Bare, MakeWorker, PeakEwmaMaker, PendingRequestsMaker, Worker, valid};
use crate::pick::Pick;
use crate::read::Words;
use cache_model::Entry;
use discover::{Discover, Discovered, ListFeed};
use keys::Name;
use load::{Decay, Halving, PeakEwma, PeakEwmaDiscover, PendingRequests, Settings, Squaring};
use rng::{HasherRng, ListRng, Rng};
use router::Memory;
use std::alloc::Global;
use workers::{Paced, Patterned};

/// By what workers are weighed.
#[derive(Clone, Copy)]
pub enum Measure {
    /// By requests out.
    Count,
    /// By response time, halved in each period.
    Halving(Settings<Halving>),
    /// By response time, with the decay by squaring.
    Squaring(Settings<Squaring>),
}

/// Which bare services the workers are.
#[derive(Clone, Copy)]
pub enum Workers {
    Patterned,
    Paced,
}

impl Workers {
    // The workers that the next word says: paced ones by `paced`, and patterned ones by any other.
    fn read(words: &mut Words<'_>) -> anyhow::Result<Self> {
        match words.word()? {
            "paced" => Ok(Workers::Paced),
            _ => Ok(Workers::Patterned),
        }
    }
}

/// Where words come from.
#[derive(Clone, Copy)]
pub enum Source {
    /// From hashing a counter.
    Hash,
    /// From the run's list, which stays with the run whatever its source: a later line may turn back to it.
    List,
}

/// A run, as far as its text was read.
#[derive(Drop)]
pub struct Run {
    pub measure: Measure,
    pub workers: Workers,
    pub source: Source,
    /// The words of the list.
    pub words: Vec<u64>,
    /// The places of each of the cache's two slices.
    pub places: usize,
    /// The places for records of the docket.
    pub records: usize,
    /// How many answers of the feed a poll reads at most.
    pub budget: u32,
    pub first_serial: u64,
    pub first_ticket: u64,
    /// The feed's answers; what comes and goes has a pattern, which a paced worker does not look at.
    pub feed: Vec<Discovered<Name, Patterned, u32>>,
    pub picks: Vec<Pick>,
}

impl Run {
    /// A run of which nothing is said yet: workers by pattern, weighed by requests out, and no word, place or pick.
    pub fn new(heap: Global) -> Self {
        Run {
            measure: Measure::Count,
            workers: Workers::Patterned,
            source: Source::List,
            words: Vec::new(heap),
            places: 0,
            records: 0,
            budget: 0,
            first_serial: 0,
            first_ticket: 0,
            feed: Vec::new(heap),
            picks: Vec::new(heap),
        }
    }

    /// Reads one line of the run's text: it says how the run is made, or adds an answer of the feed or a pick.
    pub fn read(&mut self, heap: Global, line: &str) -> anyhow::Result<()> {
        let mut words = Words::of(line);
        let kind = words.word()?;
        match kind {
            "load" => self.measure = words.measure()?,
            "workers" => self.workers = Workers::read(&mut words)?,
            "words" => self.read_words(&mut words)?,
            "sizes" => {
                self.places = words.number()?;
                self.records = words.number()?;
                self.budget = words.number()?;
            }
            "first" => {
                self.first_serial = words.number()?;
                self.first_ticket = words.number()?;
            }
            "feed" | "picks" => {}
            _ => self.read_event(heap, kind, &mut words)?,
        }
        Ok(())
    }

    // Reads where words come from, and the words of a list.
    fn read_words(&mut self, words: &mut Words<'_>) -> anyhow::Result<()> {
        if words.word()? == "hash" {
            self.source = Source::Hash;
            return Ok(());
        }
        self.source = Source::List;
        let count: usize = words.number()?;
        for _word in 0..count {
            self.words.push(words.number()?)?;
        }
        Ok(())
    }

    // Reads a line that adds an answer of the feed, or a pick.
    fn read_event(
        &mut self,
        heap: Global,
        kind: &str,
        words: &mut Words<'_>,
    ) -> anyhow::Result<()> {
        match kind {
            "insert" => self
                .feed
                .push(Discovered::Insert(words.name()?, words.worker(heap)?))?,
            "remove" => self.feed.push(Discovered::Remove(words.name()?))?,
            "pending" => self.feed.push(Discovered::Pending)?,
            "end" => self.feed.push(Discovered::End)?,
            "fault" => self.feed.push(Discovered::Fault(words.number()?))?,
            _ => self.picks.push(Pick::read(heap, kind, words)?)?,
        }
        Ok(())
    }
}

impl Run {
    /// Replays the run, and answers what is printed.
    ///
    /// The kind of worker, the source of words and the load measure are types; each function below fixes one of them.
    pub fn replay(&self, heap: Global) -> anyhow::Result<String> {
        match self.workers {
            Workers::Patterned => { self.replay_workers(heap, valid(Patterned::new(&[]))?) }
            Workers::Paced => self.replay_workers(heap, Paced::new()),
        }
    }

    // Replays the run with this kind of bare service.
    fn replay_workers<B: Bare>(&self, heap: Global, bare: B) -> anyhow::Result<String> {
        match self.source {
            Source::Hash => self.replay_words(heap, bare, HasherRng::new()),
            Source::List => self.replay_words(heap, bare, ListRng::new(self.words.as_slice())),
        }
    }

    // Replays the run with this source of words.
    fn replay_words<B: Bare, R: Rng + Drop>(
        &self,
        heap: Global,
        bare: B,
        words: R,
    ) -> anyhow::Result<String> {
        match self.measure {
            Measure::Count => self.replay_by_count(heap, bare, words),
            Measure::Halving(settings) => self.replay_by_time(heap, bare, settings, words),
            Measure::Squaring(settings) => self.replay_by_time(heap, bare, settings, words),
        }
    }

    // Replays the run with workers that are weighed by requests out.
    fn replay_by_count<B: Bare, R: Rng + Drop>(
        &self,
        heap: Global,
        bare: B,
        words: R,
    ) -> anyhow::Result<String> {
        let answers: Vec<Discovered<Name, PendingRequests<B>, u32>> = self
            .feed
            .iter()
            .map(|answer| answer.map(|pattern| PendingRequests::new(bare.with(pattern))))
            .collect(heap)?;
        self.replay_feed(
            heap,
            ListFeed::new(answers.as_slice()),
            words,
            PendingRequests::new(bare),
            PendingRequestsMaker { bare },
        )
    }

    // Replays the run with workers that are weighed by response time.
    fn replay_by_time<B: Bare, D: Decay, R: Rng + Drop>(
        &self,
        heap: Global,
        bare: B,
        settings: Settings<D>,
        words: R,
    ) -> anyhow::Result<String> {
        let answers: Vec<Discovered<Name, B, u32>> = self
            .feed
            .iter()
            .map(|answer| answer.map(|pattern| bare.with(pattern)))
            .collect(heap)?;
        let feed = valid(PeakEwmaDiscover::new(ListFeed::new(answers.as_slice()), settings))?;
        let blank = valid(PeakEwma::new(bare, settings, 0))?;
        self.replay_feed(heap, feed, words, blank, PeakEwmaMaker { bare, settings })
    }

    // Applies the picks to a newly made balancer, cache and docket, and writes after each what it answered and both
    // lists. Memory holds `blank` at first.
    fn replay_feed<D, R, M>(
        &self,
        heap: Global,
        feed: D,
        words: R,
        blank: D::Service,
        maker: M,
    ) -> anyhow::Result<String>
    where
        D: Discover<Key = Name, Error = u32> + Drop,
        D::Service: Worker,
        R: Rng + Drop,
        M: MakeWorker<Worker = D::Service>,
    {
        let key = valid(Name::new(b"0"))?;
        let mut memory = Memory::new(heap, Entry::new(key, blank, 0), self.places, self.records)?;
        let mut router = CacheRouter::new(self, feed, words, &mut memory);
        let mut out = String::new(heap);
        out.push_str("run\n")?;
        for pick in self.picks.iter() {
            router.apply_and_write(*pick, maker, &mut out)?;
        }
        Ok(out)
    }
}
