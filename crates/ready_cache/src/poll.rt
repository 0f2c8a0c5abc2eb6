// A pass over the pending workers: what stays moves to the front of the same list.
ghost use Rattle.std.specs.Prelude.{◌≡◌, ℕ, ◌+◌, ◌-◌, ◌<◌, ◌≤◌, length, IfErr, MatchResult, slice_index_or, slice_set};
ghost use Rattle.cache_model.specs.Cache.{poll_pending};
ghost use Rattle.ready_cache.specs.Passing.{turn, Promotion, NoRoom, Admission};

use crate::places::Places;
use crate::{ReadyCache, entries};
use cache_model::{Entry, Failed, NoPlace, PendingError};
use service::{Endpoint, Key, Poll};

// Copies the item at one place to another before it; one that is at its place already is not touched.
fn move_down<T: Copy>(items: &mut [T], from: usize, to: usize)
    requires before { to ≤ from }
    requires within { from < length items.old }
    ensures { (x : T) → x ≡ slice_index_or items.old from x → items.new ≡ slice_set items.old to x }
{
    if to < from {
        items[to] = items[from];
    }
}

// Comes to the next entry, and answers it if it is ready, or how it failed. One that is pending moves to the front, and a
// cancelled one is passed over: neither is in the answer.
fn turn<K: Copy, S: Endpoint>(
    items: &mut [Entry<K, S>],
    places: &mut Places,
    at: u64,
) -> Option<Result<Entry<K, S>, Failed<K, S::Error>>>
    requires behind { places.old.write ≤ places.old.read }
    requires within { places.old.read < length items.old }
    ensures answer { result ≡ (turn S.means at items.old places.old).answer }
    ensures memory { items.new ≡ (turn S.means at items.old places.old).memory }
    ensures places { places.new ≡ (turn S.means at items.old places.old).places }
{
    let read = places.read;
    if items[read].cancelled {
        places.read += 1;
        return None;
    }
    match entries::ask(items, read, at) {
        // as the value of the `match` the entry would be copied once more
        Ok(true) => return Some(Ok(items[read])),
        Ok(false) => {
            move_down(items, read, places.write);
            places.read += 1;
            places.write += 1;
            None
        }
        Err(failed) => {
            places.read += 1;
            Some(Err(failed))
        }
    }
}

// Puts the entry in the place of its key's one among the first `len`, or after them, if there is memory; answers how many
// there are then.
fn promote<K: Key, S: Endpoint>(
    items: &mut [Entry<K, S>],
    len: usize,
    entry: Entry<K, S>,
) -> Result<usize, NoPlace<K>>
    requires { len ≤ length items.old }
    ensures list { MatchResult result
        (Promotion K.sameness items.old items.new entry len)
        (λ _. NoRoom K.sameness items.old items.new entry len) }
    ensures fault { IfErr result (λ no_place. no_place.key ≡ entry.key) }
{
    if let Some(i) = entries::key_position(&items[..len], &entry.key) {
        let held = items[i];
        items[i] = Entry {
            key: held.key,
            cancelled: held.cancelled,
            ..entry
        };
        return Ok(len);
    }
    if len >= items.len() {
        return Err(NoPlace { key: entry.key });
    }
    items[len] = entry;
    Ok(len + 1)
}

// Takes up what a turn answered: an entry that is ready joins the first ones of `items`, and the pass goes on; a worker
// that failed ends the pass.
fn admit<K: Key, S: Endpoint>(
    items: &mut [Entry<K, S>],
    places: &mut Places,
    answer: Result<Entry<K, S>, Failed<K, S::Error>>,
) -> Result<(), PendingError<K, S::Error>>
    requires ready_within { places.old.ready ≤ length items.old }
    requires next_fits { places.old.read < usize.MAX }
    ensures { Admission K.sameness items.old items.new places.old places.new answer result }
{
    places.ready = promote(items, places.ready, answer?)?;
    places.read += 1;
    Ok(())
}

impl<'a, K: Key, S: Endpoint> ReadyCache<'a, K, S> {
    /// Asks the pending workers at the instant `at`, in order, from where the last pass ended: those that are ready join
    /// the ready ones, the others stay in their order, and cancelled ones are let go.
    ///
    /// A pass that came to the last answers `Ready` if nobody is pending then, and else `Pending`; the next one starts
    /// over. A fault ends the pass, and the next one goes on behind it: a worker that failed is gone. One that is ready
    /// and for which the ready list has no memory stays, and the next pass begins with it.
    pub fn poll_pending(&mut self, at: u64) -> Result<Poll<()>, PendingError<K, S::Error>>
        ensures answer { result ≡ (poll_pending K.sameness S.means at self.old).answer }
        ensures after { self.new ≡ (poll_pending K.sameness S.means at self.old).after }
    {
        let capacity = self.capacity();
        let end = self.pending_count;
        let from = self.resume.min(end);
        let mut places = Places {
            ready: self.ready_count,
            read: from,
            write: from,
        };
        let ready = &mut self.ready[..capacity];
        let pending = &mut self.pending[..end];
        let mut outcome: Result<(), PendingError<K, S::Error>> = Ok(());
        while outcome.is_ok() && places.read < pending.len() {
            if let Some(answer) = turn(pending, &mut places, at) {
                outcome = admit(ready, &mut places, answer);
            }
        }
        // the gap between what stays and what was not come to is closed, after a fault too
        self.pending.copy_within(places.read..end, places.write);
        self.ready_count = places.ready;
        self.pending_count = places.write + (end - places.read);
        self.resume = places.write;
        outcome?;
        self.resume = 0;
        if self.pending_count == 0 {
            return Ok(Poll::Ready(()));
        }
        Ok(Poll::Pending)
    }
}
