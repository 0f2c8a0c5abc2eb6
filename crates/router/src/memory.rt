//! Memory for a cache, a docket and the answers of a run, to be lent to them.
//!
//! A cache, a docket and a run allocate nothing: they work in slices that a caller lends. [`Memory`] makes such
//! memory on a heap, [`Memory::as_mut_slices`] lends it, and [`answers`] makes memory for the answers of a run:
//!
//! ```text
//! let blank = Entry::new(key, endpoint, 0);
//! let mut memory = Memory::new(heap, blank, 16, 64)?;
//! let mut answers = answers(heap, picks.len())?;
//! let closing = run(memory.as_mut_slices(), opening, picks, answers.as_mut_slice());
//! ```
ghost use Rattle.std.specs.Prelude.{◌≡◌, replicate, Err, IfOk};
ghost use Rattle.balance_model.specs.declared.answer.CompleteError.TheVariants.{UnknownTicket};
ghost use Rattle.balance_model.specs.declared.answer.Answer.TheVariants.{Completed};

use balance_model::{Answer, CompleteError};
use cache_model::Entry;
use docket::DocketRecord;
use std::alloc::{AllocError, Global};

/// Memory for a cache and a docket, on a heap: two lists of entries and one of records.
///
/// What stands in them is in no cache and no docket, before a run and after it.
#[derive(Drop)]
pub struct Memory<K, S> {
    /// Places for the ready workers.
    pub ready: Vec<Entry<K, S>>,
    /// Places for the pending workers.
    pub pending: Vec<Entry<K, S>>,
    /// Places for the requests that are out.
    pub records: Vec<DocketRecord>,
}

/// The slices that a cache and a docket work in, whoever owns them.
///
/// A cache holds as many workers, ready and pending together, as the shorter of its two slices has places, and at
/// most 4096; a docket holds as many requests as its slice has places, and at most 65,536.
#[derive(Drop)]
pub struct Slices<'a, K, S> {
    /// Places for the ready workers.
    pub ready: &'a mut [Entry<K, S>],
    /// Places for the pending workers.
    pub pending: &'a mut [Entry<K, S>],
    /// Places for the requests that are out.
    pub records: &'a mut [DocketRecord],
}

// A value so many times.
fn filled<T: Copy>(heap: Global, value: T, count: usize) -> Result<Vec<T>, AllocError>
    ensures { IfOk result (λ v. v.items ≡ replicate count value) }
{
    // neither `vec!` nor `repeat_n`: of a value whose type is a parameter they promise clones, and not the value itself
    let mut memory = Vec::new(heap);
    for _i in 0..count {
        memory.push(value)?;
    }
    Ok(memory)
}

/// Memory for the answers of so many picks, or want of memory.
///
/// A run writes over what stands there at first: at each place the answer of a completion that found no ticket.
pub fn answers<K: Copy, A: Copy, F: Copy>(
    heap: Global,
    picks: usize,
) -> Result<Vec<Answer<K, A, F>>, AllocError>
    ensures { IfOk result (λ v. v.items ≡ replicate picks (Completed (Err UnknownTicket))) }
{
    filled(
        heap,
        Answer::Completed(Err(CompleteError::UnknownTicket)),
        picks,
    )
}

impl<K: Copy, S: Copy> Memory<K, S> {
    /// Memory for so many workers, ready and pending together, and so many requests out; or want of memory.
    ///
    /// `blank` stands at each place for a worker at first, and an empty record at each place for a request.
    pub fn new(
        heap: Global,
        blank: Entry<K, S>,
        workers: usize,
        requests: usize,
    ) -> Result<Self, AllocError>
        ensures ready { IfOk result (λ m. m.ready.items ≡ replicate workers blank) }
        ensures pending { IfOk result (λ m. m.pending.items ≡ replicate workers blank) }
        ensures records { IfOk result (λ m. m.records.items ≡
            replicate requests (record { ticket = 0; serial = 0; sent = 0 })) }
    {
        let ready = filled(heap, blank, workers)?;
        let pending = filled(heap, blank, workers)?;
        let records = filled(heap, DocketRecord::default(), requests)?;
        Ok(Memory {
            ready,
            pending,
            records,
        })
    }

    /// The three slices, to be lent to a router, or to a cache and a docket.
    ///
    /// They hold what the vectors hold, and go back when the last of them is no longer used. What was written through
    /// them then stands in the vectors.
    pub fn as_mut_slices(&mut self) -> Slices<'_, K, S>
        ensures ready { result.ready.now ≡ self.old.ready.items }
        ensures pending { result.pending.now ≡ self.old.pending.items }
        ensures records { result.records.now ≡ self.old.records.items }
    {
        Slices {
            ready: self.ready.as_mut_slice(),
            pending: self.pending.as_mut_slice(),
            records: self.records.as_mut_slice(),
        }
    }
}
