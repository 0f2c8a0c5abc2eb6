// A cache with room for one worker.
ghost use Rattle.std.specs.Prelude.{◌≡◌, Ok, Err};
ghost use Rattle.cache_model.specs.declared.error.PushRefusal.TheVariants.{Full};

use cache_model::{Entry, PushError};
use load::PendingRequests;
use ready_cache::ReadyCache;
use workers::Paced;

// The answers to two pushes; the first serial is 7.
pub(crate) fn two_pushes() -> (Result<u64, PushError<u32>>, Result<u64, PushError<u32>>)
    ensures first { result.0 ≡ Ok 7 }
    ensures second { result.1 ≡ Err (record { key = 2; refusal = Full }) }
{
    let worker = PendingRequests::new(Paced::new());
    let mut ready = [Entry::new(0, worker, 0); 1];
    let mut pending = ready;
    let mut cache = ReadyCache::new(&mut ready, &mut pending, 7);
    (cache.push(1, worker), cache.push(2, worker))
}
