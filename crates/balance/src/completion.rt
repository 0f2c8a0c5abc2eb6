ghost use Rattle.std.specs.Prelude.{◌≡◌, OnErr};
ghost use Rattle.balance_model.specs.Balance.{complete};

use balance_model::{CompleteError, Completion};
use docket::Docket;
use ready_cache::ReadyCache;
use service::{Endpoint, Key};

/// Takes the ticket's record from the docket and tells the worker that its request is over, at an instant in
/// nanoseconds (tower: the drop of a completion's handle).
///
/// Answers whether the worker is still in the cache. A ticket without a record is refused, and then nothing changes.
#[tactic(auto, using(balance_model::proofs::Completions::complete_unknown, docket::proofs::Removals::removed_none))]
pub fn complete<K: Key, S: Endpoint>(
    cache: &mut ReadyCache<'_, K, S>,
    docket: &mut Docket<'_>,
    ticket: u64,
    at: u64,
) -> Result<Completion, CompleteError>
    ensures answer { result ≡ (complete S.means at cache.old docket.old ticket).answer }
    ensures cache { cache.new ≡ (complete S.means at cache.old docket.old ticket).cache }
    ensures docket { docket.new ≡ (complete S.means at cache.old docket.old ticket).docket }
    ensures same_cache { OnErr result (cache.new ≡ cache.old) }
    ensures same_docket { OnErr result (docket.new ≡ docket.old) }
{
    let Some(record) = docket.remove(ticket) else {
        return Err(CompleteError::UnknownTicket);
    };
    if cache.finish(record.serial, record.sent, at) {
        Ok(Completion::Held)
    } else {
        Ok(Completion::Gone)
    }
}
