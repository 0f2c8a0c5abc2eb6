// Sending a request to the worker that the latest poll named.
ghost use Rattle.std.specs.Prelude.{◌≡◌, OnErr};
ghost use Rattle.balance_model.specs.Balance.{call, call_answer};
ghost use Rattle.balance.specs.Steps.{state};

use crate::Balance;
use balance_model::{CallError, Kinds};
use cache_model::CallRefusal;
use discover::Discover;
use docket::Docket;
use ready_cache::ReadyCache;
use rng::Rng;
use service::Endpoint;

impl<D: Discover, R: Rng> Balance<D, R>
where
    D::Service: Endpoint,
{
    /// Hands a request to the worker that the latest poll named, at an instant in nanoseconds, and answers its ticket
    /// and the response. The worker then has to be asked again: selection and fresh mark are cleared. A refusal
    /// says why the request was not sent, and changes nothing.
    pub fn call(
        &mut self,
        cache: &mut ReadyCache<'_, D::Key, D::Service>,
        docket: &mut Docket<'_>,
        request: <D::Service as Endpoint>::Request,
        at: u64,
    ) -> Result<(u64, <D::Service as Endpoint>::Response), CallError>
        ensures answer { let before = state self.old cache.old docket.old in
            result ≡ call_answer (call ⟦<D as Kinds<R>>⟧.kinds at before request).answer }
        ensures after { let before = state self.old cache.old docket.old in
            let made = call ⟦<D as Kinds<R>>⟧.kinds at before request in
            state self.new cache.new docket.new ≡ made.after }
        ensures same_balancer { OnErr result (self.new ≡ self.old) }
        ensures same_cache { OnErr result (cache.new ≡ cache.old) }
        ensures same_docket { OnErr result (docket.new ≡ docket.old) }
    {
        if !self.fresh {
            return Err(CallError::NotFresh);
        }
        docket.admits()?;
        let place = self.selected.ok_or(CallRefusal::NotReady)?;
        let entry = cache.get_ready_index(place).ok_or(CallRefusal::NotReady)?;
        let response = cache.call_ready_index(place, request, at)?;
        let ticket = docket.note(entry.serial, at)?;
        self.selected = None;
        self.fresh = false;
        Ok((ticket, response))
    }
}
