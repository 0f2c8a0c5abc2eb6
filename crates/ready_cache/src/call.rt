// Asking ready workers, handing requests to them, and telling workers that a request is over.
ghost use Rattle.std.specs.Prelude.{◌≡◌, OnErr};
ghost use Rattle.cache_model.specs.Cache.{check, check_key, call, call_key, finish, load};

use crate::{ReadyCache, entries};
use cache_model::{CallRefusal, Failed};
use service::{Endpoint, Key};

impl<'a, K: Key, S: Endpoint> ReadyCache<'a, K, S> {
    /// Asks the ready worker at a place, at the instant `at`, whether it is ready still.
    ///
    /// One that is not goes to the end of the pending ones, unless another worker of its key is pending there: then it
    /// is let go. One that failed is gone. Past the end nobody is ready.
    pub fn check_ready_index(&mut self, i: usize, at: u64) -> Result<bool, Failed<K, S::Error>>
        ensures answer { result ≡ (check K.sameness S.means at self.old i).answer }
        ensures after { self.new ≡ (check K.sameness S.means at self.old i).after }
    {
        if i >= self.ready_count {
            return Ok(false);
        }
        let asked = entries::ask(&mut self.ready[..self.ready_count], i, at);
        match asked {
            Ok(true) => {}
            Ok(false) => self.demote(i),
            Err(_) => {
                self.remove(i);
            }
        }
        asked
    }

    /// Asks the ready worker of a key, at the instant `at`, whether it is ready still, as [`ReadyCache::check_ready_index`]
    /// does. A key that no ready worker has is not ready.
    pub fn check_ready(&mut self, key: &K, at: u64) -> Result<bool, Failed<K, S::Error>>
        ensures answer { result ≡ (check_key K.sameness S.means at self.old key.now).answer }
        ensures after { self.new ≡ (check_key K.sameness S.means at self.old key.now).after }
    {
        match self.ready_index(key) {
            Some(i) => self.check_ready_index(i, at),
            None => Ok(false),
        }
    }

    /// Hands a request to the ready worker at a place, at the instant `at`, and answers its response.
    ///
    /// The worker is pending from then on, unless another of its key is pending already: then it is let go, and the end
    /// of the request will find nobody. Refused where there is no such worker, or by the worker itself.
    pub fn call_ready_index(
        &mut self,
        i: usize,
        request: S::Request,
        at: u64,
    ) -> Result<S::Response, CallRefusal>
        ensures answer { result ≡ (call K.sameness S.means at self.old i request).answer }
        ensures after { self.new ≡ (call K.sameness S.means at self.old i request).after }
        ensures refused { OnErr result (self.new ≡ self.old) }
    {
        let response = entries::call(&mut self.ready[..self.ready_count], i, request, at)?;
        self.demote(i);
        Ok(response)
    }

    /// Hands a request to the ready worker of a key, at the instant `at`, as [`ReadyCache::call_ready_index`] does.
    /// Refused where no ready worker has the key, or by the worker itself.
    pub fn call_ready(
        &mut self,
        key: &K,
        request: S::Request,
        at: u64,
    ) -> Result<S::Response, CallRefusal>
        ensures answer { result ≡ (call_key K.sameness S.means at self.old key.now request).answer }
        ensures after { self.new ≡ (call_key K.sameness S.means at self.old key.now request).after }
        ensures refused { OnErr result (self.new ≡ self.old) }
    {
        let i = self.ready_index(key).ok_or(CallRefusal::NotReady)?;
        self.call_ready_index(i, request, at)
    }
}

impl<'a, K: Copy, S: Endpoint> ReadyCache<'a, K, S> {
    /// Tells the worker with the serial, at the instant `at`, that a request that it was handed at `sent` is over;
    /// answers whether the worker is here still. One that is pending is told too, a cancelled one as well.
    pub fn finish(&mut self, serial: u64, sent: u64, at: u64) -> bool
        ensures answer { result ≡ (finish S.means at self.old serial sent).answer }
        ensures after { self.new ≡ (finish S.means at self.old serial sent).after }
    {
        entries::finish(&mut self.ready[..self.ready_count], serial, sent, at)
            || entries::finish(&mut self.pending[..self.pending_count], serial, sent, at)
    }

    /// The weight of the ready worker at a place, at the instant `at`; past the end there is none. The worker may write
    /// down what it computed.
    pub fn load_ready_index(&mut self, i: usize, at: u64) -> Option<S::Metric>
        ensures answer { result ≡ (load S.means at self.old i).answer }
        ensures after { self.new ≡ (load S.means at self.old i).after }
    {
        entries::load(&mut self.ready[..self.ready_count], i, at)
    }
}
