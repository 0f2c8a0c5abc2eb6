// What a cache does with one of its lists.
ghost use Rattle.std.specs.Prelude.{◌≡◌, ◌<◌, length, IfSome, OnErr, position};
ghost use Rattle.cache_model.specs.Entries.{has_serial, any_live, cancel, live_of, ready_place};
ghost use Rattle.cache_model.specs.Lists.{ask_in, call_in, load_in, finish_in};

use cache_model::{CallRefusal, Entry, Failed};
use service::{Endpoint, Key, Readiness};

// Asks the entry at a place whether it is ready.
pub fn ask<K: Copy, S: Endpoint>(
    items: &mut [Entry<K, S>],
    i: usize,
    at: u64,
) -> Result<bool, Failed<K, S::Error>>
    requires { i < length items.old }
    ensures answer { result ≡ (ask_in S.means at items.old i).answer }
    ensures after { items.new ≡ (ask_in S.means at items.old i).after }
{
    match items[i].endpoint.poll_ready(at) {
        Readiness::Ready => Ok(true),
        Readiness::Pending => Ok(false),
        Readiness::Failed(error) => Err(Failed {
            key: items[i].key,
            error,
        }),
    }
}

// Hands a request to the entry at a place; a refusal changes nothing.
pub fn call<K: Copy, S: Endpoint>(
    items: &mut [Entry<K, S>],
    i: usize,
    request: S::Request,
    at: u64,
) -> Result<S::Response, CallRefusal>
    ensures answer { result ≡ (call_in S.means at items.old i request).answer }
    ensures after { items.new ≡ (call_in S.means at items.old i request).after }
    ensures refused { OnErr result (items.new ≡ items.old) }
{
    if i >= items.len() {
        return Err(CallRefusal::NotReady);
    }
    let response = items[i].endpoint.call(request, at)?;
    Ok(response)
}

// Reads the weight of the entry at a place.
pub fn load<K: Copy, S: Endpoint>(items: &mut [Entry<K, S>], i: usize, at: u64) -> Option<S::Metric>
    ensures answer { result ≡ (load_in S.means at items.old i).answer }
    ensures after { items.new ≡ (load_in S.means at items.old i).after }
{
    if i >= items.len() {
        return None;
    }
    Some(items[i].endpoint.load(at))
}

// Tells the first entry with the serial that a request sent at `sent` is over, and answers whether there is one.
pub fn finish<K: Copy, S: Endpoint>(
    items: &mut [Entry<K, S>],
    serial: u64,
    sent: u64,
    at: u64,
) -> bool
    ensures answer { result ≡ (finish_in S.means at items.old serial sent).answer }
    ensures after { items.new ≡ (finish_in S.means at items.old serial sent).after }
{
    let Some(i) = serial_position(items, serial) else {
        return false;
    };
    items[i].endpoint.finish(sent, at);
    true
}

// Marks the uncancelled entry of the key cancelled, and answers whether there is one.
pub fn cancel<K: Key, S: Copy>(items: &mut [Entry<K, S>], key: &K) -> bool
    ensures answer { result ≡ any_live K.sameness key.now items.old }
    ensures after { items.new ≡ cancel K.sameness key.now items.old }
{
    let Some(i) = live_position(items, key) else {
        return false;
    };
    items[i].cancelled = true;
    true
}

// The place of the first entry of the key.
pub fn key_position<K: Key, S: Copy>(items: &[Entry<K, S>], key: &K) -> Option<usize>
    ensures answer { result ≡ ready_place K.sameness key.now items.now }
    ensures within { IfSome result (λ i. i < length items.now) }
{
    lists::position(items, |entry| key.same(&entry.key))
}

// The place of the first entry of the key that is not cancelled.
pub fn live_position<K: Key, S: Copy>(items: &[Entry<K, S>], key: &K) -> Option<usize>
    ensures answer { result ≡ position (live_of K.sameness key.now) items.now }
    ensures within { IfSome result (λ i. i < length items.now) }
{
    lists::position(items, |entry| key.same(&entry.key) && !entry.cancelled)
}

// The place of the first entry with the serial.
fn serial_position<K: Copy, S: Copy>(items: &[Entry<K, S>], serial: u64) -> Option<usize>
    ensures answer { result ≡ position (has_serial serial) items.now }
    ensures within { IfSome result (λ i. i < length items.now) }
{
    lists::position(items, |entry| entry.serial == serial)
}
