//! Runs published and worked values of hashing, words, samples, decays and estimates.
//!
//! Each line on standard input asks for one value, and is printed again with the answer behind it. `stdin` holds the
//! questions and `stdout` what has to come out: test vectors that were published for FNV-1a, and values that were
//! worked out in exact fractions.
//!
//! ```text
//! fnv TEXT                             FNV-1a of the text, or of no bytes where there is none
//! word PLACE                           the word number PLACE of a `HasherRng`, counted from 0
//! range START END WORD                 the number that the word gives in the range
//! sample LENGTH FIRST SECOND           the sample of two that the two words give
//! nanos NUMBER                         the nanoseconds as a float
//! halving ELAPSED PERIOD               the share that the decay keeps; squaring likewise
//! halved DEFAULT PERIOD SENT AT        the estimate after one response, from DEFAULT at the instant 0;
//!                                      squared likewise
//! ```
//!
//! Hashes, words, floats and estimates are printed as 64 bits in hexadecimal, the other numbers in decimal. A line that
//! asks for none of these ends the program with an error.
#![tactic(auto)]

ghost use Rattle.std.specs.Prelude.{◌≡◌};
ghost use Rattle.rng.specs.Fnv.{fnv_1a};
ghost use Rattle.rng.specs.Sources.{bytes_of};

use anyhow::{Context, anyhow};
use load::{Decay, Halving, RttEstimate, Squaring, nanos};
use rng::{HasherRng, ListRng, Rng, fnv1a, sample_floyd2};
use std::alloc::Global;
use std::io::{BufRead, BufReader};
use std::num::f64_to_bits_with_nan;
use std::str::SplitWhitespace;

// 64 bits in hexadecimal.
fn hex(heap: Global, bits: u64) -> anyhow::Result<String> {
    Ok(format!(in heap; "{bits:016x}")?)
}

// The next word of a line.
fn word<'a>(words: &mut SplitWhitespace<'a>) -> anyhow::Result<&'a str> {
    words.next().context("a line is too short")
}

// The number that the next word is. Each is read as it is taken, so that of two faults in a line the first one is told.
fn number(words: &mut SplitWhitespace<'_>) -> anyhow::Result<u64> {
    Ok(word(words)?.parse()?)
}

// The share that a decay keeps after a time, in periods.
fn share<D: Decay>(decay: D, words: &mut SplitWhitespace<'_>) -> anyhow::Result<u64> {
    let elapsed = nanos(number(words)?);
    let period = nanos(number(words)?);
    Ok(f64_to_bits_with_nan(decay.decay(-elapsed / period)))
}

// The estimate that starts as a default at the instant 0, after one response.
fn estimate<D: Decay>(decay: D, words: &mut SplitWhitespace<'_>) -> anyhow::Result<u64> {
    let mut estimate = RttEstimate {
        rtt_ns: nanos(number(words)?),
        update_at: 0,
    };
    let period = number(words)?;
    let sent = number(words)?;
    estimate.update(&decay, period, sent, number(words)?);
    Ok(estimate.to_bits())
}

// The source of words by hashing a counter, after so many words.
fn source_after(words: u64) -> HasherRng
    ensures { result.counter ≡ words }
{
    let mut rng = HasherRng::new();
    for _word in 0..words {
        let _ = rng.next_u64();
    }
    rng
}

// The word by hashing a counter, after so many others.
fn nth_word(place: u64) -> u64
    ensures { result ≡ fnv_1a (bytes_of place) }
{
    source_after(place).next_u64()
}

// The number of a range that the next three words give: its start, its end, and the word that is drawn by.
fn in_range(words: &mut SplitWhitespace<'_>) -> anyhow::Result<u64> {
    let range = number(words)?..number(words)?;
    let drawn_by = [number(words)?];
    Ok(ListRng::new(&drawn_by).next_range(range))
}

// The two places that the next three words give: below the first of them, drawn by the other two.
fn sample(words: &mut SplitWhitespace<'_>) -> anyhow::Result<[u64; 2]> {
    let length = number(words)?;
    let drawn_by = [number(words)?, number(words)?];
    Ok(sample_floyd2(&mut ListRng::new(&drawn_by), length))
}

// The answer to a line.
fn answer(heap: Global, line: &str) -> anyhow::Result<String> {
    let words = &mut line.split_whitespace();
    match word(words)? {
        "fnv" => hex(heap, fnv1a(words.next().unwrap_or("").as_bytes())),
        "word" => hex(heap, nth_word(number(words)?)),
        "range" => {
            let number = in_range(words)?;
            Ok(format!(in heap; "{number}")?)
        }
        "sample" => {
            let [a, b] = sample(words)?;
            Ok(format!(in heap; "{a} {b}")?)
        }
        "nanos" => hex(heap, f64_to_bits_with_nan(nanos(number(words)?))),
        "halving" => hex(heap, share(Halving, words)?),
        "squaring" => hex(heap, share(Squaring, words)?),
        "halved" => hex(heap, estimate(Halving, words)?),
        "squared" => hex(heap, estimate(Squaring, words)?),
        _ => Err(anyhow!("no such line")),
    }
}

fn main(rt: HostRuntime) -> anyhow::Result<()> {
    let heap = rt.alloc();
    for line in BufReader::new(heap, rt.stdin())?.lines(heap) {
        let line = line?;
        let value = answer(heap, line.as_str())?;
        println!(rt; "{line}: {value}")?;
    }
    Ok(())
}
