#![tactic(auto)]
// The queue of refinement in a lent list of entries: keys, the vertex whose entry comes first, entering vertices.
ghost use Rattle.std.specs.Prelude.{◌≡◌, false, ℕ, ◌*◌, ◌<◌, ◌≤◌, length, IfSome};
ghost use Rattle.spec.specs.Hypergraph.{fold_over};
ghost use Rattle.spec.specs.Fm.{key_of, offered, largest, waits};
ghost use Rattle.bits.specs.Lowest.{Tests, places};
ghost use Rattle.queue.specs.Enters.{Entered, AllEntered};
ghost use Rattle.queue.specs.Open.{open_in};
ghost use Rattle.queue.specs.Queues.{queue_in, no_words, first_of};

// Stays: `graph: &Hypergraph, entries: &mut [Entry]`, `entries: &mut [Entry], draws: &mut Draws`: a struct that lends the entries and the draws would be made at each call, since
// moves between the calls write the words that the hypergraph reads.
// Stays: `base ≤ 64`, `sides < 32768`, `v < graph.now.place.vertex_count`: bounds of numbers, so that a place fits a machine word; a type of its own would be unwrapped at each use.

use bits::Digits;
use draws::Draws;
use partition::Hypergraph;

mod entries;
pub mod lists; // lists.rt: the same in three lists of any three lengths

pub use entries::Entry;

/// A gain and a little noise.
// Stays: a sum of a gain and of noise, under the name that its definition has.
pub fn key_of(gain: f64, unit: f64) -> f64
    ensures { result ≡ key_of gain unit }
{
    gain + 1e-9 * unit
}

/// Of the vertex `best` and vertex `v`, if it waits, the one whose entry comes first.
fn offer(entries: &[Entry], v: usize, best: Option<usize>) -> Option<usize>
    requires { IfSome best (λ b. b < length entries.now) }
    ensures first { first_of (queue_in entries.now no_words) result ≡ offered (queue_in entries.now no_words) v (first_of (queue_in entries.now no_words) best) }
    ensures below { IfSome result (λ b. b < length entries.now) }
{
    if entries.len() <= v {
        return best;
    }
    if !entries[v].waits {
        return best;
    }
    if let Some(b) = best {
        if !entries[v].is_above(v, &entries[b], b) {
            return best;
        }
    }
    Some(v)
}

/// Of the vertex `best` and the vertices `base` + i for each set digit i of `x`, the one whose entry comes first.
fn offer_word(entries: &[Entry], base: usize, x: u64, best: Option<usize>) -> Option<usize>
    requires { (base ≤ 64) × IfSome best (λ b. b < length entries.now) }
    ensures first { first_of (queue_in entries.now no_words) result ≡ fold_over (offered (queue_in entries.now no_words)) (places base 64 x) (first_of (queue_in entries.now no_words) best) }
    ensures below { IfSome result (λ b. b < length entries.now) }
{
    let mut first = best;
    for v in Digits::above(base, x) {
        first = offer(entries, v, first);
    }
    first
}

/// Word `k` of the vertices that are on a side and have not moved.
fn open_word(words: &[u64], sides: usize, k: usize) -> u64
    requires { (sides < 32768) × (k < 2) }
    ensures { Tests (open_in words.now sides) (k * 64) 64 result }
{
    // Stays: a slot is a place in lent words of the workspace that the C interface states.
    let at = sides * 2 + k;
    let x = cells::get_or(words, at, 0) | cells::get_or(words, at + 2, 0);
    x ^ (x & cells::get_or(words, at + 4, 0))
}

/// The vertex whose entry comes first of all. Slots `sides` and `sides + 1` hold the sides, and the next one the vertices that have moved, which do not wait.
pub fn largest(words: &[u64], sides: usize, entries: &[Entry]) -> Option<usize>
    requires { (sides < 32768) × (length entries.now ≤ 128) × ((v : ℕ) → v < length entries.now → open_in words.now sides v ≡ false → waits (queue_in entries.now no_words) v ≡ false) }
    ensures first { first_of (queue_in entries.now no_words) result ≡ largest (length entries.now) (queue_in entries.now no_words) }
    ensures all { (n : ℕ) → length entries.now ≤ n → first_of (queue_in entries.now no_words) result ≡ largest n (queue_in entries.now no_words) }
    ensures below { IfSome result (λ v. v < length entries.now) }
{
    let x = open_word(words, sides, 0);
    let y = open_word(words, sides, 1);
    let first = offer_word(entries, 0, x, None);
    offer_word(entries, 64, y, first)
}

/// Enters vertex `v` with its gain and a draw, in place of its entry so far.
pub fn enter(graph: &Hypergraph, entries: &mut [Entry], draws: &mut Draws, v: usize, stamp: u64)
    requires { v < graph.now.place.vertex_count }
    ensures { Entered graph.now.words.now graph.now.place graph.now.weights.now stamp v (queue_in entries.old draws.old) (queue_in entries.new draws.new) }
{
    let gain = graph.gain(v);
    let key = key_of(gain, draws.unit());
    cells::put(
        entries,
        v,
        Entry {
            key,
            stamp,
            waits: true,
        },
    );
}

/// Enters all vertices with the stamp 0.
// Stays: each turn writes the same entries and takes draws; `for_each` with a closure that holds both is no plainer.
pub fn enter_all(graph: &Hypergraph, entries: &mut [Entry], draws: &mut Draws)
    ensures { AllEntered graph.now.words.now graph.now.place graph.now.weights.now graph.now.place.vertex_count (queue_in entries.old draws.old) (queue_in entries.new draws.new) }
{
    // Stays: the entries may be fewer than the vertices, and a write past their end does nothing.
    for v in 0..graph.place.vertex_count {
        enter(graph, entries, draws, v, 0);
    }
}
