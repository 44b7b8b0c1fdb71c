// The queue of refinement in three lent lists of any three lengths: keys, stamps and flags, each by vertex. A flag of 1 waits, and any other does not. Past the end of
// its list a key or a stamp is 0, and no vertex waits.
ghost use Rattle.std.specs.Prelude.{◌≡◌, false, ℕ, ◌<◌, ◌≤◌, length, map, IfSome};
ghost use Rattle.spec.specs.Lists.{range};
ghost use Rattle.spec.specs.Fm.{largest, waits};
ghost use Rattle.queue.specs.Apart.{entry_apart};
ghost use Rattle.queue.specs.Enters.{Entered, AllEntered};
ghost use Rattle.queue.specs.Open.{open_in};
ghost use Rattle.queue.specs.Queues.{queue_of, no_words, first_of};

// Stays: `keys, stamps, waiting`: the three lists are of three lengths, and a flag is any byte, so they are no list of entries; a struct that lends them and the draws would be
// made at each call.

use crate::Entry;
use draws::Draws;
use partition::Hypergraph;

/// Puts at each place what the three lists have of that vertex.
// Stays: by place, as of a list that is written through a zip only the length is known afterwards.
fn gather(entries: &mut [Entry], keys: &[f64], stamps: &[u64], waiting: &[u8])
    ensures { entries.new ≡ map (entry_apart keys.now stamps.now waiting.now) (range (length entries.old)) }
{
    for (v, entry) in entries.iter_mut().enumerate() {
        *entry = Entry {
            key: cells::get_or(keys, v, 0.0),
            stamp: cells::get_or(stamps, v, 0),
            waits: cells::get_or(waiting, v, 0) == 1,
        };
    }
}

/// Of the first `n` vertices, at most 128, the one whose entry comes first. Slots `sides`, below 32,768, and `sides + 1` hold the sides, and the next one the
/// vertices that have moved, which do not wait.
/// A flag of 1 waits, and any other does not. Past the end of its list a key or a stamp is 0, and no vertex waits.
// Stays: the three lists are of three lengths, so `n` is the length of none; it is bounded by the entries of the local list.
pub fn largest(
    words: &[u64],
    sides: usize,
    keys: &[f64],
    stamps: &[u64],
    waiting: &[u8],
    n: usize,
) -> Option<usize>
    requires { (sides < 32768) × (n ≤ 128) × ((v : ℕ) → v < n → open_in words.now sides v ≡ false → waits (queue_of keys.now stamps.now waiting.now no_words) v ≡ false) }
    ensures first { first_of (queue_of keys.now stamps.now waiting.now no_words) result ≡ largest n (queue_of keys.now stamps.now waiting.now no_words) }
    ensures below { IfSome result (λ v. v < n) }
{
    let mut entries = [Entry::NONE; 128];
    let firsts = &mut entries[..n];
    gather(firsts, keys, stamps, waiting);
    crate::largest(words, sides, firsts)
}

/// Enters vertex `v` with its gain and a draw, in place of its entry so far: its key, its stamp, and the flag 1, by which it waits. Past the end of a list nothing is written.
// Stays: the three lists are of three lengths, and each is written at the vertex's own place.
pub fn enter(
    graph: &Hypergraph,
    keys: &mut [f64],
    stamps: &mut [u64],
    waiting: &mut [u8],
    draws: &mut Draws,
    v: usize,
    stamp: u64,
)
    requires { v < graph.now.place.vertex_count }
    ensures { Entered graph.now.words.now graph.now.place graph.now.weights.now stamp v (queue_of keys.old stamps.old waiting.old draws.old) (queue_of keys.new stamps.new waiting.new draws.new) }
{
    let gain = graph.gain(v);
    let key = crate::key_of(gain, draws.unit());
    cells::put(keys, v, key);
    cells::put(stamps, v, stamp);
    cells::put(waiting, v, 1);
}

/// Enters all vertices with the stamp 0 and the flag 1, by which they wait. Past the end of a list nothing is written.
// Stays: each turn writes the same lists and takes draws; `for_each` with a closure that holds them is no plainer.
pub fn enter_all(
    graph: &Hypergraph,
    keys: &mut [f64],
    stamps: &mut [u64],
    waiting: &mut [u8],
    draws: &mut Draws,
)
    ensures { AllEntered graph.now.words.now graph.now.place graph.now.weights.now graph.now.place.vertex_count (queue_of keys.old stamps.old waiting.old draws.old) (queue_of keys.new stamps.new waiting.new draws.new) }
{
    // Stays: a list may be shorter than there are vertices, and a write past its end does nothing.
    for v in 0..graph.place.vertex_count {
        enter(graph, keys, stamps, waiting, draws, v, 0);
    }
}
