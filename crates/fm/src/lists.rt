// The pins of a vertex's nets entered again into the queue in three lent lists of any three lengths: keys, stamps and flags, each by vertex. A flag of 1 waits, and any
// other does not. Past the end of its list a key or a stamp is 0, no vertex waits, and nothing is written.
ghost use Rattle.std.specs.Prelude.{◌<◌, ◌≤◌, length};
ghost use Rattle.spec.specs.Members.{All};
ghost use Rattle.bits.specs.Lowest.{places};
ghost use Rattle.queue.specs.Queues.{queue_of};
ghost use Rattle.fm.specs.Again.{Stamped, Again, AllAgain};
ghost use Rattle.fm.specs.NetAgain.{NetAgain};
ghost use Rattle.fm.specs.Neighbours.{NeighboursAgain};

// Stays: `keys, stamps, waiting`: the three lists are of three lengths, and a flag is any byte, so they are no list of entries; in a struct that lends them with the draws each
// method would say besides that the same lists come back.
// Stays: `locked < 32768`: a bound of a number, so that a place fits a machine word; a type of its own would be unwrapped at each use.
// Stays: `Stamped 1073741824 stamps.old`: each call raises the bound, so it is no invariant of the stamps.

use bits::Digits;
use draws::Draws;
use partition::Hypergraph;

/// Enters vertex `u` again, with the next stamp, unless it is in the slot `locked`.
// Stays: the three lists and the draws are lent apart, as they are to the caller.
fn enter_again(
    graph: &Hypergraph,
    keys: &mut [f64],
    stamps: &mut [u64],
    waiting: &mut [u8],
    draws: &mut Draws,
    locked: usize,
    u: usize,
)
    requires { (u < graph.now.place.vertex_count) × (locked < 32768) × Stamped 4294967295 stamps.old }
    ensures { Again graph.now.words.now graph.now.place graph.now.weights.now locked u (queue_of keys.old stamps.old waiting.old draws.old) (queue_of keys.new stamps.new waiting.new draws.new) }
{
    if slots::has(graph.words, 2, locked, u) {
        return;
    }
    let stamp = cells::get_or(stamps, u, 0) + 1;
    queue::lists::enter(graph, keys, stamps, waiting, draws, u, stamp);
}

/// Enters the vertices `base` + i for each set digit i of `pins` again, each unless it is in the slot `locked`.
// Stays: each turn writes the same lists; `for_each` with a closure that holds them is no plainer.
fn enter_word(
    graph: &Hypergraph,
    keys: &mut [f64],
    stamps: &mut [u64],
    waiting: &mut [u8],
    draws: &mut Draws,
    locked: usize,
    base: usize,
    pins: u64,
)
    requires { (locked < 32768) × (base ≤ 64) × All (λ u. u < graph.now.place.vertex_count) (places base 64 pins) × Stamped 4294967040 stamps.old }
    ensures { AllAgain graph.now.words.now graph.now.place graph.now.weights.now locked (places base 64 pins) (length (places base 64 pins)) (queue_of keys.old stamps.old waiting.old draws.old) (queue_of keys.new stamps.new waiting.new draws.new) }
{
    for u in Digits::above(base, pins) {
        enter_again(graph, keys, stamps, waiting, draws, locked, u);
    }
}

/// Enters the pins of net `e` again, each unless it is in the slot `locked`.
// Stays: the three lists and the draws are lent apart, as they are to the caller.
fn enter_net(
    graph: &Hypergraph,
    keys: &mut [f64],
    stamps: &mut [u64],
    waiting: &mut [u8],
    draws: &mut Draws,
    locked: usize,
    e: usize,
)
    requires { (locked < 32768) × (e < graph.now.place.net_count) × Stamped 2147483648 stamps.old }
    ensures { NetAgain graph.now.words.now graph.now.place graph.now.weights.now locked e (queue_of keys.old stamps.old waiting.old draws.old) (queue_of keys.new stamps.new waiting.new draws.new) }
{
    // Stays: a net's pins are the members of a slot of two words, read by number.
    let at = (graph.place.nets + e) * 2;
    let low = cells::get_or(graph.words, at, 0);
    let high = cells::get_or(graph.words, at + 1, 0);
    enter_word(graph, keys, stamps, waiting, draws, locked, 0, low);
    enter_word(graph, keys, stamps, waiting, draws, locked, 64, high);
}

/// After vertex `v` has moved: enters each pin of each of its nets again, unless it is in the slot `locked`. Each gets the next stamp, of stamps up to 2^30 so far, and the
/// flag 1, by which it waits. Past the end of the stamps a stamp is 0, and past the end of a list nothing is written.
// Stays: a vertex's nets are the members of a slot of four words, read by number; each turn writes the same lists.
pub fn enter_neighbours(
    graph: &Hypergraph,
    keys: &mut [f64],
    stamps: &mut [u64],
    waiting: &mut [u8],
    draws: &mut Draws,
    locked: usize,
    v: usize,
)
    requires { (locked < 32768) × (v < graph.now.place.vertex_count) × Stamped 1073741824 stamps.old }
    ensures { NeighboursAgain graph.now.words.now graph.now.place graph.now.weights.now locked v (queue_of keys.old stamps.old waiting.old draws.old) (queue_of keys.new stamps.new waiting.new draws.new) }
{
    let at = (graph.place.vertices + v) * 4;
    for k in 0..4 {
        let nets = cells::get_or(graph.words, at + k, 0);
        for e in Digits::above(k * 64, nets) {
            enter_net(graph, keys, stamps, waiting, draws, locked, e);
        }
    }
}
