#![tactic(auto)]
// Refinement of a partition by moves of single vertices: after a move, the pins of its nets are entered again.
ghost use Rattle.std.specs.Prelude.{◌<◌, ◌≤◌, length};
ghost use Rattle.spec.specs.Members.{All};
ghost use Rattle.bits.specs.Lowest.{places};
ghost use Rattle.queue.specs.Queues.{stamps_of, queue_in};
ghost use Rattle.fm.specs.Again.{Stamped, Again, AllAgain};
ghost use Rattle.fm.specs.NetAgain.{NetAgain};
ghost use Rattle.fm.specs.NetsAgain.{NetsAgain};
ghost use Rattle.fm.specs.Neighbours.{NeighboursAgain};

// Stays: `graph: &Hypergraph, entries: &mut [Entry]`, `entries: &mut [Entry], draws: &mut Draws`, `draws: &mut Draws, locked: usize`: in a struct that lends them each method would say besides that the same entries come back.
// Stays: `locked < 32768`: a bound of a number, so that a place fits a machine word; a type of its own would be unwrapped at each use.
// Stays: `Stamped 1073741824 (stamps_of entries.old)`: each call raises the bound, so it is no invariant of the entries.

use bits::Digits;
use draws::Draws;
use partition::Hypergraph;
use queue::Entry;

pub mod lists; // lists.rt: the same in three lists of any three lengths

/// Enters vertex `u` again, with the next stamp, unless it is in the slot `locked`.
fn enter_again(
    graph: &Hypergraph,
    entries: &mut [Entry],
    draws: &mut Draws,
    locked: usize,
    u: usize,
)
    requires { (u < graph.now.place.vertex_count) × (locked < 32768) × Stamped 4294967295 (stamps_of entries.old) }
    ensures { Again graph.now.words.now graph.now.place graph.now.weights.now locked u (queue_in entries.old draws.old) (queue_in entries.new draws.new) }
{
    if slots::has(graph.words, 2, locked, u) {
        return;
    }
    let stamp = cells::get_or(entries, u, Entry::NONE).stamp + 1;
    queue::enter(graph, entries, draws, u, stamp);
}

/// Enters the vertices `base` + i for each set digit i of `pins` again, each unless it is in the slot `locked`.
// Stays: each turn writes the same entries; `for_each` with a closure that holds them is no plainer.
fn enter_word(
    graph: &Hypergraph,
    entries: &mut [Entry],
    draws: &mut Draws,
    locked: usize,
    base: usize,
    pins: u64,
)
    requires { (locked < 32768) × (base ≤ 64) × All (λ u. u < graph.now.place.vertex_count) (places base 64 pins) × Stamped 4294967040 (stamps_of entries.old) }
    ensures { AllAgain graph.now.words.now graph.now.place graph.now.weights.now locked (places base 64 pins) (length (places base 64 pins)) (queue_in entries.old draws.old) (queue_in entries.new draws.new) }
{
    for u in Digits::above(base, pins) {
        enter_again(graph, entries, draws, locked, u);
    }
}

/// Enters the pins of net `e` again, each unless it is in the slot `locked`.
fn enter_net(graph: &Hypergraph, entries: &mut [Entry], draws: &mut Draws, locked: usize, e: usize)
    requires { (locked < 32768) × (e < graph.now.place.net_count) × Stamped 2147483648 (stamps_of entries.old) }
    ensures { NetAgain graph.now.words.now graph.now.place graph.now.weights.now locked e (queue_in entries.old draws.old) (queue_in entries.new draws.new) }
{
    // Stays: a net's pins are the members of a slot of two words, read by number.
    let at = (graph.place.nets + e) * 2;
    let low = cells::get_or(graph.words, at, 0);
    let high = cells::get_or(graph.words, at + 1, 0);
    enter_word(graph, entries, draws, locked, 0, low);
    enter_word(graph, entries, draws, locked, 64, high);
}

/// After vertex `v` has moved: enters each pin of each of its nets again, unless it is in the slot `locked`.
// Stays: a vertex's nets are the members of a slot of four words, read by number; each turn writes the same entries.
pub fn enter_neighbours(
    graph: &Hypergraph,
    entries: &mut [Entry],
    draws: &mut Draws,
    locked: usize,
    v: usize,
)
    requires { (locked < 32768) × (v < graph.now.place.vertex_count) × Stamped 1073741824 (stamps_of entries.old) }
    ensures { NeighboursAgain graph.now.words.now graph.now.place graph.now.weights.now locked v (queue_in entries.old draws.old) (queue_in entries.new draws.new) }
{
    let at = (graph.place.vertices + v) * 4;
    for k in 0..4 {
        let nets = cells::get_or(graph.words, at + k, 0);
        for e in Digits::above(k * 64, nets) {
            enter_net(graph, entries, draws, locked, e);
        }
    }
}
