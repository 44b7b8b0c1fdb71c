#![tactic(auto)]
//! Hypergraphs in slots of lent words, and partitions of their vertices: gains and cuts.
ghost use Rattle.std.specs.Prelude.{◌≡◌, ◌<◌, ◌≤◌, ℕ, List, length};
ghost use Rattle.std.specs.Int.Count.{ones};
ghost use Rattle.spec.specs.Floats.{whole_float};
ghost use Rattle.spec.specs.Fm.{gain_net};
ghost use Rattle.partition.specs.Common.{common_of};
ghost use Rattle.partition.specs.Few.{capped, Few, AreRead};

// Stays: `words: &[u64], w: usize`, `w: usize, a: usize`, `a: usize, b: usize`: two slots of the same words; a struct of words, width and slots would be made at each read.
// Stays: `w ≤ 16`, `a < 1048576`, `b < 1048576`: bounds of numbers, so that a place fits a machine word; a type of its own would be unwrapped at each use.

mod graph;
mod layout;
mod place;

pub use graph::Hypergraph;
pub use layout::Layout;
pub use place::Place;

/// How many members slots `a` and `b` have in common.
// Stays: a slot is a place in lent words of the workspace that the C interface states, and may reach past their end, where a read gives 0; so it is no slice.
pub fn common(words: &[u64], w: usize, a: usize, b: usize) -> usize
    requires { (w ≤ 16) × (a < 1048576) × (b < 1048576) }
    ensures { result ≡ length (common_of words.now w a b) }
{
    let p = a * w;
    let q = b * w;
    let mut n: usize = 0;
    for k in 0..w {
        let x = cells::get_or(words, p + k, 0);
        let y = cells::get_or(words, q + k, 0);
        n += bits::count_ones(x & y);
    }
    n
}

/// How many digits of `x` are set, where 2 stands for two or more.
fn few_ones(x: u64) -> usize
    ensures { (result ≡ capped (ones x)) × (result ≤ 2) }
{
    if x == 0 {
        return 0;
    }
    if x & (x - 1) == 0 {
        return 1;
    }
    2
}

/// A slot of two words, with what stands in them: it is read once, and met with several others.
#[derive(Clone, Copy)]
// Stays: a slot and what was read there; counts and scores that are as many numbers have another meaning.
struct Pair {
    slot: usize,
    low: u64,
    high: u64,
}

/// Reads slot `s`.
// Stays: a slot is a place in lent words of the workspace that the C interface states, and may reach past their end, where a read gives 0; so it is no slice.
fn read(words: &[u64], s: usize) -> Pair
    requires { s < 1048576 }
    ensures slot { result.slot ≡ s }
    ensures words { AreRead words.now result }
{
    let at = s * 2;
    // One look at the length for both words: a gain reads the two of each of its nets.
    if at + 1 < words.len() {
        return Pair {
            slot: s,
            low: words[at],
            high: words[at + 1],
        };
    }
    Pair {
        slot: s,
        low: cells::get_or(words, at, 0),
        high: cells::get_or(words, at + 1, 0),
    }
}

/// Have two slots of two words no member in common, just one, or more: 0, 1, or above.
fn few(a: Pair, b: Pair) -> usize
    ensures { (ws : List ℕ) → AreRead ws a → AreRead ws b → Few result (length (common_of ws 2 a.slot b.slot)) }
{
    few_ones(a.low & b.low) + few_ones(a.high & b.high)
}

/// The gain with one net of weight `w`, that has `here` pins on the vertex's side and `there` on the other.
fn gain_net(here: usize, there: usize, w: u8, g: f64) -> f64
    ensures { result ≡ gain_net here there (whole_float w) g }
{
    let x = f64::from(w);
    if here == 1 {
        if there == 0 {
            return g + x - x;
        }
        return g + x;
    }
    if there == 0 {
        return g - x;
    }
    g
}
