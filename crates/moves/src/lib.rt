#![tactic(auto)]
// Moves of single vertices: the sides of a partition and their weights, the sums of a pass.
ghost use Rattle.std.specs.Prelude.{◌≡◌, ◌+◌, ◌-◌, ◌*◌, ◌<◌, ◌≤◌, length};
ghost use Rattle.fm.specs.Again.{Under};
ghost use Rattle.moves.specs.Kept.{Kept};
ghost use Rattle.moves.specs.Split.{Split, Moved, sides_as};
ghost use Rattle.moves.specs.Laying.{Bits};
ghost use Rattle.moves.specs.Sums.{weight_in, Fits};
ghost use Rattle.moves.specs.Rolled.{Rolled};

// Stays: `sides < 32766`, `length vw.now ≤ 128`: bounds of numbers, so that a place fits a machine word; a type of its own would be unwrapped at each use.

mod bipartition;
mod pass;

pub use bipartition::Bipartition;
pub use pass::Pass;

/// Lays a partition into the slots `sides` and `sides + 1`.
pub fn lay_sides(graph: &mut [u64], sides: usize, part: &[u8])
    requires { (sides < 32766) × (length part.now ≤ 128) × (sides * 2 + 6 ≤ length graph.old) × Bits part.now }
    ensures { Split graph.new sides (length part.now) part.now × Kept (sides * 2) graph.old graph.new }
{
    slots::empty(graph, 2, sides);
    slots::empty(graph, 2, sides + 1);
    for (v, &side) in part.iter().enumerate() {
        slots::insert(graph, 2, sides + usize::from(side), v);
    }
}

/// The weight of side `s`; `vw` has what each vertex weighs.
pub fn weight_on(part: &[u8], vw: &[f64], s: usize) -> f64
    ensures { result ≡ weight_in part.now vw.now s }
{
    let mut sum = 0.0;
    for (v, &weight) in vw.iter().enumerate() {
        if usize::from(cells::get_or(part, v, 0)) == s {
            sum += weight;
        }
    }
    sum
}

/// Vertex `v` goes to the other side: in the list `part`, in the slots `sides` and `sides + 1`, and in the weights of the sides, `loads`.
// Stays: asks a vertex, and one partition in `part` and the slots (`Split`): a `Bipartition` would ask two loads too, a `Layout` the nets. One index names a vertex in the partition and in the weights.
pub fn move_vertex(
    words: &mut [u64],
    sides: usize,
    vw: &[f64],
    part: &mut [u8],
    loads: &mut [f64],
    v: usize,
)
    requires { (sides < 32766) × (v < length vw.now) × (length vw.now ≤ 128) × (sides * 2 + 6 ≤ length words.old) × Split words.old sides (length vw.now) part.old }
    ensures { Moved words.old words.new sides vw.now v (sides_as part.old loads.old) (sides_as part.new loads.new) }
{
    let s = usize::from(cells::get_or(part, v, 0));
    let t = 1usize.saturating_sub(s);
    let x = cells::get_or(vw, v, 0.0);
    let a = cells::get_or(loads, s, 0.0);
    let b = cells::get_or(loads, t, 0.0);
    cells::put(loads, s, a - x);
    cells::put(loads, t, b + x);
    // Stays: the number fits by what is known here; `try_from` would add a failure that never comes.
    cells::put(part, v, t as u8);
    slots::insert(words, 2, sides + t, v);
    slots::subtract(words, 2, sides + s, sides + t, sides + s);
}

/// Can the other side take vertex `v`, if no side may weigh more than `most_weight`; `loads` has what each side weighs.
// Stays: asks nothing of its callers; one index names a vertex in the partition and in the weights.
pub fn fits(part: &[u8], loads: &[f64], vw: &[f64], most_weight: f64, v: usize) -> bool
    ensures { Fits vw.now most_weight v (sides_as part.now loads.now) result }
{
    let s = usize::from(cells::get_or(part, v, 0));
    let w = cells::get_or(loads, 1usize.saturating_sub(s), 0.0);
    !(most_weight < w + cells::get_or(vw, v, 0.0))
}

/// Takes back the moves after the first `peak` of `count`, the last one first; `moves` lists their vertices.
// Stays: asks one partition in `part` and the slots (`Split`), and moves of vertices (`Under`): a `Bipartition` would ask two loads too, a `Layout` the nets, a `Pass` its sums; the method is for these.
pub fn roll_back(
    words: &mut [u64],
    sides: usize,
    vw: &[f64],
    part: &mut [u8],
    loads: &mut [f64],
    moves: &[u16],
    count: usize,
    peak: usize,
)
    requires { (sides < 32766) × (length vw.now ≤ 128) × (sides * 2 + 6 ≤ length words.old) × Split words.old sides (length vw.now) part.old × Under (length vw.now) count moves.now }
    ensures { Rolled words.old words.new sides vw.now moves.now count (count - peak) (sides_as part.old loads.old) (sides_as part.new loads.new) }
{
    let last = count.saturating_sub(peak);
    // Stays: how many moves are taken back is not known to be at most the length of the list, so they are no slice.
    for i in 0..last {
        let v = usize::from(cells::get_or(moves, count - 1 - i, 0));
        move_vertex(words, sides, vw, part, loads, v);
    }
}
