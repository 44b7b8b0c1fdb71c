#![tactic(auto)]
// Vertices matched in pairs along heavy nets, in a drawn order.
ghost use Rattle.std.specs.Prelude.{◌≡◌, None, ◌+◌, ◌-◌, ◌<◌, ◌≤◌, length};
ghost use Rattle.spec.specs.Lists.{range};
ghost use Rattle.spec.specs.Floats.{zero_float};
ghost use Rattle.spec.specs.Draws.{drawn};
ghost use Rattle.spec.specs.Hypergraph.{fold_over};
ghost use Rattle.spec.specs.Coarsen.{shuffled, matched, matching};
ghost use Rattle.slots.specs.Rising.{rising_of};
ghost use Rattle.ratings.specs.Lists.{ratings_of, IsSameLoan};
ghost use Rattle.ratings.specs.Rated.{rated_nets};
ghost use Rattle.matching.specs.Order.{drawn_swap, Below};
ghost use Rattle.matching.specs.Graphs.{graph_of};
ghost use Rattle.matching.specs.Choices.{choice_of, looked, mated_in};

// Stays: `limit: f64, draws: &mut Draws`: a number that stays and draws that go on; nothing else is made of the two.
// Stays: `v < length graph.now.layout.vertex_weights.now`: a bound of a number that names a vertex; a type of its own would be unwrapped at each use.
// Stays: `v < 65536`: a bound of a number, so that it fits a place of the list; a type of its own would be unwrapped at each use.

mod graph;

use draws::Draws;
pub use graph::Graph;
use ratings::{Ratings, Single};

// Makes a list 0, 1, 2, ..
// Stays: `fill_with` would count by hand in its closure.
fn count_up(order: &mut [u16])
    requires { length order.old ≤ 65536 }
    ensures { order.new ≡ range (length order.old) }
{
    for (k, place) in order.iter_mut().enumerate() {
        // Stays: the number fits by what is known here; `try_from` would add a failure that never comes.
        *place = k as u16;
    }
}

// Swaps place `i` with one that is drawn from 0 to `i`.
fn swap_drawn(order: &mut [u16], draws: &mut Draws, i: usize)
    requires { (i < length order.old) × (i < 65536) }
    ensures { drawn order.new draws.new ≡ drawn_swap i (drawn order.old draws.old) }
{
    let j = draws.index(i + 1);
    order.swap(i, j);
}

// Shuffles a list by draws, from its last place down.
// Stays: each turn writes the same lent lists; `for_each` with a closure that holds them is no plainer.
fn shuffle(order: &mut [u16], draws: &mut Draws)
    requires { length order.old ≤ 65536 }
    ensures { drawn order.new draws.new ≡ shuffled (length order.old - 1) (drawn order.old draws.old) }
{
    // Stays: each turn swaps two places of the list that an iterator would borrow.
    for i in (1..order.len()).rev() {
        swap_drawn(order, draws, i);
    }
}

/// The best mate so far, if one was found, with its rating.
#[derive(Clone, Copy)]
// Stays: the mate is a number as the lists hold it and its rating is compared, where a growth compares connections of places.
pub struct Best {
    pub rating: f64,
    pub mate: Option<u16>,
}

// Vertex `u` is looked at, as a mate of `v`: its rating with a little noise, which takes a draw, must be above the best, and both together not too heavy.
// Stays: the lists are of the caller, each lent for another time, so a struct of them would be made anew for each vertex that is looked at.
fn look(
    vw: &[f64],
    limit: f64,
    draws: &mut Draws,
    rating: &mut [f64],
    v: usize,
    u: u16,
    best: Best,
) -> Best
    ensures { choice_of result.rating result.mate rating.new draws.new ≡ looked vw.now limit v u (choice_of best.rating best.mate rating.old draws.old) }
{
    let place = usize::from(u);
    let noise = draws.unit();
    let x = cells::get_or(rating, place, 0.0) * (1.0 + 1e-6 * noise);
    cells::put(rating, place, 0.0);
    if best.rating < x {
        if cells::get_or(vw, v, 0.0) + cells::get_or(vw, place, 0.0) <= limit {
            return Best {
                rating: x,
                mate: Some(u),
            };
        }
    }
    best
}

// The best mate of `v` among the vertices of a list.
fn choose(
    vw: &[f64],
    limit: f64,
    draws: &mut Draws,
    rating: &mut [f64],
    v: usize,
    touched: &[u16],
) -> Best
    ensures { choice_of result.rating result.mate rating.new draws.new ≡ fold_over (looked vw.now limit v) touched.now (choice_of zero_float None rating.old draws.old) }
{
    let mut best = Best {
        rating: 0.0,
        mate: None,
    };
    for &u in touched {
        best = look(vw, limit, draws, rating, v, u, best);
    }
    best
}

// `v` and its mate are matched, or `v` with itself if it has none.
fn pair(mates: &mut [u16], v: usize, mate: Option<u16>)
    requires { v < 65536 }
    ensures { mates.new ≡ mated_in v mate mates.old }
{
    match mate {
        Some(u) => {
            cells::put(mates, v, u);
            // Stays: the number fits by what is known here; `try_from` would add a failure that never comes.
            cells::put(mates, usize::from(u), v as u16);
        }
        // Stays: the number fits by what is known here; `try_from` would add a failure that never comes.
        None => cells::put(mates, v, v as u16),
    }
}

// Rates the vertices that `v` may be matched with, along its nets.
fn rate(graph: &Graph, mates: &[u16], ratings: &mut Ratings, v: usize)
    requires { (v < length graph.now.layout.vertex_weights.now) × (ratings.old.count + 16384 ≤ length ratings.old.touched.now) }
    ensures lent { IsSameLoan ratings.old ratings.new }
    ensures rated { ratings_of ratings.new ≡ rated_nets graph.now.words.now graph.now.layout.nets graph.now.layout.net_weights.now mates.now (length graph.now.layout.vertex_weights.now) v (rising_of graph.now.words.now 4 (graph.now.layout.vertices + v)) (ratings_of ratings.old) }
    ensures few { ratings.new.count ≤ ratings.old.count + 16384 }
{
    let mut list = [0u16; 256];
    let len = slots::members(graph.words, 4, graph.layout.vertices + v, &mut list, 0);
    let single = Single {
        vertex: v,
        mates,
        none: graph.layout.vertex_weights.len(),
    };
    ratings.rate_nets(
        graph.words,
        graph.layout.nets,
        graph.layout.net_weights,
        &single,
        &list[..len],
    );
}

// `v` is matched, unless it has a mate already: the number of vertices stands for none. The list is for the vertices rated.
fn match_vertex(
    graph: &Graph,
    limit: f64,
    draws: &mut Draws,
    mates: &mut [u16],
    touched: &mut [u16],
    v: usize,
)
    requires { (v < length graph.now.layout.vertex_weights.now) × (16384 ≤ length touched.old) }
    ensures { drawn mates.new draws.new ≡ matched (graph_of graph.now) limit v (drawn mates.old draws.old) }
{
    let n = graph.layout.vertex_weights.len();
    if usize::from(cells::get_or(mates, v, 0)) == n {
        let mut floats = [0.0f64; 128];
        let mut ratings = Ratings {
            rating: &mut floats[..n],
            touched,
            count: 0,
        };
        rate(graph, mates, &mut ratings, v);
        let Ratings {
            rating,
            touched,
            count,
        } = ratings;
        let best = choose(
            graph.layout.vertex_weights,
            limit,
            draws,
            rating,
            v,
            &touched[..count],
        );
        pair(mates, v, best.mate);
    }
}

// The vertices of a list, one after another.
// Stays: each turn writes the same lent lists; `for_each` with a closure that holds them is no plainer.
fn match_in_order(
    graph: &Graph,
    limit: f64,
    draws: &mut Draws,
    order: &[u16],
    mates: &mut [u16],
    touched: &mut [u16],
)
    requires { (16384 ≤ length touched.old) × Below (length graph.now.layout.vertex_weights.now) order.now }
    ensures { drawn mates.new draws.new ≡ fold_over (matched (graph_of graph.now) limit) order.now (drawn mates.old draws.old) }
{
    for &v in order {
        match_vertex(graph, limit, draws, mates, touched, usize::from(v));
    }
}

/// The mates of all vertices, taken in a drawn order.
pub fn match_all(graph: &Graph, limit: f64, draws: &mut Draws, mates: &mut [u16])
    requires { (0 < length graph.now.layout.vertex_weights.now) × (length mates.old ≡ length graph.now.layout.vertex_weights.now) }
    ensures { drawn mates.new draws.new ≡ matching (graph_of graph.now) limit draws.old }
{
    let n = graph.layout.vertex_weights.len();
    let mut numbers = [0u16; 128];
    let mut touched = [0u16; 16384];
    let order = &mut numbers[..n];
    count_up(order);
    shuffle(order, draws);
    // Stays: the number fits by what is known here; `try_from` would add a failure that never comes.
    cells::fill(mates, n as u16);
    match_in_order(graph, limit, draws, order, mates, &mut touched);
}
