#![tactic(auto)]
// A side that grows along its nets: how strongly the other vertices are connected to it.
ghost use Rattle.std.specs.Prelude.{◌≡◌, ◌+◌, ◌<◌, ◌≤◌, length, Some, IfSome};
ghost use Rattle.spec.specs.Floats.{whole_float};
ghost use Rattle.spec.specs.Draws.{drawn};
ghost use Rattle.spec.specs.Bisection.{half, growth_turn};
ghost use Rattle.matching.specs.Graphs.{graph_of};
ghost use Rattle.growth.specs.Grown.{growth_of, grown_from, part_grown};
ghost use Rattle.growth.specs.Links.{strong_in, offered_in, strongest_in, linked_pin, linked_pins, linked_net, linked_nets};

// Stays: `goal: f64, draws: &mut Draws`, `goal ≡ half (graph_of graph.now)`: a number that stays and draws that go on; the caller sums the half once, for many growths.
// Stays: `draws: &mut Draws, part: &mut [u8]`: draws that go on and a list to be filled; nothing else is made of the two.
// Stays: `nets: usize, weights: &[u8]`: two of the fields of a hypergraph, which need not be there whole.
// Stays: `nets < 65536`, `e < 65536`, `128 ≤ length pins.old`: bounds of numbers, so that a place fits a machine word and a list has room; a type of its own would be unwrapped at each use.
// Stays: `length links.old ≡ length graph.now.layout.vertex_weights.now`: the list is made for one growth, and lent with the graph from there on.

use draws::Draws;
use matching::Graph;

/// The strongest connection so far, and its vertex, if one was found.
#[derive(Clone, Copy)]
// Stays: what is compared here is a connection, and in a growth the weight of a side is summed, so neither may stand for the other.
pub struct Candidate {
    pub link: f64,
    pub vertex: Option<usize>,
}

// Vertex `u` is looked at if it is on side 0: its connection with a little noise, which takes a draw.
// Stays: one index names a vertex in two lists: a side of the caller's partition, and a link made here.
fn offer(part: &[u8], links: &[f64], draws: &mut Draws, u: usize, best: Candidate) -> Candidate
    requires { (u < length links.now) × IfSome best.vertex (λ v. v < length links.now) }
    ensures offered { strong_in result.link result.vertex draws.new ≡ offered_in part.now links.now u (strong_in best.link best.vertex draws.old) }
    ensures below { IfSome result.vertex (λ v. v < length links.now) }
{
    if cells::get_or(part, u, 0) != 0 {
        return best;
    }
    let noise = draws.unit();
    let x = cells::get_or(links, u, 0.0) + 1e-6 * noise;
    if best.link < x {
        return Candidate {
            link: x,
            vertex: Some(u),
        };
    }
    best
}

/// The vertex of side 0 with the strongest connection, if side 0 has a vertex. Each vertex of side 0 takes a draw.
// Stays: the number itself is meant, a vertex: `offer` reads its side and its link by it, and makes it the candidate's; how long `part` is, is not asked.
pub fn strongest(part: &[u8], links: &[f64], draws: &mut Draws) -> Candidate
    requires { length links.now ≤ 65536 }
    ensures strongest { strong_in result.link result.vertex draws.new ≡ strongest_in part.now links.now (length links.now) draws.old }
    ensures below { IfSome result.vertex (λ v. v < length links.now) }
{
    let mut best = Candidate {
        link: -1.0,
        vertex: None,
    };
    for u in 0..links.len() {
        best = offer(part, links, draws, u, best);
    }
    best
}

// Vertex `u` is connected more strongly by `x`.
fn link(links: &mut [f64], u: usize, x: f64)
    ensures { links.new ≡ linked_pin x u links.old }
{
    let y = cells::get_or(links, u, 0.0);
    cells::put(links, u, y + x);
}

// The pins of a net of weight `w`.
fn link_pins(links: &mut [f64], pins: &[u16], w: u8)
    ensures { links.new ≡ linked_pins (whole_float w) pins.now links.old }
{
    let x = f64::from(w);
    for &u in pins {
        link(links, usize::from(u), x);
    }
}

// Net `e`, whose pins stand in slot `nets` + e. The list is for its pins.
fn link_net(
    words: &[u64],
    nets: usize,
    weights: &[u8],
    pins: &mut [u16],
    links: &mut [f64],
    e: usize,
)
    requires { (nets < 65536) × (e < 65536) × (128 ≤ length pins.old) }
    ensures { links.new ≡ linked_net words.now nets weights.now e links.old }
{
    let len = slots::members(words, 2, nets + e, pins, 0);
    let w = cells::get_or(weights, e, 0);
    link_pins(links, &pins[..len], w);
}

/// The nets of a list: the vertices on them are connected more strongly. Each net stands in slot `nets` + e of `words`, its weight in `weights`.
pub fn link_nets(words: &[u64], nets: usize, weights: &[u8], links: &mut [f64], list: &[u16])
    requires { nets < 65536 }
    ensures { links.new ≡ linked_nets words.now nets weights.now list.now links.old }
{
    let mut pins = [0u16; 128];
    for &e in list {
        link_net(words, nets, weights, &mut pins, links, usize::from(e));
    }
}

/// A growth: the weight of side 1, and the next vertex to come to it, if there is one.
#[derive(Clone, Copy)]
// Stays: the weight of a side, and in a candidate a connection, so neither may stand for the other.
pub struct Growth {
    pub weight: f64,
    pub next: Option<usize>,
}

// Vertex `v` comes to side 1, which weighed `former`. Growth ends at `goal`, half of the weight.
// Stays: the same graph, goal, draws, partition and links go through each step of a growth; but the caller lends its graph, draws and partition apart, and the links live
// in `grown` alone, so a struct of the five would be one more type with a lifetime whose loans every step must promise to keep.
fn grow(
    graph: &Graph,
    goal: f64,
    draws: &mut Draws,
    part: &mut [u8],
    links: &mut [f64],
    former: f64,
    v: usize,
) -> Growth
    requires { (v < length graph.now.layout.vertex_weights.now) × (length links.old ≡ length graph.now.layout.vertex_weights.now) × (goal ≡ half (graph_of graph.now)) }
    ensures turned { growth_of part.new result.weight links.new result.next draws.new ≡ growth_turn (graph_of graph.now) (Some v) (growth_of part.old former links.old (Some v) draws.old) }
    ensures below { IfSome result.next (λ u. u < length graph.now.layout.vertex_weights.now) }
{
    cells::put(part, v, 1);
    let weight = former + cells::get_or(graph.layout.vertex_weights, v, 0.0);
    if goal <= weight {
        return Growth { weight, next: None };
    }
    let mut list = [0u16; 256];
    let len = slots::members(graph.words, 4, graph.layout.vertices + v, &mut list, 0);
    let (nets, weights) = (graph.layout.nets, graph.layout.net_weights);
    link_nets(graph.words, nets, weights, links, &list[..len]);
    let best = strongest(part, links, draws);
    Growth {
        weight,
        next: best.vertex,
    }
}

// The next vertex comes to side 1, if there is one.
fn grow_on(
    graph: &Graph,
    goal: f64,
    draws: &mut Draws,
    part: &mut [u8],
    links: &mut [f64],
    growth: Growth,
) -> Growth
    requires { IfSome growth.next (λ v. v < length graph.now.layout.vertex_weights.now) × (length links.old ≡ length graph.now.layout.vertex_weights.now) × (goal ≡ half (graph_of graph.now)) }
    ensures turned { growth_of part.new result.weight links.new result.next draws.new ≡ growth_turn (graph_of graph.now) growth.next (growth_of part.old growth.weight links.old growth.next draws.old) }
    ensures below { IfSome result.next (λ u. u < length graph.now.layout.vertex_weights.now) }
{
    match growth.next {
        Some(v) => grow(graph, goal, draws, part, links, growth.weight, v),
        None => growth,
    }
}

/// Turn after turn, until growth has ended: at most one a vertex and one more.
pub fn grow_turns(
    graph: &Graph,
    goal: f64,
    draws: &mut Draws,
    part: &mut [u8],
    links: &mut [f64],
    growth: Growth,
) -> Growth
    requires { IfSome growth.next (λ v. v < length graph.now.layout.vertex_weights.now) × (length links.old ≡ length graph.now.layout.vertex_weights.now) × (goal ≡ half (graph_of graph.now)) }
    ensures { growth_of part.new result.weight links.new result.next draws.new ≡ grown_from (graph_of graph.now) (length graph.now.layout.vertex_weights.now + 1) (growth_of part.old growth.weight links.old growth.next draws.old) }
{
    let mut g = growth;
    // Stays: a number of turns, one more than there are vertices, over no list.
    for k in 0..graph.layout.vertex_weights.len() + 1 {
        g = grow_on(graph, goal, draws, part, links, g);
    }
    g
}

/// A first partition: side 1 grows from a drawn vertex, along its nets, to half of the weight, `goal`.
pub fn grown(graph: &Graph, goal: f64, draws: &mut Draws, part: &mut [u8])
    requires { (0 < length graph.now.layout.vertex_weights.now) × (length part.old ≡ length graph.now.layout.vertex_weights.now) × (goal ≡ half (graph_of graph.now)) }
    ensures { drawn part.new draws.new ≡ part_grown (graph_of graph.now) draws.old }
{
    let n = graph.layout.vertex_weights.len();
    let mut links = [0.0f64; 128];
    cells::fill(part, 0);
    let first = Growth {
        weight: 0.0,
        next: Some(draws.index(n)),
    };
    grow_turns(graph, goal, draws, part, &mut links[..n], first);
}
