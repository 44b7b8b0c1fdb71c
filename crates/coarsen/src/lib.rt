#![tactic(auto)]
// A coarser hypergraph: a vertex for each pair of a matching and each vertex alone, the nets mapped to these.
ghost use Rattle.std.specs.Prelude.{not, ◌≡◌, ◌+◌, ◌*◌, ◌<◌, ◌≤◌, length, take};
ghost use Rattle.slots.specs.Slots.{with_set};
ghost use Rattle.slots.specs.Writes.{and_all};
ghost use Rattle.matching.specs.Meshed.{Meshed};
ghost use Rattle.mesh.specs.Compact.{Within};
ghost use Rattle.coarsen.specs.Pairs.{Paired};
ghost use Rattle.coarsen.specs.Joined.{weight_in, joined_of, joined_one, joined};
ghost use Rattle.coarsen.specs.Mapped.{images, mapped_net, mapped};
ghost use Rattle.coarsen.specs.Level.{Coarser, enough};
ghost use Rattle.coarsen.specs.Sizes.{HasRoom, BySize, MadeOf};

// Stays: `limit: f64, draws: &mut Draws`: a number that stays and draws that go on; nothing else is made of the two.
// Stays: `words: &mut [u64], layout: &Layout`: the layout stays as it is, and holds no words, since it is read while the words are written.
// Stays: `e < 256`, `m ≤ 256`, `n ≤ 128`, `length vw.now ≤ 128`, `nets < 32768`, `s < 1048576`: bounds of numbers, so that a place fits a machine word; a type of its own would be unwrapped at each use.

use draws::Draws;
use matching::Graph;
use partition::{Layout, Place};

// What `v` weighs with its mate.
// Stays: it reads the weights of a vertex and of its mate and adds them, and makes no value of another type.
fn weight_of(vw: &[f64], mates: &[u16], v: usize) -> f64
    ensures { result ≡ weight_in mates.now vw.now v }
{
    let u = usize::from(cells::get_or(mates, v, 0));
    let x = cells::get_or(vw, v, 0.0);
    if u == v {
        return x;
    }
    x + cells::get_or(vw, u, 0.0)
}

// `v` becomes part of the next coarse vertex, `c`, unless its mate is lower: then of its mate's. Returns how many coarse vertices there are then.
// Stays: one index names a vertex in lists of different owners: its weight and its mate are read, its place is written.
fn join(
    vw: &[f64],
    mates: &[u16],
    places: &mut [u16],
    coarse: &mut [f64],
    v: usize,
    c: usize,
) -> usize
    requires { c < 65536 }
    ensures { (joined_of places.new coarse.new result ≡ joined_one vw.now mates.now v (joined_of places.old coarse.old c)) × (result ≤ c + 1) }
{
    let u = usize::from(cells::get_or(mates, v, 0));
    if v <= u {
        let w = weight_of(vw, mates, v);
        // Stays: the number fits by what is known here; `try_from` would add a failure that never comes.
        cells::put(places, v, c as u16);
        cells::put(coarse, c, w);
        return c + 1;
    }
    let x = cells::get_or(places, u, 0);
    cells::put(places, v, x);
    c
}

// The coarse vertex of each vertex, and the weights of these. Returns how many there are.
// Stays: the number itself is meant, a vertex: `join` reads its weight and its mate by it and writes its place, in lists of different owners.
fn join_all(vw: &[f64], mates: &[u16], places: &mut [u16], coarse: &mut [f64]) -> usize
    requires { length vw.now ≤ 128 }
    ensures { (joined_of places.new coarse.new result ≡ joined vw.now mates.now (joined_of places.old coarse.old 0) (length vw.now)) × (result ≤ length vw.now) }
{
    let mut c: usize = 0;
    for v in 0..vw.len() {
        c = join(vw, mates, places, coarse, v, c);
    }
    c
}

// Puts the coarse vertices of the pins of a list into slot `s`.
// Stays: the loop lends the same words to each turn; `for_each` with a closure over them is no plainer.
fn put_coarse(graph: &mut [u64], s: usize, places: &[u16], pins: &[u16])
    requires { s < 1048576 }
    ensures { graph.new ≡ with_set graph.old 2 s (and_all graph.old 2 s (images places.now pins.now) 0 (length pins.now)) }
{
    for &v in pins {
        slots::insert(
            graph,
            2,
            s,
            usize::from(cells::get_or(places, usize::from(v), 0)),
        );
    }
}

// The pins of net `e`, mapped, go to slot `coarse` + `e`.
fn map_net(graph: &mut [u64], nets: usize, coarse: usize, places: &[u16], e: usize)
    requires { (nets < 32768) × (coarse < 32768) × (e < 256) }
    ensures { graph.new ≡ mapped_net nets coarse places.now e graph.old }
{
    let mut pins = [0u16; 128];
    let len = slots::members(graph, 2, nets + e, &mut pins, 0);
    slots::empty(graph, 2, coarse + e);
    put_coarse(graph, coarse + e, places, &pins[..len]);
}

// The same for each of `m` nets.
// Stays: the loop lends the same words to each turn; `for_each` with a closure over them is no plainer.
fn map_nets(graph: &mut [u64], nets: usize, coarse: usize, m: usize, places: &[u16])
    requires { (nets < 32768) × (coarse < 32768) × (m ≤ 256) }
    ensures { graph.new ≡ mapped nets coarse places.now graph.old m }
{
    // Stays: the nets are slots of lent words, and no list.
    for e in 0..m {
        map_net(graph, nets, coarse, places, e);
    }
}

/// How many nets and vertices a hypergraph has.
#[derive(Clone, Copy)]
// Stays: these are counts, and those of `Slots` are places, so neither may stand for the other.
pub struct Size {
    pub nets: usize,
    pub vertices: usize,
}

/// The slots in lent words at which the nets and the vertices of a hypergraph begin.
#[derive(Clone, Copy)]
// Stays: these are places, and those of `Size` are counts, so neither may stand for the other.
pub struct Slots {
    pub nets: usize,
    pub vertices: usize,
}

// The coarser hypergraph of a matching, in slots of its own, with `weights2` and `vw2`, and the coarse vertex of each vertex in `places`.
// Stays: the layout and the matching are read, the words and three lists of the coarser level written; the one caller has them as parameters of its own.
fn level(
    words: &mut [u64],
    layout: &Layout,
    mates: &[u16],
    slots: Slots,
    weights2: &mut [u8],
    vw2: &mut [f64],
    places: &mut [u16],
) -> Size
    requires { (layout.now.net_count ≤ 256) × (length layout.now.vertex_weights.now ≤ 128) × Within words.old layout.now.nets layout.now.net_count (length layout.now.vertex_weights.now) × Paired (length layout.now.vertex_weights.now) mates.now × (length layout.now.vertex_weights.now ≤ length places.old) × (length layout.now.vertex_weights.now ≤ length vw2.old) × (layout.now.net_count ≤ length weights2.old) × (layout.now.nets + 256 ≤ slots.nets) × (slots.nets + 256 ≤ slots.vertices * 2) × ((slots.vertices + 128) * 4 ≤ length words.old) × (slots.nets < 32768) × (slots.vertices < 32768) }
    ensures { Coarser words.old layout.now.nets layout.now.net_weights.now layout.now.net_count layout.now.vertex_weights.now mates.now slots.nets slots.vertices words.new weights2.new result.nets vw2.new result.vertices places.new × (length (take result.vertices vw2.new) ≡ result.vertices) }
{
    let n = join_all(layout.vertex_weights, mates, places, vw2);
    map_nets(words, layout.nets, slots.nets, layout.net_count, places);
    let place = Place {
        nets: slots.nets,
        vertices: slots.vertices,
        sides: layout.sides,
        net_count: layout.net_count,
        vertex_count: n,
    };
    let k = mesh::mesh(words, &place, layout.net_weights, weights2);
    Size {
        nets: k,
        vertices: n,
    }
}

// Of `n` vertices, are at most 95 of 100 left.
fn is_worthwhile(n: usize, left: usize) -> bool
    requires { (n ≤ 128) × (left ≤ 128) }
    ensures { result ≡ not (enough n left) }
{
    // Stays: no `From` goes from `usize` to `f64`.
    if 0.95 * (n as f64) < (left as f64) {
        return false;
    }
    true
}

/// A coarser hypergraph, by a matching in a drawn order, in slots of its own, with `weights2` and `vw2`, and the coarse vertex of each vertex in `places`. The
/// list `mates` is for the matching. Returns how many nets and vertices the coarser hypergraph has: `Ok` where it is
/// worthwhile, and `Err` where more than 95 of 100 vertices are left. The size in `Err` is as good as that in `Ok`: the hypergraph is laid in both.
// Stays: asks a hypergraph in the words and room for the coarser one (`HasRoom`): a `Graph` only reads its words, which are written here; a struct of the four lists would be made and taken apart in each call.
pub fn coarsen(
    words: &mut [u64],
    layout: &Layout,
    limit: f64,
    draws: &mut Draws,
    slots: Slots,
    weights2: &mut [u8],
    vw2: &mut [f64],
    places: &mut [u16],
    mates: &mut [u16],
) -> Result<Size, Size>
    requires { HasRoom words.old layout.now slots weights2.old vw2.old places.old mates.old }
    ensures { BySize (MadeOf words.old words.new layout.now slots limit draws.old draws.new weights2.new vw2.new places.new mates.new) result }
{
    let graph = Graph {
        words,
        layout: *layout,
    };
    matching::match_all(&graph, limit, draws, mates);
    let size = level(words, layout, mates, slots, weights2, vw2, places);
    if is_worthwhile(layout.vertex_weights.len(), size.vertices) {
        return Ok(size);
    }
    Err(size)
}
