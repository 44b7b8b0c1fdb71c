#![tactic(auto)]
// Hypergraphs in slots of lent words, put together: raw nets are compacted to those of two pins or more, and the nets of each vertex are made from them.
ghost use Rattle.std.specs.Prelude.{◌≡◌, ◌+◌, ◌*◌, ◌^◌, ◌<◌, ◌≤◌, length};
ghost use Rattle.mesh.specs.Entries.{emptied, entered};
ghost use Rattle.mesh.specs.Crossed.{crossed_net, crossed};
ghost use Rattle.mesh.specs.Compact.{kept_of, net_kept, compacted};
ghost use Rattle.mesh.specs.Mesh.{Built};

// Stays: `words: &mut [u64], w: usize`, `w: usize, base: usize`: where slots lie in lent words; a struct of the three would be made at each call.
// Stays: `nets: usize, weights: &[u8]`: raw nets and what they weigh; there is no hypergraph yet.
// Stays: `w ≤ 16`, `base < 32768`, `nets < 32768`, `e < 256`, `m ≤ 256`, `n ≤ 256`, `place.now.nets < 32768`, `place.now.vertices < 32768`: bounds of numbers, so that a place fits a machine word; a type of its own would be unwrapped at each use.

use partition::Place;

/// Empties `n` slots from slot `base` on.
// Stays: the loop lends the same words to each turn; `for_each` with a closure over them is no plainer.
pub fn empty_all(words: &mut [u64], w: usize, base: usize, n: usize)
    requires { (w ≤ 16) × (base < 32768) × (n ≤ 256) }
    ensures { words.new ≡ emptied w base words.old n }
{
    // Stays: slots of lent words are emptied, and there is no list.
    for v in 0..n {
        slots::empty(words, w, base + v);
    }
}

/// Puts index `x` into slot `base` + v for each number v at place `at` of a list and the places after it, `n` in all; past the list's end stand numbers 0.
// Stays: asks no more of its callers than lists that fit.
pub fn put_into(
    words: &mut [u64],
    w: usize,
    base: usize,
    list: &[u16],
    at: usize,
    n: usize,
    x: usize,
)
    requires { (w ≤ 16) × (base < 32768) × (at + n < 2 ^ 64) }
    ensures { words.new ≡ entered w base list.now at x words.old n }
{
    for k in 0..n {
        let v = usize::from(cells::get_or(list, at + k, 0));
        slots::insert(words, w, base + v, x);
    }
}

/// Puts index `x` into slot `base` + v for each number v of a list.
// Stays: words and their width say where slots lie; a struct of the two would be made at each call.
pub fn put_each(words: &mut [u64], w: usize, base: usize, list: &[u16], x: usize)
    requires { (w ≤ 16) × (base < 32768) }
    ensures { words.new ≡ entered w base list.now 0 x words.old (length list.now) }
{
    put_into(words, w, base, list, 0, list.len(), x);
}

// Enters net `e` at each of its pins.
fn cross_net(words: &mut [u64], place: &Place, e: usize)
    requires { (place.now.nets < 32768) × (place.now.vertices < 32768) × (e < 256) }
    ensures { words.new ≡ crossed_net place.now.nets place.now.vertices e words.old }
{
    let mut pins = [0u16; 128];
    let len = slots::members(words, 2, place.nets + e, &mut pins, 0);
    put_each(words, 4, place.vertices, &pins[..len], e);
}

// The nets of each vertex, from the pins of the nets.
fn cross(words: &mut [u64], place: &Place)
    requires { (place.now.nets < 32768) × (place.now.vertices < 32768) × (place.now.net_count ≤ 256) × (place.now.vertex_count ≤ 128) }
    ensures { words.new ≡ crossed place.now.nets place.now.vertices place.now.vertex_count words.old place.now.net_count }
{
    empty_all(words, 4, place.vertices, place.vertex_count);
    // Stays: the nets are slots of lent words, and no list.
    for e in 0..place.net_count {
        cross_net(words, place, e);
    }
}

// Net `e` becomes net `k` if it has two pins or more. Returns how many nets are kept then.
fn keep_net(
    graph: &mut [u64],
    nets: usize,
    weights: &[u8],
    kept: &mut [u8],
    e: usize,
    k: usize,
) -> usize
    requires { (nets < 32768) × (e < 256) × (k ≤ e) }
    ensures { (kept_of graph.new kept.new result ≡ net_kept nets weights.now e (kept_of graph.old kept.old k)) × (result ≤ e + 1) }
{
    if slots::count(graph, 2, nets + e) < 2 {
        return k;
    }
    slots::unite(graph, 2, nets + e, nets + e, nets + k);
    cells::put(kept, k, cells::get_or(weights, e, 0));
    k + 1
}

// The nets of two pins or more among `m`, in their order, with their weights. Returns how many there are.
fn compact(graph: &mut [u64], nets: usize, m: usize, weights: &[u8], kept: &mut [u8]) -> usize
    requires { (nets < 32768) × (m ≤ 256) }
    ensures { (kept_of graph.new kept.new result ≡ compacted nets weights.now (kept_of graph.old kept.old 0) m) × (result ≤ m) }
{
    let mut k: usize = 0;
    // Stays: the nets are slots of lent words, and no list.
    for e in 0..m {
        k = keep_net(graph, nets, weights, kept, e, k);
    }
    k
}

/// The hypergraph whose raw nets stand in the nets' slots of a place, with a weight for each: the nets of two pins or more, with their weights in `kept`, and
/// the nets of each vertex. Returns how many nets there are.
pub fn mesh(words: &mut [u64], place: &Place, weights: &[u8], kept: &mut [u8]) -> usize
    requires { (place.now.vertices < 32768) × (place.now.net_count ≤ 256) × (place.now.vertex_count ≤ 128) × (place.now.net_count ≤ length kept.old) × (place.now.nets + 256 ≤ place.now.vertices * 2) × ((place.now.vertices + 128) * 4 ≤ length words.old) × (place.now.nets < 32768) }
    ensures { Built words.old place.now.nets place.now.vertices weights.now place.now.net_count place.now.vertex_count words.new kept.new result }
{
    let count = compact(words, place.nets, place.net_count, weights, kept);
    let made = Place {
        net_count: count,
        ..*place
    };
    cross(words, &made);
    count
}
