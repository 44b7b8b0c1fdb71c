// The hypergraph of some leaves of a network: a vertex for each, and the indices that two or more of them name as nets.
ghost use Rattle.std.specs.Prelude.{◌≡◌, ◌+◌, ◌*◌, ◌<◌, ◌≤◌, length};
ghost use Rattle.spec.specs.Network.{Network as Net};
ghost use Rattle.bisect.specs.Raw.{leaf_put, raw};
ghost use Rattle.bisect.specs.Whole.{Names, IsOf};

use coarsen::Slots;
use network::Accepted;
use partition::Place;

// Stays: `leg_counts: &[u8], legs: &[u16]`: two of the lists of `Accepted`, lent apart by a caller that has lists that fit and no accepted network.
// Stays: `network: &Accepted, leaves: &[u16]`: the leaves are some of the network's, halved and lent on while the network stays.
// Stays: `length leaves.now ≤ 128`, `nets < 32768`, `slots.nets < 32768`, `slots.vertices < 32768`, `slots.nets + 256 ≤ slots.vertices * 2`, `(slots.vertices + 128) * 4 ≤ length words.old`: bounds of numbers, so that slots lie apart in the words; a type of its own would be unwrapped at each use.

// Stays: asks no more of its callers than lists that fit.
// Puts `v` into the slot of each index that leaf `l` names.
fn put_leaf(words: &mut [u64], nets: usize, leg_counts: &[u8], legs: &[u16], l: usize, v: usize)
    requires { (nets < 32768) × (l < 65536) }
    ensures { words.new ≡ leaf_put nets leg_counts.now legs.now l v words.old }
{
    // Stays: 32 places for each leaf is the layout of the list of legs in the C interface.
    let first = l * 32;
    // Stays: a leaf of more legs than the lists hold is read as 0 past their end, as in the definition, so its legs are no slice.
    for k in 0..usize::from(cells::get_or(leg_counts, l, 0)) {
        slots::insert(
            words,
            2,
            nets + usize::from(cells::get_or(legs, first + k, 0)),
            v,
        );
    }
}

// Stays: asks no more of its callers than lists that fit.
// Makes the slot of each index the set of the leaves that name it, by their numbers in the list.
fn put_leaves(words: &mut [u64], nets: usize, leg_counts: &[u8], legs: &[u16], leaves: &[u16])
    requires { (nets < 32768) × (length leaves.now ≤ 128) }
    ensures { words.new ≡ raw nets leg_counts.now legs.now leaves.now words.old (length leaves.now) }
{
    mesh::empty_all(words, 2, nets, 256);
    for (v, &l) in leaves.iter().enumerate() {
        put_leaf(words, nets, leg_counts, legs, usize::from(l), v);
    }
}

/// The hypergraph of `leaves`, in slots of its own, with `weights2` and `vw`. Returns how many nets it has. The lists are those of a network: what its indices weigh,
/// how many each leaf names, and which, from place 32 i on for leaf i.
// Stays: asks no more of its callers than lists that fit; it fills lent words, of which a `From` would have no value to give.
pub fn hypergraph_of(
    words: &mut [u64],
    slots: Slots,
    weights: &[u8],
    leg_counts: &[u8],
    legs: &[u16],
    leaves: &[u16],
    weights2: &mut [u8],
    vw: &mut [f64],
) -> usize
    requires { (length weights.now ≤ 256) × (length leaves.now ≤ 128) × (length vw.old ≡ length leaves.now) × (length weights.now ≤ length weights2.old) × (slots.nets + 256 ≤ slots.vertices * 2) × ((slots.vertices + 128) * 4 ≤ length words.old) × (slots.nets < 32768) × (slots.vertices < 32768) }
    ensures { (N : Net) → Names N weights.now leg_counts.now legs.now leaves.now → IsOf N leaves.now words.old slots.nets slots.vertices (length weights.now) words.new weights2.new result vw.new }
{
    put_leaves(words, slots.nets, leg_counts, legs, leaves);
    cells::fill(vw, 1.0);
    let place = Place {
        nets: slots.nets,
        vertices: slots.vertices,
        sides: 14336,
        net_count: weights.len(),
        vertex_count: leaves.len(),
    };
    mesh::mesh(words, &place, weights, weights2)
}

/// The same of an accepted network's leaves.
pub fn hypergraph_in(
    words: &mut [u64],
    slots: Slots,
    network: &Accepted,
    leaves: &[u16],
    weights2: &mut [u8],
    vw: &mut [f64],
) -> usize
    requires { (length leaves.now ≤ 128) × (length vw.old ≡ length leaves.now) × (length network.now.weights.now ≤ length weights2.old) × (slots.nets + 256 ≤ slots.vertices * 2) × ((slots.vertices + 128) * 4 ≤ length words.old) × (slots.nets < 32768) × (slots.vertices < 32768) }
    ensures { (N : Net) → Names N network.now.weights.now network.now.leg_counts.now network.now.legs.now leaves.now → IsOf N leaves.now words.old slots.nets slots.vertices (length network.now.weights.now) words.new weights2.new result vw.new }
{
    hypergraph_of(
        words,
        slots,
        network.weights,
        network.leg_counts,
        network.legs,
        leaves,
        weights2,
        vw,
    )
}
