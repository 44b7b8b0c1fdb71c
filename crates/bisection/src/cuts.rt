// Leaves halved by a partition of their hypergraph.
ghost use Rattle.std.specs.Prelude.{◌<◌, ◌≤◌, length, IfSome};
ghost use Rattle.spec.specs.Network.{Network as Net};
ghost use Rattle.bisect.specs.Whole.{Names};
ghost use Rattle.bisect.specs.Cuts.{Partitioned, CutBy, left_of};
ghost use Rattle.bisection.specs.Named.{Named};

use bisect::{halves, hypergraph};
use coarsen::{Size, Slots};
use draws::Draws;
use levels::Levels;
use network::Accepted;

// Stays: `ws: &mut [u64], network: &Accepted`: the one is written and the other read; a struct of both would be taken apart at each call below.
// Stays: `32768 ≤ length ws.old`: a bound of a number, so that the words have room for all levels; a type of its own would be unwrapped at each use.

// A partition of the leaves, to the front of `part`. The local lists hold the weights of nets and of vertices and the map to the next level, of each level.
// Stays: it takes draws and fills a lent list; a `From` would have no value to give.
fn partition_of(
    ws: &mut [u64],
    network: &Accepted,
    leaves: &[u16],
    eps: f64,
    draws: &mut Draws,
    part: &mut [u8],
)
    requires { (2 < length leaves.now) × (length leaves.now ≤ 128) × Named network.now.weights.now network.now.leg_counts.now network.now.legs.now leaves.now × (32768 ≤ length ws.old) × (128 ≤ length part.old) }
    ensures { (N : Net) → Names N network.now.weights.now network.now.leg_counts.now network.now.legs.now leaves.now → Partitioned N leaves.now eps draws.old part.new draws.new }
{
    let mut net_weights = [0u8; 7168];
    let mut vertex_weights = [0.0f64; 3584];
    let mut places = [0u16; 3584];
    let n = leaves.len();
    let slots = Slots {
        nets: 0,
        vertices: 128,
    };
    let nets = hypergraph::hypergraph_in(
        ws,
        slots,
        network,
        leaves,
        &mut net_weights,
        &mut vertex_weights[..n],
    );
    let size = Size { nets, vertices: n };
    let mut lists = Levels {
        net_weights: &mut net_weights,
        vertex_weights: &mut vertex_weights,
        places: &mut places,
    };
    bisect::bisect(ws, &mut lists, size, eps, draws, &mut part[..n]);
}

// Stays: one list is by vertex and the other a copy of leaves, each lent to another function.
// Halves the leaves by a partition, side 0 first. Returns how many go left; none where the leaves are not halved.
pub(crate) fn cut_leaves(
    leaves: &mut [u16],
    ws: &mut [u64],
    network: &Accepted,
    eps: f64,
    draws: &mut Draws,
) -> Option<usize>
    requires { (2 < length leaves.old) × (length leaves.old ≤ 128) × Named network.now.weights.now network.now.leg_counts.now network.now.legs.now leaves.old × (32768 ≤ length ws.old) }
    ensures left_in_bounds { IfSome result (λ left. (0 < left) × (left < length leaves.old)) }
    ensures cut_by { (N : Net) → Names N network.now.weights.now network.now.leg_counts.now network.now.legs.now leaves.old → CutBy N leaves.old eps draws.old leaves.new (left_of result) draws.new }
{
    let mut part = [0u8; 128];
    partition_of(ws, network, leaves, eps, draws, &mut part);
    if draws.is_exhausted() {
        return None;
    }
    let n = leaves.len();
    let mut others = [0u16; 128];
    let left = halves::halve(leaves, &part[..n], &mut others);
    if left == n {
        return None;
    }
    if left == 0 {
        return None;
    }
    Some(left)
}
