// The two halves of a list of leaves, by a partition.
ghost use Rattle.std.specs.Prelude.{◌++◌, ◌≡◌, ◌<◌, ◌≤◌, length};
ghost use Rattle.spec.specs.Memory.{over};
ghost use Rattle.spec.specs.Bisection.{members_at, left_half, right_half};
ghost use Rattle.bisect.specs.Picks.{on_side, place_after, put_at};

// Stays: `k < 1048576`: a bound of a number, so that a place fits a machine word; a type of its own would be unwrapped at each use.

// Is vertex `v` on the side that is asked for: side 0, or any other.
fn is_on(part: &[u8], v: usize, left: bool) -> bool
    ensures { result ≡ on_side left part.now v }
{
    (cells::get_or(part, v, 0) == 0) == left
}

// Stays: `k` is the next free place of the list, not its length.
// Puts the leaf at place `v` of the list at place `k` if it is on the side that is asked for. Returns the next free place.
fn pick_leaf(out: &mut [u16], k: usize, leaf: u16, part: &[u8], v: usize, left: bool) -> usize
    requires { k < 1048576 }
    ensures { (result ≡ place_after (on_side left part.now v) k) × (out.new ≡ put_at (on_side left part.now v) out.old k leaf) }
{
    if is_on(part, v, left) {
        cells::put(out, k, leaf);
        return k + 1;
    }
    k
}

// Puts the leaves of the side that is asked for at the front of `out`, in their order, and returns how many they are.
fn pick(out: &mut [u16], leaves: &[u16], part: &[u8], left: bool) -> usize
    requires { length leaves.now ≤ 65536 }
    ensures { (result ≡ length (members_at (on_side left part.now) 0 leaves.now)) × (out.new ≡ over out.old (members_at (on_side left part.now) 0 leaves.now)) }
{
    let mut k: usize = 0;
    for (v, &leaf) in leaves.iter().enumerate() {
        k = pick_leaf(out, k, leaf, part, v, left);
    }
    k
}

/// Puts the leaves of side 0 before the others, each in their order, and returns how many are on side 0. The list `others` is for a copy.
// Stays: `leaves` is a list of leaf numbers that is written; a `Tree` is a list of children that is only read.
pub fn halve(leaves: &mut [u16], part: &[u8], others: &mut [u16]) -> usize
    requires { (length leaves.old ≤ length others.old) × (length leaves.old ≤ 65536) }
    ensures { (result ≡ length (left_half part.now leaves.old)) × (leaves.new ≡ left_half part.now leaves.old ++ right_half part.now leaves.old) }
{
    let n = leaves.len();
    cells::copy(others, leaves, n);
    let left = pick(leaves, &others[..n], part, true);
    pick(&mut leaves[left..], &others[..n], part, false);
    left
}
