#![tactic(auto)]
// The leaves below each node of a tree, as sets in slots of lent words, and whether two trees have the same sets.
ghost use Rattle.std.specs.Prelude.{false, ◌≡◌, ◌-◌, ◌<◌, ◌≤◌, length, IfSome};
ghost use Rattle.std.specs.Option.{is_some};
ghost use Rattle.spec.specs.Lists.{anyb, from};
ghost use Rattle.spec.specs.Tree.{pairs_of, step_order, same_plan};
ghost use Rattle.spec.specs.Calls.{wrong_tree};
ghost use Rattle.leafsets.specs.Passes.{singles, ups};
ghost use Rattle.leafsets.specs.Search.{same_words, first_from, if_below, all_found};
// Stays: `w: usize, s: usize`, `w ≤ 16`, `s < 1048576`, `base ≤ 65536`: a slot is named by its list, width and number, with bounds so that a place fits a machine word, as in `slots`.
// Stays: `kids: &[u16], order: &[u16]`, `n: usize, kids: &[u16]`, `n: usize, ws: &mut [u64]`, `wrong_tree n kids.now ≡ false`, `n ≤ 128`, `2048 ≤ length ws.old`: two trees of one number of leaves, walked once each; a `Tree` of each would have the number twice, and a clause that both are one.

// Makes slot `base` + i the set of i alone, for the leaves i below `n`.
// Stays: by number: a leaf's number is its slot's, and the one member of its set.
fn leaf_sets(ws: &mut [u64], w: usize, base: usize, n: usize)
    requires { (w ≤ 16) × (base ≤ 65536) × (n ≤ 65536) }
    ensures { ws.new ≡ singles w base ws.old n }
{
    for i in 0..n {
        slots::empty(ws, w, base + i);
        slots::insert(ws, w, base + i, i);
    }
}

// In the order given, makes slot `base` + v the union of those of v's children.
// Stays: each turn writes the same lent words, and a node has two places of the list.
fn join_up(ws: &mut [u64], w: usize, base: usize, n: usize, kids: &[u16], order: &[u16])
    requires { (w ≤ 16) × (base ≤ 65536) }
    ensures { ws.new ≡ ups w base kids.now n ws.old order.now }
{
    for &node in order {
        let v = usize::from(node);
        let j = v.saturating_sub(n) * 2;
        let l = usize::from(cells::get_or(kids, j, 0));
        let r = usize::from(cells::get_or(kids, j + 1, 0));
        slots::unite(ws, w, base + l, base + r, base + v);
    }
}

// Do slots `s` and `u` hold the same words.
// Stays: by word of two slots of one list, read as 0 past its end; tried as `all` over two ranges, the proof did not close.
fn same_set(ws: &[u64], w: usize, s: usize, u: usize) -> bool
    requires { (w ≤ 16) × (s < 1048576) × (u < 1048576) }
    ensures { result ≡ same_words w ws.now s u }
{
    let p = s * w;
    let q = u * w;
    for k in 0..w {
        if cells::get_or(ws, p + k, 0) != cells::get_or(ws, q + k, 0) {
            return false;
        }
    }
    true
}

// The first slot from `lo` on, below `hi`, that holds the words of slot `s`.
// Stays: by number of a slot; tried as `find` over the range, the proof did not close.
fn find(ws: &[u64], w: usize, s: usize, lo: usize, hi: usize) -> Option<usize>
    requires { (w ≤ 16) × (s < 1048576) × (lo ≤ hi) × (hi < 1048576) }
    ensures { result ≡ if_below hi (first_from (same_words w ws.now s) lo (hi - lo)) }
{
    for u in lo..hi {
        if same_set(ws, w, s, u) {
            return Some(u);
        }
    }
    None
}

// One among all slots from `lo` on below `hi`, those from `hint` on first.
// Stays: a search from a hint on, then before it; each part is one range of slots.
fn find_near(ws: &[u64], w: usize, s: usize, lo: usize, hi: usize, hint: usize) -> Option<usize>
    requires { (w ≤ 16) × (s < 1048576) × (lo ≤ hint) × (hint ≤ hi) × (hi < 1048576) }
    ensures any { is_some result ≡ anyb (same_words w ws.now s) (from lo (hi - lo)) }
    ensures within { IfSome result (λ u. (lo ≤ u) × (u < hi)) }
{
    if let Some(u) = find(ws, w, s, hint, hi) {
        return Some(u);
    }
    find(ws, w, s, lo, hint)
}

// Is each of the `count` slots from `s` on like one of the `count` slots from `t` on.
// Stays: each turn begins its search where the last one ended, so no closure tests a slot by itself.
fn all_found(ws: &[u64], w: usize, s: usize, t: usize, count: usize) -> bool
    requires { (w ≤ 16) × (s ≤ 65536) × (t ≤ 65536) × (count ≤ 65536) }
    ensures { result ≡ all_found w ws.now s t count }
{
    let end = t + count;
    let mut hint = t;
    for k in 0..count {
        let Some(u) = find_near(ws, w, s + k, t, end, hint) else {
            return false;
        };
        hint = u + 1;
    }
    true
}

// Are two trees of `n` leaves the same plan: `order` and `sequence` are their step orders. The sets take two words each.
// Stays: two trees with their step orders, used once; `n` is the number of leaves of both.
fn same_trees(
    kids: &[u16],
    order: &[u16],
    others: &[u16],
    sequence: &[u16],
    n: usize,
    ws: &mut [u64],
) -> bool
    requires { (n ≤ 128) × (1024 ≤ length ws.old) × (wrong_tree n kids.now ≡ false) × (wrong_tree n others.now ≡ false) × (order.now ≡ step_order kids.now n) × (sequence.now ≡ step_order others.now n) }
    ensures { result ≡ same_plan n (pairs_of kids.now) (pairs_of others.now) }
{
    let base = n * 2;
    leaf_sets(ws, 2, 0, n);
    leaf_sets(ws, 2, base, n);
    join_up(ws, 2, 0, n, kids, order);
    join_up(ws, 2, base, n, others, sequence);
    let count = n.saturating_sub(1);
    if !all_found(ws, 2, n, base + n, count) {
        return false;
    }
    all_found(ws, 2, base + n, n, count)
}

/// Are two valid trees of `n` leaves the same plan. The first 2,048 words of `ws` are used, whatever they hold.
// Stays: asks no more of its callers than two lists that are trees of `n` leaves; each gets a local array for its order.
pub fn same_valid(kids: &[u16], others: &[u16], n: usize, ws: &mut [u64]) -> bool
    requires { (n ≤ 128) × (2048 ≤ length ws.old) × (wrong_tree n kids.now ≡ false) × (wrong_tree n others.now ≡ false) }
    ensures { result ≡ same_plan n (pairs_of kids.now) (pairs_of others.now) }
{
    let mut order = [0u16; 128];
    let mut sequence = [0u16; 128];
    let steps = walk::post_order(kids, n, ws, &mut order);
    let count = walk::post_order(others, n, ws, &mut sequence);
    same_trees(kids, &order[..steps], others, &sequence[..count], n, ws)
}
