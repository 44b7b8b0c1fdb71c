// Sums by index: over steps, the work of those whose children list the index; over tables above a target, the size of those that list it.
// One pass over the nodes serves all indices.
ghost use Rattle.std.specs.Prelude.{◌≡◌, ◌+◌, ◌*◌, ◌^◌, ◌<◌, ◌≤◌, length};
ghost use Rattle.spec.specs.Lists.{keep, range};
ghost use Rattle.bits.specs.Lowest.{places};
ghost use Rattle.slots.specs.Weigh.{either};
ghost use Rattle.laws.specs.FlatLaws.{left_of, right_of};
ghost use Rattle.slicing.specs.Sums.{Added, Summed, Small};
ghost use Rattle.slicing.specs.Nodes.{StepsKnown, TablesKnown, step_share, table_share, size_above};

// Stays: `sets: &[u64], w: usize`, `x: u64, base: usize`: slots of a lent list by their width, words of these by their first index; a struct would wrap the two at each turn.

use bits::Digits;
use pricing::list::PriceList;
use walk::Tree;

// Adds `amount` at place `base` + i for each set digit i of `x`.
// Stays: a `for` over the digits; a chain with `for_each` would need a closure with a contract that lends `sums`.
fn add_word(sums: &mut [u64], x: u64, base: usize, amount: u64)
    requires { (base + 64 ≤ length sums.old) × Small 4611686018427387904 sums.old × (amount ≤ 1152921504606846976) }
    ensures { Added amount sums.old (places base 64 x) sums.new }
{
    for i in Digits::of(x) {
        let j = base + i;
        sums[j] += amount;
    }
}

// Adds `amount` at the place of each index that slot `a` or slot `b` has.
// Stays: two slots are read at the same word, whose number is the base of its indices as well.
fn add_slots(sums: &mut [u64], sets: &[u64], w: usize, a: usize, b: usize, amount: u64)
    requires { (w * 64 ≤ length sums.old) × (a * w + w ≤ length sets.now) × (b * w + w ≤ length sets.now) × Small 2305843009213693952 sums.old × (amount ≤ 1152921504606846976) }
    ensures { Added amount sums.old (keep (either sets.now w a b) (range (w * 64))) sums.new }
{
    let p = a * w;
    let q = b * w;
    for k in 0..w {
        add_word(sums, sets[p + k] | sets[q + k], k * 64, amount);
    }
}

// Stays: the power of two with the bound that the sums need.
fn exp2(b: usize) -> u64
    requires { b < 53 }
    ensures { (result ≡ 2 ^ b) × (result ≤ 1152921504606846976) }
{
    1 << b
}

/// Adds 2 to the work bits of each step at the places of the indices that its children list.
// Stays: a `for` over the nodes; a chain with `for_each` would need a closure with a contract that lends `sums`.
pub fn add_works(sums: &mut [u64], list: &PriceList, w: usize, tree: &Tree, order: &[u16])
    requires { StepsKnown w tree.now.leaves tree.now.kids.now order.now list.now.sets.now list.now.works.now sums.old }
    ensures { Summed (step_share w (left_of tree.now.kids.now tree.now.leaves) (right_of tree.now.kids.now tree.now.leaves) list.now.sets.now list.now.works.now) sums.old order.now sums.new }
{
    let (n, kids) = (tree.leaves, tree.kids);
    for &node in order {
        let v = usize::from(node);
        let l = nodesets::left(kids, n, v);
        let r = nodesets::right(kids, n, v);
        add_slots(sums, list.sets, w, l, r, exp2(usize::from(list.works[v])));
    }
}

// Adds the size bits of table `v`, if they are above the target, at the place of each index that it lists.
fn add_size(sums: &mut [u64], sets: &[u64], w: usize, v: usize, size: u16, target: u16)
    requires { (w * 64 ≤ length sums.old) × (v * w + w ≤ length sets.now) × Small 2305843009213693952 sums.old }
    ensures { Added (size_above target size) sums.old (keep (either sets.now w v v) (range (w * 64))) sums.new }
{
    if size <= target {
        return;
    }
    add_slots(sums, sets, w, v, v, u64::from(size));
}

/// Adds the size bits of each of the `m` tables that is above the target at the places of the indices that it lists.
// Stays: a `for` over the sizes; a chain with `for_each` would need a closure with a contract that lends `sums`.
pub fn add_sizes(sums: &mut [u64], sets: &[u64], sizes: &[u16], w: usize, m: usize, target: u16)
    requires { TablesKnown w m sets.now sizes.now sums.old }
    ensures { Summed (table_share w target sets.now sizes.now) sums.old (range m) sums.new }
{
    for (v, &size) in sizes[..m].iter().enumerate() {
        add_size(sums, sets, w, v, size, target);
    }
}
