// Is there an index that is no output and that just one leaf names. Each index is counted up to 2, over all leaves, in one pass.
ghost use Rattle.std.specs.Prelude.{◌≡◌, ℕ, ◌<◌, ◌≤◌, eqb, length};
ghost use Rattle.spec.specs.Lists.{anyb, count};
ghost use Rattle.spec.specs.Layout.{row_at};
ghost use Rattle.spec.specs.Calls as calls;
ghost use Rattle.network.specs.Views.{net_in};
ghost use Rattle.network.specs.Checks.{Rows, leaves_of};
ghost use Rattle.reconfigure.specs.Tally.{one_more, tallied, tally_rows, struck, dangling_of};

use network::{Accepted, scan};

// One more, up to 2.
fn one_more(x: u8) -> u8
    ensures { result ≡ one_more x }
{
    if x == 0 { 1 } else { 2 }
}

// Counts the indices of a row.
// Stays: a `for` over the row; a chain with `for_each` would need a closure with a contract that lends `tally`.
fn tally_row(tally: &mut [u8], row: &[u16])
    ensures { tally.new ≡ tallied tally.old row.now }
{
    for &j in row {
        let x = one_more(cells::get_or(tally, usize::from(j), 0));
        cells::put(tally, usize::from(j), x);
    }
}

// Counts the indices of `n` leaves.
// Stays: i is the leaf whose row `scan::leaf` cuts out of `legs`, by its count.
fn tally_leaves<'a>(tally: &mut [u8], n: usize, counts: &'a [u8], legs: &'a [u16])
    requires { Rows n counts.now legs.now }
    ensures { tally.new ≡ tally_rows tally.old (leaves_of n counts.now legs.now) }
{
    for i in 0..n {
        tally_row(tally, scan::leaf(counts, legs, i));
    }
}

// Strikes the counts of the indices of a row.
// Stays: it has a name, as its promise is the tally's `struck`; `sliceable_weights` of slicing goes over outputs as well, and promises each place of a list that it fills.
fn strike(tally: &mut [u8], row: &[u16])
    ensures { tally.new ≡ struck tally.old row.now }
{
    for &j in row {
        cells::put(tally, usize::from(j), 0);
    }
}

// Is one of the counts 1.
// Stays: the one call of `any` is given a name, as its promise speaks of counts.
fn any_one(tally: &[u8]) -> bool
    ensures { result ≡ anyb (λ x. eqb x 1) tally.now }
{
    tally.iter().any(|&x| x == 1)
}

/// Does just one of `n` leaves name one of the `m` indices that is none of the `o` outputs.
// Stays: asks no more of its callers than lists that fit and leaves that name no index twice, which need not be an accepted network's; `is_dangling` is for one.
pub fn dangling<'a>(
    m: usize,
    n: usize,
    o: usize,
    counts: &'a [u8],
    legs: &'a [u16],
    outputs: &'a [u16],
) -> bool
    requires { (m ≤ 256) × Rows n counts.now legs.now × (o ≤ length outputs.now) × ((i j : ℕ) → i < n → count j (row_at counts.now legs.now i) ≤ 1) }
    ensures { result ≡ dangling_of m n o counts.now legs.now outputs.now }
{
    let mut tally = [0u8; 256];
    tally_leaves(&mut tally, n, counts, legs);
    strike(&mut tally, &outputs[..o]);
    any_one(&tally[..m])
}

/// Does just one leaf of a network name an index that is none of its outputs.
pub fn is_dangling(network: &Accepted) -> bool
    ensures { result ≡ calls.dangling (net_in network.now) }
{
    dangling(
        network.weights.len(),
        network.leg_counts.len(),
        network.outputs.len(),
        network.leg_counts,
        network.legs,
        network.outputs,
    )
}
