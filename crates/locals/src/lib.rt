#![tactic(auto)]
//! The local indices of a frontier: the unsliced ones that its members list, numbered in rising order; its sets and weights in these numbers.
ghost use Rattle.std.specs.Prelude.{not, ◌&&◌, ◌||◌, ◌≡◌, ℕ, ◌*◌, ◌^◌, ◌<◌, ◌≤◌, length, get_or};
ghost use Rattle.std.proofs.lemmas.List.Edits.{sets as put_at};
ghost use Rattle.spec.specs.Calls.{flag_at};
ghost use Rattle.slots.specs.Slots.{held, with_set};
ghost use Rattle.masks.specs.Rows.{row_has};
ghost use Rattle.locals.specs.Locals.{member_have, local_list, local_test, local_weight, LocalSets};
// Stays: `sets: &[u64], w: usize`, `words: &mut [u64], w: usize`, `w: usize, s: usize`: lists of sets whose width a caller picks, four words for all here; a struct would wrap two lists of two owners at each call.
// Stays: `w ≤ 16`, `s < 1048576`, `v < 1048576`: bounds of numbers, so that a place fits a machine word; a type of its own would be unwrapped at each use.

use slots::mix::{Either, Without, WordOp};

/// Makes slot `s` the set of the flagged indices.
// Stays: a set stands in its slot of a lent list, whose width a caller picks.
pub fn flag_set(words: &mut [u64], w: usize, s: usize, flags: &[u8])
    requires { (w ≤ 16) × (s < 1048576) }
    ensures { words.new ≡ with_set words.old w s (flag_at flags.now) }
{
    slots::empty(words, w, s);
    for (j, &flag) in flags.iter().enumerate() {
        if flag != 0 {
            slots::insert(words, w, s, j);
        }
    }
}

// Makes slot `c` of `words` what the operation makes of it and of slot `s` of `sets`.
// Stays: reads and writes past an end are allowed here: slices of both lists would ask for bounds first.
fn mix_slot<O: WordOp>(words: &mut [u64], w: usize, c: usize, sets: &[u64], s: usize)
    requires { (w ≤ 16) × (c < 1048576) × (s < 1048576) }
    ensures { words.new ≡ with_set words.old w c (λ j. O.on_members (held words.old w c j) (held sets.now w s j)) }
{
    let p = c * w;
    let q = s * w;
    for k in 0..w {
        let x = cells::get_or(words, p + k, 0);
        let y = cells::get_or(sets, q + k, 0);
        cells::put(words, p + k, O::apply(x, y));
    }
}

// Makes slot 0 of `words` the union of the slots of `m` members. A member past the list's end is 0.
// Stays: `m` may be past the list's end, where no iterator goes.
fn unite_members(words: &mut [u64], w: usize, sets: &[u64], members: &[u16], m: usize)
    requires { w ≤ 16 }
    ensures { words.new ≡ with_set words.old w 0 (member_have sets.now w members.now m) }
{
    slots::empty(words, w, 0);
    for p in 0..m {
        let member = cells::get_or(members, p, 0);
        mix_slot::<Either>(words, w, 0, sets, usize::from(member));
    }
}

/// Writes the indices that one of the `m` members lists and that are not in slot 0 of `sliced` to the front of `local`, rising, and returns how many
/// they are. Slot 0 of `words` is worked in.
// Stays: asks no more of its callers than lists that fit, and any count of members; `all_local_indices` is for a list of them.
pub fn local_indices(
    words: &mut [u64],
    w: usize,
    sets: &[u64],
    sliced: &[u64],
    members: &[u16],
    m: usize,
    local: &mut [u16],
) -> usize
    requires { (w ≤ 16) × (w ≤ length words.old) }
    ensures { (result ≡ length (local_list sets.now w members.now m sliced.now)) × (local.new ≡ put_at local.old 0 (local_list sets.now w members.now m sliced.now)) }
{
    unite_members(words, w, sets, members, m);
    mix_slot::<Without>(words, w, 0, sliced, 0);
    slots::members(words, w, 0, local, 0)
}

/// The same of all members of a list.
// Stays: `all` says that the whole list is taken: this is `local_indices` for a list of members; a set stands in its slot of a lent list, whose width a caller picks.
pub fn all_local_indices(
    words: &mut [u64],
    w: usize,
    sets: &[u64],
    sliced: &[u64],
    members: &[u16],
    local: &mut [u16],
) -> usize
    requires { (w ≤ 16) × (w ≤ length words.old) }
    ensures { (result ≡ length (local_list sets.now w members.now (length members.now) sliced.now)) × (local.new ≡ put_at local.old 0 (local_list sets.now w members.now (length members.now) sliced.now)) }
{
    local_indices(words, w, sets, sliced, members, members.len(), local)
}

// Makes slot 0 of `row` the local indices, of `c`, that slot `node` of `sets` has. A local index past the list's end stands for 0.
// Stays: `c` may be past the list's end, where no iterator goes.
fn put_local(row: &mut [u64], sets: &[u64], w: usize, node: usize, local: &[u16], c: usize)
    requires { (w ≤ 16) × (node < 1048576) }
    ensures { row.new ≡ with_set row.old 2 0 (local_test sets.now w node local.now c) }
{
    slots::empty(row, 2, 0);
    for i in 0..c {
        let j = cells::get_or(local, i, 0);
        if slots::has(sets, w, node, usize::from(j)) {
            slots::insert(row, 2, 0, i);
        }
    }
}

// The local indices, of `c`, that slot `node` of `sets` has, as a row.
fn local_row(sets: &[u64], w: usize, node: usize, local: &[u16], c: usize) -> [u64; 2]
    requires { (w ≤ 16) × (node < 1048576) }
    ensures { (i : ℕ) → i < 128 → row_has result i ≡ local_test sets.now w node local.now c i }
{
    let mut row = [0; 2];
    put_local(&mut row, sets, w, node, local, c);
    row
}

/// The local indices, of `c`, of the node `v` in the row of the mask of none, and those of each of the `m` members in the row of its mask.
// Stays: asks no more of its callers than lists that fit, and any counts, of at most 12 members; `all_local_sets` is for lists of them.
pub fn local_sets(
    united: &mut [[u64; 2]],
    sets: &[u64],
    w: usize,
    v: usize,
    members: &[u16],
    m: usize,
    local: &[u16],
    c: usize,
)
    requires { (w ≤ 16) × (v < 1048576) × (m ≤ 12) × (2 ^ m ≤ length united.old) }
    ensures { LocalSets sets.now w v members.now m local.now c united.new }
{
    united[0] = local_row(sets, w, v, local, c);
    for p in 0..m {
        let member = cells::get_or(members, p, 0);
        united[subset::mask_count(p)] = local_row(sets, w, usize::from(member), local, c);
    }
}

/// The same of all members and all local indices of lists.
// Stays: `all` says that both lists are taken whole: this is `local_sets` for a list of members.
pub fn all_local_sets(
    united: &mut [[u64; 2]],
    sets: &[u64],
    w: usize,
    v: usize,
    members: &[u16],
    local: &[u16],
)
    requires { (w ≤ 16) × (v < 1048576) × (length members.now ≤ 12) × (2 ^ length members.now ≤ length united.old) }
    ensures { LocalSets sets.now w v members.now (length members.now) local.now (length local.now) united.new }
{
    local_sets(
        united,
        sets,
        w,
        v,
        members,
        members.len(),
        local,
        local.len(),
    );
}

/// The weights of the `c` local indices, and 0 past them.
// Stays: asks no more of its callers than lists that fit, and any count: `c` may be past the list's end, where no iterator goes.
pub fn local_weights(out: &mut [u8], weights: &[u8], local: &[u16], c: usize)
    ensures { (i : ℕ) → i < length out.old → get_or out.new i 0 ≡ local_weight weights.now local.now c i }
{
    cells::fill(out, 0);
    for i in 0..c {
        let j = cells::get_or(local, i, 0);
        cells::put(out, i, cells::get_or(weights, usize::from(j), 0));
    }
}

/// The weights of all local indices of a list, and 0 past them.
// Stays: `all` says that the whole list is taken: this is `local_weights` for a list of indices.
pub fn all_local_weights(out: &mut [u8], weights: &[u8], local: &[u16])
    ensures { (i : ℕ) → i < length out.old → get_or out.new i 0 ≡ local_weight weights.now local.now (length local.now) i }
{
    local_weights(out, weights, local, local.len());
}
