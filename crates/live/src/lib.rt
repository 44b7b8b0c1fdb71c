#![tactic(auto)]
//! Live tables, in slots of lent words: which share an index, and what a merge of two makes.
//! Slot 256 holds the outputs and what is named outside, slot 257 what two live tables or more hold, slot 258 what three or more hold.
ghost use Rattle.std.specs.Prelude.{◌≡◌, ◌+◌, ◌*◌, ◌<◌, ◌≤◌, length, get_or, set};
ghost use Rattle.slots.specs.Slots.{with_set};
ghost use Rattle.slots.specs.Weigh.{Light};
ghost use Rattle.live.specs.Common.{shares};
ghost use Rattle.live.specs.Holders.{count_word, with_holders};
ghost use Rattle.live.specs.Merged.{merged_set, pair_bits, word_at};

// Stays: `w ≤ 16`, `s < 1048576`, `x < 1048576`, `y < 1048576`, `k < 1048576`: bounds of numbers, so that a place fits a machine word; a type of its own would be unwrapped at each use.
// Stays: `x: usize, y: usize`: two slots of one list, read side by side.
// Stays: `sets: &[u64], w: usize`, `w: usize, s: usize`: a set is named by its list, the width of a set and its slot; two or three of one list are read in one call, so none can hold the list; a value of list and width would be made anew for each read between two writes.
// Stays: `Light weights.now`: a size takes the weights alone; a `Scoring`, which has the fact, would bring how many slots are the start's.
use tables::{OUTSIDE, THRICE, TWICE};

pub mod fronts; // fronts.rt: live tables in a list with a count beside it

/// Word `k` of slot `s`. The read is total, as the definition's: past the end a slot is empty.
#[inline]
fn word(sets: &[u64], w: usize, s: usize, k: usize) -> u64
    requires { (w ≤ 16) × (s < 1048576) × (k < 1048576) }
    ensures { result ≡ get_or sets.now (s * w + k) 0 }
{
    // Stays: a slot is a place in the stated words, whose layout the workspace fixes; the read is total there.
    cells::get_or(sets, s * w + k, 0)
}

/// Have slots `x` and `y` an index in common.
// Stays: by the number of a word, at which both slots are read; past the end of the list they are empty.
#[inline(always)]
pub fn share(sets: &[u64], w: usize, x: usize, y: usize) -> bool
    requires { (w ≤ 16) × (x < 1048576) × (y < 1048576) }
    ensures { result ≡ shares sets.now w x y }
{
    (0..w).any(|k| word(sets, w, x, k) & word(sets, w, y, k) != 0)
}

/// What two or more tables hold, and what three or more hold, in a word of their sets.
// Stays: each is a word of a set of indices, and no count of the tables that hold them.
#[derive(Clone, Copy)]
struct Holders {
    two: u64,
    three: u64,
}

/// Of word `k` the indices that two or more of the live tables hold, and those that three or more hold.
// Stays: `k` is the number of a word, and not how long the list is.
fn count_holders(sets: &[u64], w: usize, live: &[u16], k: usize) -> Holders
    requires { (w ≤ 16) × (k < 1048576) }
    ensures two { result.two ≡ count_word sets.now w live.now k 2 (length live.now) }
    ensures three { result.three ≡ count_word sets.now w live.now k 3 (length live.now) }
{
    let mut one: u64 = 0;
    let mut two: u64 = 0;
    let mut three: u64 = 0;
    for &slot in live {
        let x = word(sets, w, usize::from(slot), k);
        three |= two & x;
        two |= one & x;
        one |= x;
    }
    Holders { two, three }
}

/// Makes word `k` of slot 257 `two`, and that of slot 258 `three`.
// Stays: `k` is the number of a word, and not how long the list is; two slots lie at fixed places of the stated workspace.
fn put_words(sets: &mut [u64], w: usize, k: usize, two: u64, three: u64)
    requires { (w ≤ 16) × (k < 1048576) }
    ensures { sets.new ≡ set (set sets.old (257 * w + k) two) (258 * w + k) three }
{
    // Stays: two slots of the lent words, at fixed places of the stated workspace.
    cells::put(sets, TWICE * w + k, two);
    // Stays: two slots of the lent words, at fixed places of the stated workspace.
    cells::put(sets, THRICE * w + k, three);
}

/// Makes slot 257 what two or more of the live tables hold, and slot 258 what three or more hold, each with slot 256.
// Stays: the loop lends the same words to each turn; `for_each` with a closure over them is no plainer.
pub fn put_holders(sets: &mut [u64], w: usize, live: &[u16])
    requires { w ≤ 16 }
    ensures { sets.new ≡ with_holders sets.old w live.now (length live.now) }
{
    // Stays: the list that is read is also written, so no iterator can hold it.
    for k in 0..w {
        let held = count_holders(sets, w, live, k);
        let staying = word(sets, w, OUTSIDE, k);
        put_words(sets, w, k, held.two | staying, held.three | staying);
    }
}

/// Word `k` of the table that a merge of slots `x` and `y` makes.
#[inline(always)]
fn merged_word(sets: &[u64], w: usize, x: usize, y: usize, k: usize) -> u64
    requires { (w ≤ 16) × (x < 1048576) × (y < 1048576) × (k < 1048576) }
    ensures { result ≡ word_at sets.now w x y k }
{
    let a = word(sets, w, x, k);
    let b = word(sets, w, y, k);
    let two = word(sets, w, TWICE, k);
    let three = word(sets, w, THRICE, k);
    a & b & three | (a ^ b) & two
}

/// Its size bits.
// Stays: by the number of a word, which is the base of its indices as well.
#[inline(always)]
pub fn merged_size(sets: &[u64], w: usize, x: usize, y: usize, weights: &[u8]) -> usize
    requires { (w ≤ 16) × (x < 1048576) × (y < 1048576) × Light weights.now }
    ensures { result ≡ pair_bits sets.now w weights.now x y }
{
    (0..w)
        .map(|k| {
            let v = merged_word(sets, w, x, y, k);
            slots::weigh_word(v, k * 64, weights, &weights[..0])
        })
        .sum()
}

/// Makes slot `z` the table that a merge of slots `x` and `y` makes.
// Stays: the loop lends the same words to each turn; `for_each` with a closure over them is no plainer.
pub fn put_merged(sets: &mut [u64], w: usize, x: usize, y: usize, z: usize)
    requires { (w ≤ 16) × (x < 1048576) × (y < 1048576) × (z < 1048576) }
    ensures { sets.new ≡ with_set sets.old w z (merged_set sets.old w x y) }
{
    // Stays: the list that is read is also written, so no iterator can hold it.
    for k in 0..w {
        let v = merged_word(sets, w, x, y, k);
        // Stays: the written slot lies in the list that is read; a split of it would need an order of the three slots.
        cells::put(sets, z * w + k, v);
    }
}
