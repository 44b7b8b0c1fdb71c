#![tactic(auto)]
//! Scores of pairs of live tables, and the least pair of a table with those before it.
ghost use Rattle.std.specs.Prelude.{◌≡◌, ◌+◌, ◌^◌, ◌<◌, ◌≤◌, get_or};
ghost use Rattle.tables.specs.Lists.{code};
ghost use Rattle.tables.specs.Scores.{Scores};
ghost use Rattle.scores.specs.Scores.{power, first_of, second_of, key_at, over_forty, lesser_of, considered, row_of};

// Stays: `y < 1048576`: a bound of a number, so that a place fits a machine word; a type of its own would be unwrapped at each use.
// Stays: `x: usize, y: usize`: two slots of one list, the lower first.
// Stays: `sets: &[u64], sizes: &[usize]`, `sizes: &[usize], scoring: &Scoring`: sets and sizes lie by slot in lists of two lengths, and change from turn to turn, while the scoring is one for all of greedy.
use tables::row::Row;
use tables::scoring::Scoring;
use tables::{PairTooWide, Score};

/// 2 to the power `bits`, and 0 above 40.
// Stays: it is 0 above 40, where a pair is refused; the power of costs goes to 52, and asks its callers for no more.
fn exp2(bits: usize) -> u64
    ensures { (result ≡ power bits) × (result ≤ 2 ^ 40) }
{
    if bits < 41 { 1 << bits } else { 0 }
}

/// What a merge of slots `x` and `y` takes.
fn takes(sizes: &[usize], x: usize, y: usize) -> u64
    ensures { (result ≡ power (get_or sizes.now x 0) + power (get_or sizes.now y 0)) × (result ≤ 2 ^ 41) }
{
    exp2(cells::get_or(sizes, x, 0)) + exp2(cells::get_or(sizes, y, 0))
}

/// Of two slots, the lower first, the one that goes first in their pair: `start` slots are the start's.
// Stays: two tables of the start go in the order of their slots, and else the later one, which was made, goes first: a rule of greedy's order, stated for
// each of the two places of a pair. A function that returns both would make a pair that each caller takes apart.
pub fn first(start: usize, x: usize, y: usize) -> usize
    ensures { result ≡ first_of start x y }
{
    if y < start { x } else { y }
}

/// The one that goes second.
pub fn second(start: usize, x: usize, y: usize) -> usize
    ensures { result ≡ second_of start x y }
{
    if y < start { y } else { x }
}

/// The place in greedy's order of the pair of slots `x` and `y`, whose merged table has `bits` size bits.
pub fn score(sizes: &[usize], start: usize, x: usize, y: usize, bits: usize) -> Score
    ensures { Scores (key_at sizes.now start x y bits) result }
{
    Score {
        raised: exp2(bits) + (1 << 41) - takes(sizes, x, y),
        first: first(start, x, y),
        second: second(start, x, y),
    }
}

/// Has one of two slots more than 40 bits.
fn too_wide(sizes: &[usize], x: usize, y: usize) -> bool
    ensures { result ≡ over_forty sizes.now x y }
{
    40 < cells::get_or(sizes, x, 0) || 40 < cells::get_or(sizes, y, 0)
}

/// Of the least pair of `y` so far and its pair with `x`, whose merged table has `bits` size bits, the one that comes first.
// Stays: the order is that of scores, which are made from the sizes, so the values themselves have none.
fn lesser(sizes: &[usize], start: usize, y: usize, best: Row, x: usize, bits: usize) -> Row
    requires { (bits ≤ 40) × (x < 1048576) }
    ensures { code result ≡ lesser_of sizes.now start y (code best) x bits }
{
    let pair = Row::pair(x, bits);
    if best == Row::ALONE {
        return pair;
    }
    let known = score(sizes, start, best.other(), y, best.bits());
    if score(sizes, start, x, y, bits).is_before(known) {
        pair
    } else {
        best
    }
}

/// The least pair of `y` so far, when its pair with `x` is looked at too.
#[inline(always)]
fn consider(sets: &[u64], sizes: &[usize], scoring: &Scoring, y: usize, best: Row, x: u16) -> Row
    requires { y < 1048576 }
    ensures { code result ≡ considered sets.now scoring.now.width scoring.now.weights.now sizes.now scoring.now.start y (code best) x }
{
    let w = scoring.width;
    let left = usize::from(x);
    if best == Row::TOO_WIDE {
        return best;
    }
    if !live::share(sets, w, left, y) {
        return best;
    }
    let bits = live::merged_size(sets, w, left, y, scoring.weights);
    if 40 < bits {
        return Row::from(PairTooWide);
    }
    if too_wide(sizes, left, y) {
        return Row::from(PairTooWide);
    }
    lesser(sizes, scoring.start, y, best, left, bits)
}

// The least pair of `y` with the first `k` slots of a list, as `row` answers it.
// Stays: asks no more of its callers than lists that fit: `k` may be more than the list has.
#[inline(always)]
fn least_row(
    sets: &[u64],
    sizes: &[usize],
    scoring: &Scoring,
    live: &[u16],
    k: usize,
    y: usize,
) -> Row
    requires { y < 1048576 }
    ensures { code result ≡ row_of sets.now scoring.now.width scoring.now.weights.now sizes.now scoring.now.start live.now k y }
{
    let mut best = Row::ALONE;
    for i in 0..k {
        let x = cells::get_or(live, i, 0);
        best = consider(sets, sizes, scoring, y, best, x);
    }
    best
}

// The same scoring, with the width that is given: where that is a number, the compiler knows the width.
// Stays: a value with ghost fields is written out, as `..` takes none of them.
#[inline(always)]
fn of_width<'a>(scoring: &Scoring<'a>, width: usize) -> Scoring<'a>
    requires { width ≡ scoring.now.width }
    ensures width { result.width ≡ scoring.now.width }
    ensures weights { result.weights ≡ scoring.now.weights }
    ensures start { result.start ≡ scoring.now.start }
{
    Scoring {
        width,
        weights: scoring.weights,
        start: scoring.start,
    }
}

/// The least pair of `y` with the first `k` slots of a list; past its end the slot is 0. `Row::ALONE` where `y` shares an index with none of them,
/// `Row::TOO_WIDE` where a pair has over 40 bits.
// Stays: a switch on the width, of which each arm is the same call. A network's sets have four words at most, and for a width that the compiler knows it unrolls the loops
// over words; with the width handed on alone, greedy took half again as much and more where many tables share one of 256 indices.
pub fn row(
    sets: &[u64],
    sizes: &[usize],
    scoring: &Scoring,
    live: &[u16],
    k: usize,
    y: usize,
) -> Row
    requires { y < 1048576 }
    ensures { code result ≡ row_of sets.now scoring.now.width scoring.now.weights.now sizes.now scoring.now.start live.now k y }
{
    match scoring.width {
        1 => least_row(sets, sizes, &of_width(scoring, 1), live, k, y),
        2 => least_row(sets, sizes, &of_width(scoring, 2), live, k, y),
        3 => least_row(sets, sizes, &of_width(scoring, 3), live, k, y),
        4 => least_row(sets, sizes, &of_width(scoring, 4), live, k, y),
        _ => least_row(sets, sizes, scoring, live, k, y),
    }
}
