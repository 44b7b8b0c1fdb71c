// The least pairs of live tables in a list with a count beside it, which may be more than the list has: past its end the slot is 0.
ghost use Rattle.std.specs.Prelude.{◌≡◌};
ghost use Rattle.tables.specs.Lists.{coded, chosen_code};
ghost use Rattle.rows.specs.Rows.{renewed_all, least_of};

use crate::{Pairs, still};
use tables::PairTooWide;
use tables::choice::Choice;
use tables::row::Row;
use tables::scoring::Scoring;

/// Finds the rows of the tables in the first `m` slots of a list anew, one after another, where they do not stand. Past the end of the list the slot is 0.
// Stays: each turn reads the rows that the last one left; `m` may be more than the list has, so no slice is as long.
pub fn renew_all(
    sets: &[u64],
    sizes: &[usize],
    scoring: &Scoring,
    live: &[u16],
    m: usize,
    rows: &mut [Row],
)
    ensures { coded rows.new ≡ renewed_all sets.now scoring.now.width scoring.now.weights.now sizes.now scoring.now.start live.now (coded rows.old) m }
{
    for k in 0..m {
        let slot = usize::from(cells::get_or(live, k, 0));
        if !still(rows, Row::at(rows, slot)) {
            let found = scores::row(sets, sizes, scoring, live, k, slot);
            cells::put(rows, slot, found);
        }
    }
}

/// Of the tables in the first `m` slots of a list, the one with the least pair of all, none where no two share an index; refused where a pair is too wide.
/// Past the end of the list the slot is 0.
// Stays: it ends early where a pair is too wide; `m` may be more than the list has, so no slice is as long.
pub fn least(pairs: &Pairs, live: &[u16], m: usize) -> Result<Option<Choice>, PairTooWide>
    ensures { chosen_code result ≡ least_of pairs.now.sizes.now pairs.now.start (coded pairs.now.rows.now) live.now m }
{
    let mut best = None;
    for k in 0..m {
        best = pairs.better(best, cells::get_or(live, k, 0))?;
    }
    Ok(best)
}
