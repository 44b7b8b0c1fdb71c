#![tactic(auto)]
//! The least pair of each live table with those before it, kept from turn to turn by slot, and the least of all.
ghost use Rattle.std.specs.Prelude.{◌≡◌, length};
ghost use Rattle.tables.specs.Lists.{code, coded, choice_code, chosen_code};
ghost use Rattle.tables.specs.Scores.{Scores};
ghost use Rattle.rows.specs.Rows.{stands, renewed_all, entry_key, sooner_of, bettered, least_of};

use tables::choice::Choice;
use tables::row::Row;
use tables::scoring::Scoring;
use tables::{PairTooWide, Score};

pub mod fronts; // fronts.rt: live tables in a list with a count beside it

/// Does a row stand: it was found, and its other table is not gone.
fn still(rows: &[Row], row: Row) -> bool
    ensures { result ≡ stands (coded rows.now) (code row) }
{
    row != Row::STALE && Row::at(rows, row.other()) != Row::GONE
}

/// Finds the rows of the live tables anew, one after another, where they do not stand.
// Stays: each turn reads the rows that the last one left; `for_each` with a closure over them is no plainer.
pub fn renew_all(sets: &[u64], sizes: &[usize], scoring: &Scoring, live: &[u16], rows: &mut [Row])
    ensures { coded rows.new ≡ renewed_all sets.now scoring.now.width scoring.now.weights.now sizes.now scoring.now.start live.now (coded rows.old) (length live.now) }
{
    for (k, &table) in live.iter().enumerate() {
        let slot = usize::from(table);
        if !still(rows, Row::at(rows, slot)) {
            let found = scores::row(sets, sizes, scoring, live, k, slot);
            cells::put(rows, slot, found);
        }
    }
}

/// The pairs that the rows of the tables name, with what their scores are made of.
// Stays: two lists of any length, by slot, and a number; only what scans the rows reads them together.
#[derive(Clone, Copy)]
pub struct Pairs<'a> {
    /// the size bits of the tables
    pub sizes: &'a [usize],
    /// how many slots are the start's
    pub start: usize,
    /// what is known of their least pairs
    pub rows: &'a [Row],
}

impl Pairs<'_> {
    /// The place in greedy's order of the pair of a slot.
    fn score(&self, slot: usize) -> Score
        ensures { Scores (entry_key self.now.sizes.now self.now.start (coded self.now.rows.now) slot) result }
    {
        let row = Row::at(self.rows, slot);
        scores::score(self.sizes, self.start, row.other(), slot, row.bits())
    }

    /// Of the table with the least pair so far and one more, the one whose pair comes first.
    // Stays: a choice by itself has no order: pairs compare by scores, which are made from the sizes.
    fn sooner(&self, best: Option<Choice>, table: u16) -> Result<Option<Choice>, PairTooWide>
        ensures { chosen_code result ≡ sooner_of self.now.sizes.now self.now.start (coded self.now.rows.now) (choice_code best) table }
    {
        let Some(known) = best else {
            return Choice::of(table);
        };
        let least = self.score(usize::from(known.table));
        if self.score(usize::from(table)).is_before(least) {
            Choice::of(table)
        } else {
            Ok(best)
        }
    }

    /// The table with the least pair so far, when one more is looked at too; refused where a pair is too wide.
    // Stays: a step of the walk over the live tables: it reads the row of a slot, and may refuse, which an order of two values does not.
    fn better(&self, best: Option<Choice>, table: u16) -> Result<Option<Choice>, PairTooWide>
        ensures { chosen_code result ≡ bettered self.now.sizes.now self.now.start (coded self.now.rows.now) (choice_code best) table }
    {
        let row = Row::at(self.rows, usize::from(table));
        if row == Row::TOO_WIDE {
            return Err(PairTooWide);
        }
        if row == Row::ALONE {
            return Ok(best);
        }
        self.sooner(best, table)
    }

    /// The live table with the least pair of all, none where no two share an index; refused where a pair is too wide.
    pub fn least(&self, live: &[u16]) -> Result<Option<Choice>, PairTooWide>
        ensures { chosen_code result ≡ least_of self.now.sizes.now self.now.start (coded self.now.rows.now) live.now (length live.now) }
    {
        let mut best = None;
        for &table in live {
            best = self.better(best, table)?;
        }
        Ok(best)
    }
}
