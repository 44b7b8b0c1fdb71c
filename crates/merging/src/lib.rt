#![tactic(auto)]
//! Greedy's merging, turn after turn: the two tables of the least pair make one.
//! A table keeps its slot, and each new table takes the next one.
ghost use Rattle.std.specs.Prelude.{[], ◌∷◌, ◌++◌, ◌≡◌, ◌+◌, ◌<◌, ◌≤◌, length, get_or, IfOk};
ghost use Rattle.tables.specs.Lists.{coded, chosen_code, lists_in};
ghost use Rattle.rows.specs.Rows.{least_of};
ghost use Rattle.merging.specs.Listed.{remaining};
ghost use Rattle.merging.specs.Holds.{Given, Ghost};
ghost use Rattle.merging.specs.Connect.{Start, Connected};
ghost use Rattle.merging.specs.Scans.{kids_behind};
ghost use Rattle.merging.specs.Merge.{first_at, second_at, with_node, scanned_in, merged_in};

// Stays: `tables: &mut Tables, scoring: &Scoring`: the one is written and the other read; a value that lends both would have each clause say that the same tables come back.
// Stays: `x: usize, y: usize`: two slots that are taken out of one list.
use arrayvec::ArrayVec;
use rows::Pairs;
use tables::PairTooWide;
use tables::choice::Choice;
use tables::row::Row;
use tables::scoring::Scoring;
use tables::slotted::Tables;

/// The most tables at the start: the nodes that they make take the slots behind theirs, of 256 in all.
const MAX_TABLES: usize = 128;

/// Takes the slots `x` and `y` out of a list.
pub fn remove<const CAP: usize>(live: &mut ArrayVec<u16, CAP>, x: usize, y: usize)
    ensures items { live.new.items ≡ remaining x y live.old.items }
    ensures few { length live.new.items ≤ length live.old.items }
{
    live.retain(|slot| usize::from(*slot) != x && usize::from(*slot) != y);
}

/// Puts the numbers of two tables down as the children of the node at place `count`.
// Stays: `count` is the number of the node, and not how long the list is.
pub fn put_node(kids: &mut [u16], count: usize, l: u16, r: u16)
    requires { count < 1048576 }
    ensures { kids.new ≡ with_node kids.old count l r }
{
    // Stays: the two children of a node stand side by side in a flat list, as in that of the C interface, into which a caller above puts them.
    cells::put(kids, count * 2, l);
    // Stays: the second child stands behind the first, in the same list.
    cells::put(kids, count * 2 + 1, r);
}

/// The numbers of two tables that make one.
// Stays: two node numbers on their way into the stored tree; a subtree's children elsewhere are places or sets, and neither may stand for these.
#[derive(Clone, Copy)]
struct Children {
    left: u16,
    right: u16,
}

/// Merges the two tables of the pair that the row of slot `y` names into slot `z`, whose number is `node`.
fn merge(
    sets: &mut [u64],
    tables: &mut Tables,
    scoring: &Scoring,
    y: u16,
    z: u16,
    node: u16,
) -> Children
    requires { length tables.old.live.items < 256 }
    ensures lists { lists_in sets.new tables.new ≡ merged_in scoring.now.width scoring.now.start y z node (lists_in sets.old tables.old) }
    ensures few { length tables.new.live.items ≤ length tables.old.live.items + 1 }
    ensures left { result.left ≡ get_or tables.old.nodes (first_at scoring.now.start (coded tables.old.rows) y) 0 }
    ensures right { result.right ≡ get_or tables.old.nodes (second_at scoring.now.start (coded tables.old.rows) y) 0 }
{
    let slot = usize::from(z);
    let table = usize::from(y);
    let row = Row::at(&tables.rows, table);
    let first = scores::first(scoring.start, row.other(), table);
    let second = scores::second(scoring.start, row.other(), table);
    let left = cells::get_or(&tables.nodes, first, 0);
    let right = cells::get_or(&tables.nodes, second, 0);
    live::put_merged(sets, scoring.width, first, second, slot);
    cells::put(&mut tables.nodes, slot, node);
    cells::put(&mut tables.sizes, slot, row.bits());
    cells::put(&mut tables.rows, first, Row::GONE);
    cells::put(&mut tables.rows, second, Row::GONE);
    cells::put(&mut tables.rows, slot, Row::STALE);
    remove(&mut tables.live, first, second);
    tables.live.push(z);
    Children { left, right }
}

/// Scans the live tables for the one with the least pair of all, none where no two share an index; refused where a pair is too wide.
fn scan(
    sets: &mut [u64],
    tables: &mut Tables,
    scoring: &Scoring,
) -> Result<Option<Choice>, PairTooWide>
    ensures lists { lists_in sets.new tables.new ≡ scanned_in scoring.now.width scoring.now.weights.now scoring.now.start (lists_in sets.old tables.old) }
    ensures least { chosen_code result ≡ least_of tables.new.sizes scoring.now.start (coded tables.new.rows) tables.new.live.items (length tables.new.live.items) }
{
    live::put_holders(sets, scoring.width, tables.live.as_slice());
    rows::renew_all(
        sets,
        &tables.sizes,
        scoring,
        tables.live.as_slice(),
        &mut tables.rows,
    );
    let pairs = Pairs {
        sizes: &tables.sizes,
        start: scoring.start,
        rows: &tables.rows,
    };
    pairs.least(tables.live.as_slice())
}

/// Merges the least pair of the live tables and its like until none share an index, and returns how many merges there were; refused where a
/// pair is too wide. The array so far has `count` nodes over `n` leaves. Each merge makes one more, whose children are put into `kids`.
/// Of more than 128 tables none is merged, and 0 is returned: greedy starts with no more.
// Stays: the turns write the tables and may be refused, which a closure of `position` would hold and hide; `n` and `count` are numbers of leaves and nodes,
// and no lengths of `kids`, which is the flat list that is written.
pub fn connect(
    sets: &mut [u64],
    tables: &mut Tables,
    scoring: &Scoring,
    n: usize,
    count: usize,
    kids: &mut [u16],
) -> Result<usize, PairTooWide>
    requires { (n < 16384) × (count < 16384) × (scoring.now.start ≤ 256) }
    ensures bound { IfOk result (λ t. t ≤ scoring.now.start) }
    ensures connected { (G : Given) (S : Ghost) → Start G S (lists_in sets.old tables.old) scoring.now.width n scoring.now.start count scoring.now.weights.now (kids_behind S kids.old) → Connected G S (kids_behind S kids.old) tables.new.nodes tables.new.sizes tables.new.live.items (kids_behind S kids.new) result }
{
    // More tables than greedy ever starts with: `Start` cannot hold, since the slots of their nodes would run past the last one, so nothing is merged.
    if MAX_TABLES < scoring.start {
        return Ok(0);
    }
    if MAX_TABLES < tables.live.len() {
        return Ok(0);
    }
    // Stays: a number of turns, over no list: each turn scans the tables that the last one left.
    for t in 0..scoring.start {
        let Some(choice) = scan(sets, tables, scoring)? else {
            return Ok(t);
        };
        // Stays: the number fits by what is known here; `try_from` would add a failure that never comes.
        let slot = (scoring.start + t) as u16;
        // Stays: the number fits by what is known here; `try_from` would add a failure that never comes.
        let node = (n + (count + t)) as u16;
        let children = merge(sets, tables, scoring, choice.table, slot, node);
        put_node(kids, t, children.left, children.right);
    }
    Ok(scoring.start)
}
