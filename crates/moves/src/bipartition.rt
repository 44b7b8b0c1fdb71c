ghost use Rattle.std.specs.Prelude.{◌+◌, ◌-◌, ◌*◌, ◌<◌, ◌≤◌, length};
ghost use Rattle.fm.specs.Again.{Under};
ghost use Rattle.moves.specs.Split.{Split};
ghost use Rattle.moves.specs.Rolled.{Rolled};
ghost use Rattle.moves.specs.Loans.{IsSameLoan, sides_at};

// Stays: `IsSameLoan self.old self.new`: that the lists that come back are those that were lent is a fact of a call; no invariant of the struct can say it.
// Stays: `layout.now.sides < 32766`, `length layout.now.vertex_weights.now ≤ 128`: bounds of numbers, so that a place fits a machine word; a
// layout is also made where there is no partition yet, so they are none of its own.

use crate::pass::Pass;
use partition::Layout;

/// A partition that is worked on: the words that hold its hypergraph and the sides, the side of each vertex, 0 or 1, and what each side weighs.
#[derive(Drop)]
// Stays: words are read by slot and sides by vertex, so the two lists are no rows.
pub struct Bipartition<'a> {
    pub words: &'a mut [u64],
    pub part: &'a mut [u8],
    pub loads: [f64; 2],
}

impl<'a> Bipartition<'a> {
    /// Takes back the moves after the largest sum, the last one first; `moves` lists the vertices that were moved.
    pub fn roll_back(&mut self, layout: &Layout, moves: &[u16], pass: &Pass)
        requires { (layout.now.sides < 32766) × (length layout.now.vertex_weights.now ≤ 128) × (layout.now.sides * 2 + 6 ≤ length self.old.words.now) × Split self.old.words.now layout.now.sides (length layout.now.vertex_weights.now) self.old.part.now × Under (length layout.now.vertex_weights.now) pass.now.count moves.now }
        ensures lent { IsSameLoan self.old self.new }
        ensures rolled { Rolled self.old.words.now self.new.words.now layout.now.sides layout.now.vertex_weights.now moves.now pass.now.count (pass.now.count - pass.now.peak) (sides_at self.old) (sides_at self.new) }
    {
        crate::roll_back(
            self.words,
            layout.sides,
            layout.vertex_weights,
            self.part,
            &mut self.loads,
            moves,
            pass.count,
            pass.peak,
        );
    }
}
