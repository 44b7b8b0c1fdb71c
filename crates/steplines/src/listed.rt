// The steps that were priced, and their lines.
ghost use Rattle.std.specs.Prelude.{cond, ◌≡◌, ◌∷◌, [], ◌+◌, ◌*◌, ◌<◌, ◌≤◌, length, get_or};
ghost use Rattle.spec.specs.Lists.{keep, range};
ghost use Rattle.spec.specs.Text.{spaced, lines_of, step_line};
ghost use Rattle.slots.specs.Slots.{held};
ghost use Rattle.steplines.specs.Puts.{Puts};
ghost use Rattle.steplines.specs.Steps.{step_from, steps_from};

use crate::digits::Text;

// Stays: `text.old.len ≤ 1000000`: a bound of a number, so that a sum fits a machine word; a type of bounded texts would be unwrapped at each line.
// Stays: `&self, text: &mut Text`: what is printed, and where to; a listing is copied, which nothing that holds a text to write in can be.

// Stays: steps and sets are of two lengths, and no place of one goes with a place of the other.
/// What pricing handed out of a plan's steps, in lists that are lent: the flat listing, five numbers a step (node, left, right, work bits,
/// size bits), and the nodes' index sets, `width` words each, of a network of so many indices.
#[derive(Clone, Copy)]
pub struct Listed<'a> {
    pub steps: &'a [u16],
    pub sets: &'a [u64],
    pub width: usize,
    pub index_count: usize,
    ghost narrow: { width ≤ 16 },
    ghost few: { index_count ≤ 256 },
}

// Stays: each number is put with a space before it; std has no method that prints a list.
// Puts the numbers of a list, a space before each.
fn put_numbers(text: &mut Text, list: &[u16])
    requires { (text.old.len ≤ 1000000) × (length list.now ≤ 64) }
    ensures written { Puts text.old (spaced list.now) text.new }
    ensures short { text.new.len ≤ text.old.len + length list.now * 6 }
{
    for x in list {
        text.put_number(u64::from(*x));
    }
}

impl<'a> Listed<'a> {
    // Stays: std has no From of usize for u64.
    // Puts the index j, if it is in node v's set.
    fn put_member(&self, text: &mut Text, v: u16, j: usize)
        requires { text.old.len ≤ 1048576 }
        ensures { Puts text.old (spaced (cond (held self.now.sets.now self.now.width v j) (j ∷ []) [])) text.new }
    {
        if slots::has(self.sets, self.width, usize::from(v), j) {
            text.put_number(j as u64);
        }
    }

    // Stays: the indices are numbers from 0 on, of which there is no list; each below the count is looked up, as the definition has it, in a set of any width.
    // Puts the indices in node v's set, rising.
    fn put_kept(&self, text: &mut Text, v: u16)
        requires { text.old.len ≤ 1000000 }
        ensures written { Puts text.old (spaced (keep (held self.now.sets.now self.now.width v) (range self.now.index_count))) text.new }
        ensures short { text.new.len ≤ text.old.len + 914 }
    {
        for j in 0..self.index_count {
            self.put_member(text, v, j);
        }
    }

    // Stays: past the listing's end the numbers are 0, where std's rows of five end.
    // The five numbers of step k.
    fn row(&self, k: usize) -> [u16; 5]
        requires { k ≤ 127 }
        ensures { result ≡ get_or self.now.steps.now (k * 5) 0 ∷ get_or self.now.steps.now (k * 5 + 1) 0 ∷ get_or self.now.steps.now (k * 5 + 2) 0 ∷ get_or self.now.steps.now (k * 5 + 3) 0 ∷ get_or self.now.steps.now (k * 5 + 4) 0 ∷ [] }
    {
        let steps = self.steps;
        let at = k * 5;
        [
            cells::get_or(steps, at, 0),
            cells::get_or(steps, at + 1, 0),
            cells::get_or(steps, at + 2, 0),
            cells::get_or(steps, at + 3, 0),
            cells::get_or(steps, at + 4, 0),
        ]
    }

    // Puts the line of step k, with the indices that its node keeps.
    fn put_step(&self, text: &mut Text, k: usize)
        requires { (text.old.len ≤ 900000) × (k ≤ 127) }
        ensures written { Puts text.old (step_line (step_from self.now.steps.now self.now.sets.now self.now.width self.now.index_count k)) text.new }
        ensures short { text.new.len ≤ text.old.len + 949 }
    {
        let row = self.row(k);
        let node = row[0];
        text.put_word(b"step");
        put_numbers(text, &row);
        self.put_kept(text, node);
        text.put_word(b"\n");
    }

    // Stays: a step is read by its number, and 0 past the listing's end, where an iterator of rows would end.
    /// Puts the lines of the first n steps.
    pub fn put_steps(&self, text: &mut Text, n: usize)
        requires { (text.old.len ≤ 1000) × (n ≤ 127) }
        ensures written { Puts text.old (lines_of step_line (steps_from self.now.steps.now self.now.sets.now self.now.width self.now.index_count n)) text.new }
        ensures short { text.new.len ≤ text.old.len + n * 949 }
    {
        for k in 0..n {
            self.put_step(text, k);
        }
    }
}
