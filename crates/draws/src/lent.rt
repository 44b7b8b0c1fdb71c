ghost use Rattle.std.specs.Prelude.{◌≡◌, ◌<◌, length};
ghost use Rattle.spec.specs.Draws.{lent_words, draw, unit_draw, index_draw};
ghost use Rattle.draws.specs.Cursor.{words_at};

use std::marker::Model;

/// Lent words that stand for a random generator, and how many draws were due so far: one more than there are words, once one was due past the end. Clauses see
/// the words that are left, and whether a draw was due when none was.
// Stays: lent words, and how many draws were due; one type for this and for another list with a number could name neither.
#[derive(Drop)]
pub struct Draws<'a> {
    words: &'a [u64],
    taken: usize,
}

impl<'a> Model for Draws<'a> {
    ghost use Rattle.spec.specs.Draws.{Words};

    ghost Value = { Words };

    ghost use Rattle.draws.specs.Cursor.{words_at};

    ghost view = { λ d. words_at d.words.now d.taken };
}

impl<'a> Draws<'a> {
    /// The words from place `at` on are left, wherever that is. Above the number of words, a draw was due past the end.
    // Stays: this makes one value of a list and a place in it; no other signature has both.
    pub fn at(words: &'a [u64], at: usize) -> Draws<'a>
        ensures { result ≡ words_at words.now at }
    {
        Draws { words, taken: at }
    }

    /// All of the words are left.
    pub fn new(words: &'a [u64]) -> Draws<'a>
        ensures { result ≡ lent_words words.now }
    {
        Draws::at(words, 0)
    }

    /// The next word, and 0 past the end.
    // Stays: 0 is a draw as any other, as the definition has it; `is_exhausted` tells that one was due past the end.
    fn next(&mut self) -> u64
        ensures value { result ≡ (draw self.old).value }
        ensures words { self.new ≡ (draw self.old).words }
    {
        let (words, taken) = (self.words, self.taken);
        if taken < words.len() {
            self.taken = taken + 1;
            return words[taken];
        }
        self.taken = words.len() + 1;
        0
    }

    /// A number from 0 to 1, without 1.
    pub fn unit(&mut self) -> f64
        ensures value { result ≡ (unit_draw self.old).value }
        ensures words { self.new ≡ (unit_draw self.old).words }
    {
        crate::unit_draw(self.next())
    }

    /// An index below `n`.
    pub fn index(&mut self, n: usize) -> usize
        requires { 0 < n }
        ensures value { result ≡ (index_draw n self.old).value }
        ensures below { result < n }
        ensures words { self.new ≡ (index_draw n self.old).words }
    {
        // Stays: no `From` goes between `u64` and `usize`, and the remainder fits.
        (self.next() % (n as u64)) as usize
    }

    /// How many words are left.
    pub fn left(&self) -> usize
        ensures { result ≡ length self.now.left }
    {
        self.words.len().saturating_sub(self.taken)
    }

    /// Was a draw due past the end.
    pub fn is_exhausted(&self) -> bool
        ensures { result ≡ self.now.exhausted }
    {
        self.words.len() < self.taken
    }
}
