// Words and decimal numbers written to a lent buffer, one after another.
ghost use Rattle.std.specs.Prelude.{◌≡◌, ◌∷◌, [], ◌+◌, ◌≤◌, length};
ghost use Rattle.spec.specs.Text.{decimal, spaced, line_of};
ghost use Rattle.steplines.specs.Puts.{Puts};

use itoa::Buffer;

// Stays: `length word.now ≤ 64`: a bound of a number, so that a sum fits a machine word; a type of words would be made at each call.

// Stays: `write!` answers a Result that no line here can fail with; the calls answer nothing, and their contracts name the bytes.
/// A lent buffer that is written from a place on, and the place behind what was put so far. Past the buffer's end nothing is written, and
/// the place goes on: a buffer that is shorter than the text gets the text's front.
#[derive(Drop)]
pub struct Text<'a> {
    buffer: &'a mut [u8],
    len: usize,
}

impl<'a> Text<'a> {
    /// A text of no bytes yet, at the buffer's front.
    pub fn new(buffer: &'a mut [u8]) -> Text<'a>
        ensures same { result.buffer.ghost_name ≡ buffer.entry.ghost_name }
        ensures bytes { result.buffer.now ≡ buffer.old }
        ensures empty { result.len ≡ 0 }
    {
        Text::at(buffer, 0)
    }

    /// A text that begins at a place of the buffer. What stands before it stays.
    pub fn at(buffer: &'a mut [u8], place: usize) -> Text<'a>
        ensures same { result.buffer.ghost_name ≡ buffer.entry.ghost_name }
        ensures bytes { result.buffer.now ≡ buffer.old }
        ensures begun { result.len ≡ place }
    {
        Text { buffer, len: place }
    }

    // Stays: a place that goes on past the buffer's end, which is no list's length.
    /// How many bytes there are up to the text's end, those past the buffer's end too.
    #[inline]
    pub fn len(&self) -> usize
        ensures { result ≡ self.now.len }
    {
        self.len
    }

    /// Puts the bytes of a word.
    pub fn put_word(&mut self, word: &[u8])
        requires { (self.old.len ≤ 8589934592) × (length word.now ≤ 64) }
        ensures { Puts self.old word.now self.new }
    {
        let Text { buffer, len } = self;
        cells::place(buffer, *len, word);
        *len += word.len();
    }

    /// Puts a number in decimal.
    pub fn put_decimal(&mut self, x: u64)
        requires { self.old.len ≤ 4294967296 }
        ensures written { Puts self.old (decimal x) self.new }
        ensures short { self.new.len ≤ self.old.len + 20 }
    {
        let mut digits = Buffer::new();
        self.put_word(digits.format(x).as_bytes());
    }

    /// Puts a space and a number.
    pub fn put_number(&mut self, x: u64)
        requires { self.old.len ≤ 4294967295 }
        ensures written { Puts self.old (spaced (x ∷ [])) self.new }
        ensures short { self.new.len ≤ self.old.len + 21 }
    {
        self.put_word(b" ");
        self.put_decimal(x);
    }

    /// Puts a line of a word.
    pub fn put_bare_line(&mut self, word: &[u8])
        requires { (self.old.len ≤ 4294967040) × (length word.now ≤ 64) }
        ensures written { Puts self.old (line_of word.now []) self.new }
        ensures short { self.new.len ≤ self.old.len + 65 }
    {
        self.put_word(word);
        self.put_word(b"\n");
    }

    /// Puts a line of a word and a number.
    pub fn put_line(&mut self, word: &[u8], x: u64)
        requires { (self.old.len ≤ 4294967040) × (length word.now ≤ 64) }
        ensures written { Puts self.old (line_of word.now (x ∷ [])) self.new }
        ensures short { self.new.len ≤ self.old.len + 86 }
    {
        self.put_word(word);
        self.put_number(x);
        self.put_word(b"\n");
    }
}
