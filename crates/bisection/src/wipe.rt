// The stated words made 0 at the end. Words that came as 0 and were not written are 0 still, and to look at them is faster than to write them.
ghost use Rattle.std.specs.Prelude.{false, ◌≡◌, length};
ghost use Rattle.std.specs.Int.Bits.{bit_or};
ghost use Rattle.std.specs.List.{fold};
ghost use Rattle.spec.specs.Memory.{filled, cleared};

// The bits that some word has.
fn union(words: &[u64]) -> u64
    ensures { result ≡ fold bit_or 0 words.now }
{
    words.iter().fold(0, |all, &word| all | word)
}

// Is a word not 0. All words are looked at, with no branch between them.
// Stays: tried `any`, which leaves at the first word that is set: over so many words it took four times as long.
fn any_set(words: &[u64]) -> bool
    ensures { result ≡ false → words.now ≡ filled (length words.now) 0 }
{
    union(words) != 0
}

// Makes the words 0. The first 24,576, for levels of a hypergraph past the fourth, are written only if one of them is not; behind them stand the sides.
fn zero_rest(rest: &mut [u64])
    ensures { rest.new ≡ filled (length rest.old) 0 }
{
    let m = rest.len().min(24576);
    if any_set(&rest[..m]) {
        cells::fill(rest, 0);
    } else {
        cells::fill(&mut rest[m..], 0);
    }
}

// Makes the words 0, the first 4,096, which greedy and the first four levels use, at once.
fn zero(words: &mut [u64])
    ensures { words.new ≡ filled (length words.old) 0 }
{
    let n = words.len().min(4096);
    cells::clear(words, n);
    zero_rest(&mut words[n..]);
}

// Makes the first m words 0, or all where there are fewer, as `cells::clear` does.
// Stays: the stated words are not all that are lent, and `m` may be more than there are, as `cells::clear` has it.
pub fn wipe(words: &mut [u64], m: usize)
    ensures { words.new ≡ cleared words.old m }
{
    let n = m.min(words.len());
    zero(&mut words[..n]);
}
