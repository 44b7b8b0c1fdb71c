// A slot made of one of its own list and one of another list.
ghost use Rattle.std.specs.Prelude.{◌≡◌, ◌+◌, ◌*◌, ◌≤◌, length};
ghost use Rattle.slots.specs.Slots.{held, with_set};

use slots::mix::WordOp;

/// Makes slot `c` of `words` what the operation makes of its slot `a` and of slot `b` of `other`.
// Stays: by word, as a zip with a list that is written tells the proof only its length.
pub(crate) fn combine_with<O: WordOp>(
    words: &mut [u64],
    w: usize,
    a: usize,
    c: usize,
    other: &[u64],
    b: usize,
)
    requires { (a * w + w ≤ length words.old) × (c * w + w ≤ length words.old) × (b * w + w ≤ length other.now) }
    ensures { words.new ≡ with_set words.old w c (λ j. O.on_members (held words.old w a j) (held other.now w b j)) }
{
    let p = a * w;
    let q = b * w;
    let r = c * w;
    for k in 0..w {
        words[r + k] = O::apply(words[p + k], other[q + k]);
    }
}
