// Live tables in a list with a count beside it, which may be more than the list has: past its end the slot is 0.
ghost use Rattle.std.specs.Prelude.{◌≡◌, ◌<◌, ◌≤◌};
ghost use Rattle.live.specs.Holders.{count_word, with_holders};

use crate::{Holders, OUTSIDE, put_words, word};

/// Of word `k` the indices that two or more of the first `m` slots hold, and those that three or more hold.
// Stays: `k` is the number of a word, and `m` may be more than the list has, so no slice is as long.
fn count_holders(sets: &[u64], w: usize, live: &[u16], m: usize, k: usize) -> Holders
    requires { (w ≤ 16) × (k < 1048576) }
    ensures two { result.two ≡ count_word sets.now w live.now k 2 m }
    ensures three { result.three ≡ count_word sets.now w live.now k 3 m }
{
    let mut one: u64 = 0;
    let mut two: u64 = 0;
    let mut three: u64 = 0;
    for i in 0..m {
        let slot = usize::from(cells::get_or(live, i, 0));
        let x = word(sets, w, slot, k);
        three |= two & x;
        two |= one & x;
        one |= x;
    }
    Holders { two, three }
}

/// Makes slot 257 what two or more of the first `m` slots of a list hold, and slot 258 what three or more hold, each with slot 256. Past the end of the list
/// the slot is 0. A set has `w` words, at most 16.
// Stays: the loop lends the same words to each turn; `m` may be more than the list has, so no slice is as long.
pub fn put_holders(sets: &mut [u64], w: usize, live: &[u16], m: usize)
    requires { w ≤ 16 }
    ensures { sets.new ≡ with_holders sets.old w live.now m }
{
    // Stays: the list that is read is also written, so no iterator can hold it.
    for k in 0..w {
        let held = count_holders(sets, w, live, m, k);
        let staying = word(sets, w, OUTSIDE, k);
        put_words(sets, w, k, held.two | staying, held.three | staying);
    }
}
