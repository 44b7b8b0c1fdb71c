// Numbers as bytes, high byte first.
ghost use Rattle.std.specs.Prelude.{◌≡◌, ◌∷◌, ◌≤◌, length};
ghost use Rattle.spec.specs.Memory.{placed};
ghost use Rattle.spec.specs.Host.{bytes_of, two_each};

// Stays: `at ≤ 65536`: a bound of a place, so that the next one fits a machine word; a type of its own would be unwrapped at each use.

/// Writes x in two bytes at `at`, as far as `out` goes.
// Stays: `to_be_bytes` is a method of each integer type, and of no trait of std; the two differ in the number of bytes.
#[tactic(auto, using(crate::specs::Bytes::two_be))]
pub fn put_two(out: &mut [u8], at: usize, x: u16)
    ensures { out.new ≡ placed out.old at (bytes_of 2 x) }
{
    cells::place(out, at, &u16::to_be_bytes(x));
}

/// Writes x in eight bytes at `at`, as far as `out` goes.
// Stays: `to_be_bytes` is a method of each integer type, and of no trait of std; the two differ in the number of bytes.
#[tactic(auto, using(crate::specs::Bytes::eight_be))]
pub fn put_eight(out: &mut [u8], at: usize, x: u64)
    ensures { out.new ≡ placed out.old at (bytes_of 8 x) }
{
    cells::place(out, at, &u64::to_be_bytes(x));
}

/// Writes a byte, and x in two bytes after it.
// Stays: the buffer that a host lends may end before the place, and then nothing is written; a slice from there on would have to exist.
pub fn put_marked_two(out: &mut [u8], at: usize, mark: u8, x: u16)
    requires { at ≤ 65536 }
    ensures { out.new ≡ placed out.old at (mark ∷ bytes_of 2 x) }
{
    cells::place(out, at, &[mark]);
    put_two(out, at + 1, x);
}

/// Writes a byte, and x in eight bytes after it.
// Stays: the buffer that a host lends may end before the place, and then nothing is written; a slice from there on would have to exist.
pub fn put_marked_eight(out: &mut [u8], at: usize, mark: u8, x: u64)
    requires { at ≤ 65536 }
    ensures { out.new ≡ placed out.old at (mark ∷ bytes_of 8 x) }
{
    cells::place(out, at, &[mark]);
    put_eight(out, at + 1, x);
}

/// Writes each number of a list in two bytes, from `at` on.
// Stays: the buffer that a host lends may end before the place, and then nothing is written; a slice from there on would have to exist.
pub fn put_each(out: &mut [u8], at: usize, list: &[u16])
    requires { (at ≤ 65536) × (length list.now ≤ 65536) }
    ensures { out.new ≡ placed out.old at (two_each list.now) }
{
    for (k, &x) in list.iter().enumerate() {
        put_two(out, at + k * 2, x);
    }
}
