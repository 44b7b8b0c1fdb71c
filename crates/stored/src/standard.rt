// Standard input and output of the programs that run stored cases, by the kit's `io`, which reaches no more of the C library than its `read` and `write`.
ghost use Rattle.std.specs.Prelude.{◌≡◌, None, Ok, length};
ghost use Rattle.std.specs.Io.{ReadsAtMost, WritesAtMost};
ghost use Rattle.std.specs.Io.KnownBytes.{ReadConsumes, WriteAppends};

use std::io::{Read, Result, Write};

/// Standard input. It goes on with zeros where its bytes end or a read fails, and each read asks it anew.
#[derive(Drop)]
pub struct StandardInput;

impl Read for StandardInput {
    fn read(&mut self, buf: &mut [u8]) -> Result<usize>
        ensures bound { ReadsAtMost result buf.new }
        ensures bytes { ReadConsumes None None result buf.new }
        ensures whole { result ≡ Ok (length buf.old) }
    {
        let n = io::read_full(0, buf);
        buf[n..].fill(0);
        Ok(buf.len())
    }
}

/// Standard output. A write that fails is not told, and those after it are tried all the same.
#[derive(Drop)]
pub struct StandardOutput;

impl Write for StandardOutput {
    // Stays: the bytes go out as they come, by the one function of the kit's `io` for them.
    fn write(&mut self, buf: &[u8]) -> Result<usize>
        ensures bound { WritesAtMost result buf.now }
        ensures bytes { WriteAppends None None result buf.now }
        ensures whole { result ≡ Ok (length buf.now) }
    {
        let _ = io::write_all(1, buf);
        Ok(buf.len())
    }

    fn flush(&mut self) -> Result<()> {
        Ok(())
    }
}
