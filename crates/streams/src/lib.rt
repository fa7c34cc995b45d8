// Whole buffers moved to and from a stream, and what an error leaves moved.
#![tactic(auto)]

ghost use Rattle.std.specs.Prelude.{◌<◌, ◌≤◌, length, take, IfOk, OnOk, OnErr};
ghost use Rattle.std.specs.Io.KnownBytes.{Appends, Consumes, IsAtEnd};
ghost use Rattle.streams.specs.Streams.{ReadSome, WroteSome};

use std::io;
use std::io::{ErrorKind, Read, Write};

// Reads until the buffer is full or the input ends; the answer is how many bytes then stand at the buffer's start.
pub fn read_full<R: Read>(input: &mut R, buffer: &mut [u8]) -> io::Result<usize>
    ensures bound { IfOk result (λ n. n ≤ length buffer.new) }
    ensures bytes { IfOk result (λ n. Consumes (R.remaining input.old) (R.remaining input.new) (take n buffer.new)) }
    ensures end { IfOk result (λ n. n < length buffer.new → IsAtEnd (R.remaining input.new)) }
    ensures err { OnErr result (ReadSome (R.remaining input.old) (R.remaining input.new) buffer.new) }
{
    let mut done = 0;
    // Each turn reads as many bytes as the stream gives, so no `for` counts the turns.
    while done < buffer.len() {
        let n = input.read(&mut buffer[done..])?;
        if n == 0 {
            return Ok(done);
        }
        done += n;
    }
    Ok(done)
}

// Writes all bytes, or stops at the first write that fails or takes nothing.
pub fn write_all<W: Write>(out: &mut W, bytes: &[u8]) -> io::Result<()>
    ensures ok { OnOk result (Appends (W.contents out.old) (W.contents out.new) bytes.now) }
    ensures err { OnErr result (WroteSome (W.contents out.old) (W.contents out.new) bytes.now) }
{
    let mut done = 0;
    // Each turn writes as many bytes as the stream takes, so no `for` counts the turns.
    while done < bytes.len() {
        let taken = out.write(&bytes[done..])?;
        if taken == 0 {
            return Err(io::Error::from(ErrorKind::WriteZero));
        }
        done += taken;
    }
    Ok(())
}
