//! Reading and writing all that is asked, call after call.
ghost use Rattle.std.specs.Prelude.{◌≡◌, ◌<◌, ◌≤◌, IfOk, OnOk, OnErr, length, take};
ghost use Rattle.std.specs.Io.KnownBytes.{Appends, Consumes, IsAtEnd, Keeps};

#[cfg(test)]
mod tests;

use std::io::{ErrorKind, Read, Write};
use tm_world::Failed;

/// Reads some bytes into the front of a slice, and answers how many: 0 only at the end, where the
/// slice has room. A call that is interrupted is made again.
pub(crate) fn read_some<F: Read>(file: &mut F, into: &mut [u8]) -> Result<usize, Failed>
    ensures within { IfOk result (λ n. n ≤ length into.new) }

    // Where the reader tells what it has left.
    ensures bytes { IfOk result (λ n. Consumes (F.remaining file.old) (F.remaining file.new) (take n into.new)) }
    ensures end { IfOk result (λ n. n ≡ 0 → 0 < length into.old → IsAtEnd (F.remaining file.new)) }
    ensures err { OnErr result (Keeps (F.remaining file.old) (F.remaining file.new)) }
{
    for _ in 0..u64::MAX {
        match file.read(into) {
            Ok(count) => return Ok(count),
            Err(error) => {
                if error.kind() != ErrorKind::Interrupted {
                    return Err(Failed);
                }
            }
        }
    }
    Err(Failed)
}

/// Fills a slice; it fails where the end comes before.
pub(crate) fn read_all<F: Read>(file: &mut F, into: &mut [u8]) -> Result<(), Failed>
    // Where the reader tells what it has left.
    ensures bytes { OnOk result (Consumes (F.remaining file.old) (F.remaining file.new) into.new) }
{
    let mut filled = 0;
    while filled < into.len() {
        let count = read_some(file, &mut into[filled..])?;
        if count == 0 {
            return Err(Failed);
        }
        filled += count;
    }
    Ok(())
}

// Writes some bytes of the front of a slice, and answers how many. A call that is interrupted is
// made again.
fn write_some<W: Write>(out: &mut W, bytes: &[u8]) -> Result<usize, Failed>
    ensures within { IfOk result (λ n. n ≤ length bytes.now) }

    // Where the writer tells what it holds.
    ensures bytes { IfOk result (λ n. Appends (W.contents out.old) (W.contents out.new) (take n bytes.now)) }
    ensures err { OnErr result (Keeps (W.contents out.old) (W.contents out.new)) }
{
    for _ in 0..u64::MAX {
        match out.write(bytes) {
            Ok(count) => return Ok(count),
            Err(error) => {
                if error.kind() != ErrorKind::Interrupted {
                    return Err(Failed);
                }
            }
        }
    }
    Err(Failed)
}

/// Writes all bytes, and flushes; it fails where a call takes none of them. Where it fails, a prefix
/// of them may be written.
pub(crate) fn write_all<W: Write>(out: &mut W, bytes: &[u8]) -> Result<(), Failed>
    // Where the writer tells what it holds.
    ensures bytes { OnOk result (Appends (W.contents out.old) (W.contents out.new) bytes.now) }
{
    let mut rest = bytes;
    while !rest.is_empty() {
        let count = write_some(out, rest)?;
        if count == 0 {
            return Err(Failed);
        }
        rest = &rest[count..];
    }
    out.flush().map_err(|_| Failed)
}
