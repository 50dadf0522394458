//! A stream of which every other call is interrupted, and which gives or takes a byte at a time.
use super::{read_all, read_some, write_all};
use std::alloc::Global;
use std::io;
use std::io::{ErrorKind, Read, Write};
use std::test::Fail;
use tm_world::Failed;

/// Gives these bytes one at a time, and takes so many.
#[derive(Drop)]
struct Slow<'a> {
    bytes: &'a [u8],
    room: usize,
    interrupts: bool,
    written: Vec<u8>,
}

fn stream_of<'a>(alloc: Global, bytes: &'a [u8], room: usize) -> Slow<'a> {
    Slow {
        bytes,
        room,
        interrupts: false,
        written: Vec::new(alloc),
    }
}

impl Slow<'_> {
    /// Fails in every other call.
    fn turn(&mut self) -> io::Result<()> {
        self.interrupts = !self.interrupts;
        if self.interrupts {
            return Err(io::Error::from(ErrorKind::Interrupted));
        }
        Ok(())
    }
}

impl Read for Slow<'_> {
    fn read(&mut self, buf: &mut [u8]) -> io::Result<usize> {
        self.turn()?;
        match (self.bytes.split_first(), buf.first_mut()) {
            (Some((byte, rest)), Some(place)) => {
                *place = *byte;
                self.bytes = rest;
                Ok(1)
            }
            _ => Ok(0),
        }
    }
}

impl Write for Slow<'_> {
    fn write(&mut self, buf: &[u8]) -> io::Result<usize> {
        self.turn()?;
        match buf.first() {
            Some(byte) if self.room > 0 => {
                self.written.push(*byte)?;
                self.room -= 1;
                Ok(1)
            }
            _ => Ok(0),
        }
    }

    fn flush(&mut self) -> io::Result<()> {
        Ok(())
    }
}

#[test]
fn interrupted_calls_are_made_again(rt: HostRuntime) -> Result<(), Fail> {
    let mut stream = stream_of(rt.alloc(), b"abcde", 3);
    let mut into = [0; 3];
    assert_eq!(rt; read_all(&mut stream, &mut into), Ok(()));
    assert_eq!(rt; into, *b"abc");
    assert_eq!(rt; read_some(&mut stream, &mut into), Ok(1));
    assert_eq!(rt; into, *b"dbc");
    // One byte is left.
    assert_eq!(rt; read_all(&mut stream, &mut into), Err(Failed));
    assert_eq!(rt; read_some(&mut stream, &mut into), Ok(0));
    assert_eq!(rt; write_all(&mut stream, b"xy"), Ok(()));
    // There is room for one byte.
    assert_eq!(rt; write_all(&mut stream, b"zw"), Err(Failed));
    assert_eq!(rt; stream.written.as_slice(), b"xyz".as_slice());
    Ok(())
}
