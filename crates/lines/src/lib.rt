// The parts of a line on a writer, for every program.
#![tactic(auto)]

ghost use Rattle.std.specs.Prelude.{◌≤◌, length};

use std::io;
use std::io::{Read, Write};

pub fn word<W: Write>(writer: &mut W, s: &[u8]) -> io::Result<()> {
    writer.write_all(s)
}

pub fn number<W: Write>(writer: &mut W, n: u64) -> io::Result<()> {
    write!(writer, "{n}")
}

// Bytes in hex; a dash for none.
pub fn hex<W: Write>(writer: &mut W, s: &[u8]) -> io::Result<()> {
    if s.len() == 0 {
        word(writer, b"-")?;
    }
    for b in s {
        write!(writer, "{b:02x}")?;
    }
    Ok(())
}

// Reads until the buffer is full, the input ends or a read fails, and returns how many bytes it put at the front.
pub fn read_full<R: Read>(input: &mut R, buf: &mut [u8]) -> usize
    ensures { result ≤ length buf.new }
{
    let mut done = 0;
    while done < buf.len() {
        match input.read(&mut buf[done..]) {
            Ok(0) | Err(_) => break,
            Ok(n) => done += n,
        }
    }
    done
}
