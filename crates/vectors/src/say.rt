// The parts of a line that several kinds of vectors have.
use decimal::Ids;
use std::io;
use std::io::Write;

// A blank and a number.
pub fn number<W: Write>(writer: &mut W, n: u64) -> io::Result<()> {
    lines::word(writer, b" ")?;
    lines::number(writer, n)
}

// A blank and bytes in hex.
pub fn bytes<W: Write>(writer: &mut W, s: &[u8]) -> io::Result<()> {
    lines::word(writer, b" ")?;
    lines::hex(writer, s)
}

// A vector's type and length, in a line of their own.
pub fn record<W: Write>(writer: &mut W, kind: u64, v: &[u8]) -> io::Result<()> {
    lines::word(writer, b"record")?;
    number(writer, kind)?;
    number(writer, v.len() as u64)?;
    lines::word(writer, b"\n")
}

pub fn ids<W: Write>(writer: &mut W, ids: Ids) -> io::Result<()> {
    for id in ids.list.iter().take(ids.count) {
        number(writer, u64::from(*id))?;
    }
    Ok(())
}
