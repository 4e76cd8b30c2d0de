// The parts of an answer: values behind their keys, and the open image.
use agent::State;
use std::io;
use std::io::Write;

pub fn number<W: Write>(writer: &mut W, key: &[u8], n: u64) -> io::Result<()> {
    lines::word(writer, key)?;
    lines::number(writer, n)
}

// The first bytes of a buffer, as what went out.
pub fn bytes<W: Write>(writer: &mut W, key: &[u8], out: &[u8], len: usize) -> io::Result<()> {
    lines::word(writer, key)?;
    lines::hex(writer, buffer::front(out, len))
}

// How many bytes of the bitmap are shown: those that have a block's bit, at most 16.
fn shown(blocks: u32) -> usize {
    if 128 < blocks {
        return 16;
    }
    (blocks as usize + 7) / 8
}

fn bitmap<W: Write>(writer: &mut W, map: [u8; 128], blocks: u32) -> io::Result<()> {
    bytes(writer, b" bitmap=", &map, shown(blocks))
}

// Bytes as one number, high byte first, modulo 65,521.
fn remainder(s: &[u8]) -> u64 {
    let mut sum = 0;
    for b in s {
        sum = (sum * 256 + u64::from(*b)) % 65521;
    }
    sum
}

// Whether no block of the open image is missing.
pub fn complete<W: Write>(writer: &mut W, key: &[u8], state: State) -> io::Result<()> {
    number(writer, key, agent::is_complete(state) as u64)
}

// How far the open image is.
pub fn progress<W: Write>(writer: &mut W, state: State) -> io::Result<()> {
    let p = agent::progress(state);
    number(writer, b" -> held=", p.held as u64)?;
    number(writer, b" blocks=", p.blocks as u64)?;
    number(writer, b" complete=", p.complete as u64)
}

pub fn url<W: Write>(writer: &mut W, key: &[u8], letters: [u8; 128], len: usize) -> io::Result<()> {
    bytes(writer, key, &letters, len)
}

// The URL held, and the first bytes of the image buffer.
pub fn kept<W: Write>(writer: &mut W, state: State, buffer: &[u8], len: usize) -> io::Result<()> {
    let letters = state.registration.url.bytes;
    url(writer, b" -> url=", letters, state.registration.url.len)?;
    bytes(writer, b" image=", buffer, len)
}

// The open image: its blocks, the front of its bitmap, and whether none is missing; and the image buffer as one number.
pub fn image<W: Write>(writer: &mut W, state: State, buffer: &[u8]) -> io::Result<()> {
    let p = agent::progress(state);
    number(writer, b" -> blocks=", p.blocks as u64)?;
    let map = state.images.image.bitmap;
    bitmap(writer, map, p.blocks)?;
    complete(writer, b" complete=", state)?;
    number(writer, b" sum=", remainder(buffer))
}
