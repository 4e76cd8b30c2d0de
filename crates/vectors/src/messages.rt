// What the readers say of the messages of the CSMP draft. They were encoded by protoc from its definitions; some are put
// together from such encodings with fields out of order, repeated, padded and unknown, and some are damaged.
use crate::say;
use decimal::Ids;
use protobuf::Span;
use schedule::{Length, Point};
use std::io;
use std::io::Write;

fn readable<W: Write>(writer: &mut W, b: bool) -> io::Result<()> {
    if b {
        lines::word(writer, b"readable")
    } else {
        lines::word(writer, b"unreadable")
    }
}

// Bytes in hex; absent ones have a dash, so none are called empty.
fn bytes<W: Write>(writer: &mut W, v: &[u8], place: Option<Span>) -> io::Result<()> {
    let Some(Span { start, end }) = place else {
        return lines::word(writer, b" -");
    };
    if start == end {
        return lines::word(writer, b" empty");
    }
    say::bytes(writer, buffer::part(v, start, end))
}

fn given<W: Write>(writer: &mut W, n: Option<u32>) -> io::Result<()> {
    let Some(x) = n else {
        return lines::word(writer, b" -");
    };
    say::number(writer, x as u64)
}

fn flag<W: Write>(writer: &mut W, f: Option<bool>) -> io::Result<()> {
    let Some(b) = f else {
        return lines::word(writer, b" -");
    };
    if b {
        lines::word(writer, b" true")
    } else {
        lines::word(writer, b" false")
    }
}

fn moment<W: Write>(writer: &mut W, m: Option<Point>) -> io::Result<()> {
    let Some(p) = m else {
        return lines::word(writer, b" -");
    };
    say::number(writer, p.0 as u64)
}

fn interval<W: Write>(writer: &mut W, i: Option<Length>) -> io::Result<()> {
    let Some(l) = i else {
        return lines::word(writer, b" -");
    };
    say::number(writer, l.0 as u64)
}

fn ids<W: Write>(writer: &mut W, list: Ids) -> io::Result<()> {
    lines::word(writer, b" [")?;
    say::ids(writer, list)?;
    lines::word(writer, b"]")
}

fn redirect<W: Write>(writer: &mut W, v: &[u8]) -> io::Result<()> {
    let m = decode::read_redirect(v);
    readable(writer, m.reading.readable)?;
    let url = m.url;
    bytes(writer, v, url)?;
    let immediate = m.immediate;
    flag(writer, immediate)
}

fn session<W: Write>(writer: &mut W, v: &[u8]) -> io::Result<()> {
    let m = decode::read_session(v);
    readable(writer, m.reading.readable)?;
    let id = m.id;
    bytes(writer, v, id)
}

fn report<W: Write>(writer: &mut W, v: &[u8]) -> io::Result<()> {
    let m = decode_report::read_report(v);
    readable(writer, m.reading.readable)?;
    let every = m.interval;
    interval(writer, every)?;
    let list = m.ids;
    ids(writer, list)
}

fn group<W: Write>(writer: &mut W, v: &[u8]) -> io::Result<()> {
    let m = decode::read_group(v);
    readable(writer, m.reading.readable)?;
    let kind = m.kind;
    given(writer, kind)?;
    let id = m.id;
    given(writer, id)
}

fn transfer<W: Write>(writer: &mut W, v: &[u8]) -> io::Result<()> {
    let m = decode_image::read_transfer(v);
    readable(writer, m.reading.readable)?;
    let hw_id = m.hw_id;
    bytes(writer, v, hw_id)?;
    let vendor = m.vendor_hw_id;
    bytes(writer, v, vendor)?;
    let file_hash = m.hash;
    bytes(writer, v, file_hash)?;
    let name = m.name;
    bytes(writer, v, name)?;
    let version = m.version;
    bytes(writer, v, version)?;
    let size = m.size;
    given(writer, size)?;
    let block_size = m.block_size;
    given(writer, block_size)
}

fn block<W: Write>(writer: &mut W, v: &[u8]) -> io::Result<()> {
    let m = decode_image::read_block(v);
    readable(writer, m.reading.readable)?;
    let file_hash = m.hash;
    bytes(writer, v, file_hash)?;
    let n = m.number;
    given(writer, n)?;
    let data = m.data;
    bytes(writer, v, data)
}

fn load<W: Write>(writer: &mut W, v: &[u8]) -> io::Result<()> {
    let m = decode_image::read_load(v);
    readable(writer, m.reading.readable)?;
    let file_hash = m.hash;
    bytes(writer, v, file_hash)?;
    let time = m.time;
    moment(writer, time)
}

fn hash<W: Write>(writer: &mut W, v: &[u8]) -> io::Result<()> {
    let m = decode_image::read_hash(v);
    readable(writer, m.reading.readable)?;
    let file_hash = m.hash;
    bytes(writer, v, file_hash)
}

fn validity<W: Write>(writer: &mut W, v: &[u8]) -> io::Result<()> {
    let m = decode::read_validity(v);
    readable(writer, m.reading.readable)?;
    let from = m.not_before;
    moment(writer, from)?;
    let to = m.not_after;
    moment(writer, to)
}

fn signature<W: Write>(writer: &mut W, v: &[u8]) -> io::Result<()> {
    readable(writer, decode::read_signature(v).readable)
}

// What the reader of a record's type says of its value.
fn read<W: Write>(writer: &mut W, kind: u64, v: &[u8]) -> io::Result<()> {
    match kind {
        6 => redirect(writer, v),
        7 => session(writer, v),
        13 => report(writer, v),
        55 | 57 => group(writer, v),
        65 => transfer(writer, v),
        67 => block(writer, v),
        68 => load(writer, v),
        69 | 70 => hash(writer, v),
        76 => validity(writer, v),
        77 => signature(writer, v),
        _ => lines::word(writer, b"unknown"),
    }
}

pub fn print<W: Write>(writer: &mut W, kind: u64, v: &[u8]) -> io::Result<()> {
    lines::number(writer, kind)?;
    lines::word(writer, b" ")?;
    read(writer, kind, v)?;
    lines::word(writer, b"\n")
}
