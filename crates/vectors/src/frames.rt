// What is read of a CoAP datagram: the frame, its options, and of a request whether step a refuses it, its path and the
// ids that its query asks for.
//
// The datagrams were made by a Python script: the messages of RFC 7252's appendixes A and B; deltas and lengths on both
// sides of each border; tokens of 0 to 15 bytes; options and markers that are damaged or cut short; other versions
// and codes; paths and queries, good and bad. The output to meet was written by a reader in Python, made from RFC 7252,
// section 3, and document 01 alone. The last record is cut short.
use crate::say;
use coap::{CoapOption, Frame, FrameError, Next};
use request::{Path, Query};
use std::io;
use std::io::Write;

// A blank and a code: class, point, and two digits of detail.
fn say_code<W: Write>(writer: &mut W, code: u8) -> io::Result<()> {
    let c = u64::from(code);
    say::number(writer, c / 32)?;
    lines::word(writer, b".")?;
    lines::number(writer, c % 32 / 10)?;
    lines::number(writer, c % 32 % 10)
}

fn print_option<W: Write>(writer: &mut W, s: &[u8], o: CoapOption) -> io::Result<()> {
    lines::word(writer, b"option")?;
    say::number(writer, o.number)?;
    say::bytes(writer, buffer::part(s, o.start, o.end))?;
    lines::word(writer, b"\n")
}

fn print_options<W: Write>(writer: &mut W, s: &[u8], from: usize) -> io::Result<()> {
    let mut at = from;
    let mut before = 0;
    while let Some(Next::Option(o)) = coap::option_at(s, at, before) {
        print_option(writer, s, o)?;
        at = o.end;
        before = o.number;
    }
    Ok(())
}

fn print_path<W: Write>(writer: &mut W, path: Path) -> io::Result<()> {
    match path {
        Path::All => lines::word(writer, b" path all"),
        Path::Record(id) => {
            lines::word(writer, b" path record")?;
            say::number(writer, id as u64)
        }
        Path::Other => lines::word(writer, b" path other"),
    }
}

// Queries but `a=` and `r=`, whose rules `lives` runs.
fn print_query<W: Write>(writer: &mut W, s: &[u8], query: Query) -> io::Result<()> {
    lines::word(writer, b" query")?;
    match query {
        Query::Nothing => lines::word(writer, b" none"),
        Query::One(start, end) => {
            let ids = request::asked_ids(buffer::part(s, start, end));
            if ids.count == 0 {
                lines::word(writer, b" bad")?;
            }
            say::ids(writer, ids)
        }
        Query::Several => lines::word(writer, b" several"),
    }
}

fn print_request<W: Write>(writer: &mut W, s: &[u8], from: usize) -> io::Result<()> {
    let first = request::look_over(s, from);
    if first.refused {
        lines::word(writer, b"request refused")?;
    } else {
        lines::word(writer, b"request taken")?;
    }
    print_path(writer, request::request_path(s, from))?;
    print_query(writer, s, request::queries(s, from, request::QUERY))?;
    lines::word(writer, b"\n")
}

fn print_frame<W: Write>(writer: &mut W, s: &[u8], f: Frame) -> io::Result<()> {
    lines::word(writer, b"frame")?;
    say::number(writer, f.kind as u64)?;
    say_code(writer, f.code)?;
    say::number(writer, f.id as u64)?;
    let payload = f.payload;
    if payload <= s.len() {
        say::bytes(writer, &s[payload..])?;
    }
    lines::word(writer, b"\n")?;
    print_options(writer, s, f.options)?;
    match f.code {
        1..=31 => print_request(writer, s, f.options),
        _ => Ok(()),
    }
}

fn print_datagram<W: Write>(writer: &mut W, s: &[u8]) -> io::Result<()> {
    match coap::read(s) {
        Ok(f) => print_frame(writer, s, f),
        Err(FrameError::Malformed(kind, id)) => {
            lines::word(writer, b"malformed")?;
            say::number(writer, kind as u64)?;
            say::number(writer, id as u64)?;
            lines::word(writer, b"\n")
        }
        Err(FrameError::Foreign) => lines::word(writer, b"foreign\n"),
    }
}

pub fn print<W: Write>(writer: &mut W, kind: u64, v: &[u8]) -> io::Result<()> {
    say::record(writer, kind, v)?;
    print_datagram(writer, v)
}
