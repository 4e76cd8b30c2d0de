// The fields of a message: number, wire type, and the value of a varint or the bytes in hex. The messages were encoded
// by protoc; the last eleven are damaged or padded.
use crate::say;
use protobuf::Field;
use std::io;
use std::io::Write;

fn print_field<W: Write>(writer: &mut W, s: &[u8], f: Field) -> io::Result<()> {
    lines::number(writer, f.number as u64)?;
    say::number(writer, f.wire as u64)?;
    if f.wire == 0 {
        say::number(writer, f.value)?;
    } else {
        say::bytes(writer, buffer::part(s, f.start, f.end))?;
    }
    lines::word(writer, b"\n")
}

fn print_message<W: Write>(writer: &mut W, s: &[u8]) -> io::Result<()> {
    let mut at = 0;
    while at < s.len() {
        let Some(f) = protobuf::field_at(s, at) else {
            return lines::word(writer, b"unreadable\n");
        };
        print_field(writer, s, f)?;
        at = f.end;
    }
    Ok(())
}

pub fn print<W: Write>(writer: &mut W, kind: u64, v: &[u8]) -> io::Result<()> {
    say::record(writer, kind, v)?;
    print_message(writer, v)
}
