// Prints what the readers say of outside vectors, and then records that the writers make, in hex.
//
// Each record on standard input holds one vector, a record itself, and its type says which kind of vector that is: 1 the
// fields of a message (`fields`), 2 a datagram (`frames`), 3 a message of the CSMP draft (`messages`), 4 bytes that may be text
// (`texts`). No line of the output to meet was taken from this program.
#![tactic(auto)]

mod fields;
mod frames;
mod made;
mod messages;
mod say;
mod texts;

use std::io;
use std::io::Write;

fn print_as<W: Write>(writer: &mut W, vectors: u64, kind: u64, v: &[u8]) -> io::Result<()> {
    match vectors {
        1 => fields::print(writer, kind, v),
        2 => frames::print(writer, kind, v),
        3 => messages::print(writer, kind, v),
        4 => texts::print(writer, v),
        _ => lines::word(writer, b"unknown\n"),
    }
}

fn print_vector<W: Write>(writer: &mut W, vectors: u64, s: &[u8]) -> io::Result<()> {
    let Some(r) = tlv::take_record(s, 0) else {
        return lines::word(writer, b"unreadable\n");
    };
    print_as(writer, vectors, r.kind, buffer::part(s, r.start, r.end))
}

fn print_vectors<W: Write>(writer: &mut W, s: &[u8]) -> io::Result<()> {
    let mut at = 0;
    while at < s.len() {
        let Some(r) = tlv::take_record(s, at) else {
            return lines::word(writer, b"unreadable\n");
        };
        print_vector(writer, r.kind, buffer::part(s, r.start, r.end))?;
        at = r.end;
    }
    Ok(())
}

fn main(rt: HostRuntime) -> io::Result<()> {
    let mut space = [0u8; 16384];
    let n = lines::read_full(&mut rt.reader(), &mut space);
    let mut writer = io::writer(&rt);
    print_vectors(&mut writer, &space[..n])?;
    made::all(&mut writer)
}
