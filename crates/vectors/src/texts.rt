// Whether bytes are text: they in hex, and the answer.
//
// The first are RFC 3629's own: the examples of section 7, and what sections 3 and 10 say that a decoder must not take. Behind them stand texts of no and of
// one byte, both sides of each border of the grammar, characters that are cut short, and tails alone. The answers are those of Python's decoder.
use std::io;
use std::io::Write;

pub fn print<W: Write>(writer: &mut W, v: &[u8]) -> io::Result<()> {
    lines::hex(writer, v)?;
    if utf8::is_utf8(v) {
        lines::word(writer, b" text\n")
    } else {
        lines::word(writer, b" no text\n")
    }
}
