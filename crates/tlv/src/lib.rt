// Records: a varint type, a varint length, a value. A reader walks the payload it was lent and hands
// over where a value stands; nothing is copied out.
#![tactic(auto)]

mod reader;

ghost use Rattle.buffer.specs.Put.{Put};
ghost use Rattle.tlv.specs.Record.{record_bytes};

pub use reader::take_record;

// A record of a payload: its type, its value's bytes from `start` up to `end`, where the next record begins, and whether its type or its length
// is padded.
#[derive(Clone, Copy)]
pub struct Record {
    pub kind: u64,
    pub start: usize,
    pub end: usize,
    pub padded: bool,
}

// Appends a whole record.
pub fn put(out: &mut [u8], at: usize, kind: u64, value: &[u8]) -> usize
    ensures { Put out.old at (record_bytes kind value.now) out.new result }
{
    varint::put_delimited(out, at, kind, value)
}
