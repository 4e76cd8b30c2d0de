// A reader of a payload: the slice that was lent, and where a walk over it stands.
ghost use Rattle.std.specs.Prelude.{◌≡◌};
ghost use Rattle.tlv.specs.Record.{record_at};

use crate::Record;

// A payload that was lent, and where a walk over it stands.
#[derive(Clone, Copy)]
pub struct Reader<'a> {
    pub payload: &'a [u8],
    pub at: usize,
}

// The record at a position of a payload, if one can be read there.
fn record_at(s: &[u8], at: usize) -> Option<Record>
    ensures { result ≡ record_at s.now at }
{
    let kind = varint::read(s, at)?;
    let value = varint::read_delimited(s, kind.next)?;
    Some(Record {
        kind: kind.value,
        start: value.start,
        end: value.end,
        padded: buffer::either(kind.padded, value.padded),
    })
}

// A reader at a position of the payload.
fn reader_at<'a>(payload: &'a [u8], at: usize) -> Reader<'a>
    ensures { (result.payload ≡ payload.entry) × (result.at ≡ at) }
{
    Reader { payload, at }
}

// The record that stands where the reader is.
fn next<'a>(r: Reader<'a>) -> Option<Record>
    ensures { result ≡ record_at r.entry.payload.now r.entry.at }
{
    record_at(r.payload, r.at)
}

// The record at a position of a payload, taken by a reader: what every walk over a payload calls.
pub fn take_record(payload: &[u8], at: usize) -> Option<Record>
    ensures { result ≡ record_at payload.now at }
{
    next(reader_at(payload, at))
}
