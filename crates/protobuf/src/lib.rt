// Fields of Protocol Buffers messages, read from a lent message and written. Nothing is copied out: a field says where its bytes stand.
#![tactic(auto)]

mod write;

ghost use Rattle.std.specs.Prelude.{◌≡◌, length};
ghost use Rattle.protobuf.specs.Field.{field_at, content_at, numbered, held, spanned};
ghost use Rattle.buffer.specs.Stretch.{stretch};
ghost use Rattle.varint.specs.Varint.{varint_at, delimited_at};

pub use write::{put_bytes, put_bytes_if, put_given, put_head, put_number};

// A field: its number and wire type, its value where it is a varint, and its bytes from `start` up to `end`,
// where the next field begins; and whether its tag, its length or its number is padded. A varint has no bytes.
#[derive(Clone, Copy)]
pub struct Field {
    pub number: u32,
    pub wire: u8,
    pub value: u64,
    pub start: usize,
    pub end: usize,
    pub padded: bool,
}

// Where bytes of a value stand, from `start` up to `end`.
#[derive(Clone, Copy)]
pub struct Span {
    pub start: usize,
    pub end: usize,
}

// The field at `at`: a tag below 2^32 whose number is not 0, then what its wire type says.
pub fn field_at(s: &[u8], at: usize) -> Option<Field>
    ensures { result ≡ field_at s.now at }
{
    let tag = varint::read(s, at)?;
    if 4294967296 <= tag.value {
        return None;
    }
    if tag.value < 8 {
        return None;
    }
    content_at(
        s,
        (tag.value / 8) as u32,
        (tag.value % 8) as u8,
        tag.padded,
        tag.next,
    )
}

// What a field of that number and wire type holds, from `at` on, behind a tag that was padded or not.
fn content_at(s: &[u8], number: u32, wire: u8, padded: bool, at: usize) -> Option<Field>
    ensures { result ≡ content_at s.now number wire padded at }
{
    match wire {
        0 => varint_at(s, number, padded, at),
        1 => span_at(s, number, wire, padded, at, 8),
        2 => bytes_at(s, number, padded, at),
        5 => span_at(s, number, wire, padded, at, 4),
        _ => None,
    }
}

fn varint_at(s: &[u8], number: u32, padded: bool, at: usize) -> Option<Field>
    ensures { result ≡ numbered number padded (varint_at s.now at) }
{
    let held = varint::read(s, at)?;
    Some(Field {
        number,
        wire: 0,
        value: held.value,
        start: held.next,
        end: held.next,
        padded: buffer::either(padded, held.padded),
    })
}

fn bytes_at(s: &[u8], number: u32, padded: bool, at: usize) -> Option<Field>
    ensures { result ≡ held number padded (delimited_at s.now at) }
{
    let held = varint::read_delimited(s, at)?;
    Some(Field {
        number,
        wire: 2,
        value: 0,
        start: held.start,
        end: held.end,
        padded: buffer::either(padded, held.padded),
    })
}

// A field of a fixed length.
fn span_at(s: &[u8], number: u32, wire: u8, padded: bool, start: usize, len: u64) -> Option<Field>
    ensures { result ≡ spanned number wire padded start (stretch (length s.now) start len) }
{
    let end = buffer::end_of(s, start, len)?;
    Some(Field {
        number,
        wire,
        value: 0,
        start,
        end,
        padded,
    })
}
