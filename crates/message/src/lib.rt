// Reading a message by its table, in one walk: whether it can be read, whether it is padded and, for each row of the table, what counts.
//
// A table is a list of numbers. A row is the number of a field, its kind, and how many numbers the table of the message that it holds takes;
// that table stands behind it. What is found of a row stands at the same place of a list as long: how many fields there were; of the last
// one its value, or where its bytes start; where they end.
#![tactic(auto)]

ghost use Rattle.std.specs.Prelude.{◌≡◌, ◌+◌, ◌^◌, ◌≤◌, ◌<◌, length, true, false};
ghost use Rattle.protobuf.specs.Field.{bytes_of};
ghost use Rattle.message.specs.Read.{wire_of, row_in, count_more, first_of, noted, unpadded, joined, sealed, plain_read, field_read, message_read, read_into, Scanned, limited, number_of, flag_of, place_of};

use protobuf::{Field, Span};

// The kinds of fields. Those below 8 are varints, the others bytes; 9 and 10 are text, those from 11 on hold messages.
pub const UINT32: u32 = 0;

pub const BOOL: u32 = 1;

pub const BYTES: u32 = 8;

pub const STRING: u32 = 9;

pub const STRINGS: u32 = 10;

pub const PART: u32 = 11;

// What the walk over a message tells of it as a whole: whether it can be read, and whether a varint that was read in it is padded.
#[derive(Clone, Copy)]
pub struct Reading {
    pub readable: bool,
    pub padded: bool,
}

// A row of a table: the number of its field, its kind, where it stands, and where what it holds ends.
#[derive(Clone, Copy)]
pub struct Row {
    pub number: u32,
    pub kind: u32,
    pub at: usize,
    pub end: usize,
}

fn wire_of(kind: u32) -> u8
    ensures { result ≡ wire_of kind }
{
    if kind < 8 {
        return 0;
    }
    2
}

// The first row of a field number, if the table has one.
fn row_of(table: &[u32], number: u32) -> Option<Row>
    ensures { result ≡ row_in table.now number }
{
    let mut i = 0;
    while i < table.len() {
        if table.len() - i < 3 {
            return None;
        }
        let start = i + 3;
        let len = table[i + 2] as usize;
        if table.len() - start < len {
            return None;
        }
        if table[i] == number {
            return Some(Row {
                number: table[i],
                kind: table[i + 1],
                at: i,
                end: start + len,
            });
        }
        i = start + len;
    }
    None
}

// One more, up to 2^32 - 1.
fn one_more(n: usize) -> usize
    ensures { result ≡ count_more n }
{
    if n < 4294967295 {
        return n + 1;
    }
    n
}

// What a field of a message that begins at `base` holds: its value, or where its bytes start.
fn first_of(base: usize, f: Field) -> usize
    requires { base + f.start < 2 ^ 64 }
    ensures { result ≡ first_of base f }
{
    if f.wire == 0 {
        return f.value as usize;
    }
    base + f.start
}

// One field more of the row at `i`.
fn note(cells: &mut [usize], i: usize, base: usize, f: Field)
    requires { (i + 3 ≤ length cells.old) × (base + f.start < 2 ^ 64) × (base + f.end < 2 ^ 64) }
    ensures { cells.new ≡ noted cells.old i base f }
{
    cells[i] = one_more(cells[i]);
    cells[i + 1] = first_of(base, f);
    cells[i + 2] = base + f.end;
}

// What is told of a message with one field more: whether that is padded, and what the message tells that it holds.
fn join(before: Reading, padded: bool, held: Reading) -> Reading
    ensures { result ≡ joined before padded held }
{
    Reading {
        readable: buffer::both(before.readable, held.readable),
        padded: buffer::either(before.padded, buffer::either(padded, held.padded)),
    }
}

fn told(readable: bool) -> Reading
    ensures { result ≡ unpadded readable }
{
    Reading {
        readable,
        padded: false,
    }
}

// What a message without fields tells, or a value that is not read.
pub fn empty() -> Reading
    ensures { result ≡ unpadded true }
{
    told(true)
}

// The walk's end at a field that can't be read.
fn cut(reading: Reading) -> Reading
    ensures { result ≡ sealed false reading }
{
    Reading {
        readable: false,
        padded: reading.padded,
    }
}

// Reads a value by a table; what is found is added to what `cells` has. They must be as long as the table. Messages nest at most four deep.
pub fn read(v: &[u8], table: &[u32], cells: &mut [usize]) -> Reading
    ensures { Scanned (read_into table.now cells.old v.now) result cells.new }
{
    if cells.len() != table.len() {
        return told(false);
    }
    read_message(v, 0, table, cells, 4)
}

// A message that begins at `base` of the whole value. A string or a held message that can't be read does not end the walk: the
// fields behind it are noted, too.
#[cycle(read_field_read_message)]
fn read_message(v: &[u8], base: usize, table: &[u32], cells: &mut [usize], depth: u32) -> Reading
    requires { (length cells.old ≡ length table.now) × (base + length v.now < 2 ^ 64) }
    ensures { Scanned (message_read depth table.now cells.old base v.now) result cells.new }
{
    if depth == 0 {
        return told(false);
    }
    let mut reading = told(true);
    let mut at = 0;
    while at < v.len() {
        let Some(f) = protobuf::field_at(v, at) else {
            return cut(reading);
        };
        let held = read_field(v, base, f, table, cells, depth - 1);
        reading = join(reading, f.padded, held);
        at = f.end;
    }
    reading
}

// A field that holds no message. A string must be text.
fn read_plain(v: &[u8], kind: u32, f: Field) -> Reading
    requires { (f.start ≤ f.end) × (f.end ≤ length v.now) }
    ensures { result ≡ plain_read kind (bytes_of v.now f) }
{
    if kind < STRING {
        return told(true);
    }
    let a = f.start;
    let b = f.end;
    told(utf8::is_utf8(&v[a..b]))
}

// A field of a message: one that holds a message is read as one, with a level less.
#[cycle(read_field_read_message)]
fn read_field(
    v: &[u8],
    base: usize,
    f: Field,
    table: &[u32],
    cells: &mut [usize],
    depth: u32,
) -> Reading
    requires { (length cells.old ≡ length table.now) × (base + length v.now < 2 ^ 64) × (f.start ≤ f.end) × (f.end ≤ length v.now) }
    ensures { Scanned (field_read (message_read depth) table.now cells.old base v.now f) result cells.new }
{
    let Some(Row { kind, at, end, .. }) = row_of(table, f.number) else {
        return told(true);
    };
    if wire_of(kind) != f.wire {
        return told(true);
    }
    note(cells, at, base, f);
    if kind < PART {
        return read_plain(v, kind, f);
    }
    let from = at + 3;
    let a = f.start;
    let b = f.end;
    read_message(
        &v[a..b],
        base + a,
        &table[from..end],
        &mut cells[from..end],
        depth,
    )
}

// What is told of a message that must also be within a limit.
pub fn limit(reading: Reading, within: bool) -> Reading
    ensures { result ≡ limited reading within }
{
    Reading {
        readable: buffer::both(reading.readable, within),
        padded: reading.padded,
    }
}

// What counts of a row, by what was found of it. A uint32 takes the low 32 bits.
pub fn number(count: usize, first: usize) -> Option<u32>
    ensures { result ≡ number_of count first }
{
    (count != 0).then_some((first % 4294967296) as u32)
}

// A bool is true unless 0.
pub fn flag(count: usize, first: usize) -> Option<bool>
    ensures { result ≡ flag_of count first }
{
    (count != 0).then_some(first != 0)
}

// Bytes or a string, by their place in the value.
pub fn bytes(count: usize, start: usize, end: usize) -> Option<Span>
    ensures { result ≡ place_of count start «end» }
{
    (count != 0).then_some(Span { start, end })
}
