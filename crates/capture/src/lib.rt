// A capture: datagrams back to back, an index of 8 bytes each, a trailer of 6. Numbers have their high bytes first.
#![tactic(auto)]

ghost use Rattle.std.specs.Prelude.{◌≡◌, ◌≤◌, drop};
ghost use Rattle.capture.specs.Read.{byte_at, wide16, wide32, entry_in, bytes_at, end_from, index_in, capture_in, outcome_of};

use schedule::Point;

// Where the index of a capture begins, and how many entries it has.
#[derive(Clone, Copy)]
pub struct Index {
    pub at: u32,
    pub count: u16,
}

// An entry: its time, the host's verdict, and its datagram's length.
#[derive(Clone, Copy)]
pub struct Entry {
    pub time: Point,
    pub verdict: u8,
    pub len: u16,
}

// A byte; one that is not there counts as 0.
#[tactic(auto, unfolding(crate::specs::Read::byte_at))]
fn byte(s: &[u8], i: usize) -> u8
    ensures { result ≡ byte_at s.now i }
{
    s.get(i).copied().unwrap_or(0)
}

// The first two bytes as a number.
#[tactic(auto, unfolding(crate::specs::Read::wide16))]
fn pair(s: &[u8]) -> u16
    ensures { result ≡ wide16 s.now }
{
    u16::from_be_bytes([byte(s, 0), byte(s, 1)])
}

// The first four bytes as a number.
#[tactic(auto, unfolding(crate::specs::Read::wide32))]
fn quad(s: &[u8]) -> u32
    ensures { result ≡ wide32 s.now }
{
    pair(s) as u32 * 65536 + pair(buffer::rest(s, 2)) as u32
}

// The entry whose row of the index stands at `row`.
#[tactic(auto, unfolding(crate::specs::Read::entry_in))]
pub fn entry_at(s: &[u8], row: usize) -> Entry
    ensures { result ≡ entry_in (drop row s.now) }
{
    let here = buffer::rest(s, row);
    let len = pair(buffer::rest(here, 4));
    Entry {
        time: Point(quad(here)),
        verdict: byte(here, 6),
        len,
    }
}

// A datagram that begins at `start`.
#[tactic(auto, unfolding(crate::specs::Read::bytes_at))]
pub fn bytes_at(s: &[u8], start: usize, len: u16) -> &[u8]
    ensures { result.now ≡ bytes_at s.now start len }
{
    buffer::front(buffer::rest(s, start), len as usize)
}

// Where the datagrams of so many rows end, if each row's last byte is 0.
#[tactic(auto, using(crate::proofs::Laws::counting_steps))]
fn end_of(rows: &[u8], count: u16) -> Option<usize>
    ensures { result ≡ end_from count rows.now 0 }
{
    let mut end = 0;
    for i in 0..count {
        let row = buffer::rest(rows, i as usize * 8);
        if byte(row, 7) != 0 {
            return None;
        }
        end += pair(buffer::rest(row, 4)) as usize;
    }
    Some(end)
}

// What reading a file comes to: 12 where it is malformed.
#[tactic(auto, unfolding(crate::specs::Read::outcome_of))]
pub fn outcome_of(capture: Option<Index>) -> u32
    ensures { result ≡ outcome_of capture }
{
    match capture {
        Some(_) => 0,
        None => 12,
    }
}

// The index of a file, if that is a capture.
#[tactic(auto, unfolding(crate::specs::Read::capture_in, crate::specs::Read::framed, crate::specs::Read::distance_in, crate::specs::Read::count_in, crate::specs::Read::trailer_of))]
pub fn read(s: &[u8]) -> Option<Index>
    ensures { result ≡ capture_in s.now }
{
    let n = s.len();
    if n < 6 || 65536 < n {
        return None;
    }
    let trailer = buffer::rest(s, n - 6);
    let distance = quad(trailer) as usize;
    let count = pair(buffer::rest(trailer, 4));
    if distance != count as usize * 8 + 6 {
        return None;
    }
    let index = n.checked_sub(distance)?;
    index_of(s, index, count)
}

// The index, if the lengths of its rows sum to its own place.
#[tactic(auto, unfolding(crate::specs::Read::index_in))]
fn index_of(s: &[u8], index: usize, count: u16) -> Option<Index>
    requires { index ≤ 65536 }
    ensures { result ≡ index_in index count (end_from count (drop index s.now) 0) }
{
    let end = end_of(buffer::rest(s, index), count)?;
    (end == index).then_some(Index {
        at: index as u32,
        count,
    })
}
