// Varints: numbers in bytes of seven bits, the lowest first.
#![tactic(auto)]

ghost use Rattle.std.specs.Prelude.{ℕ, ◌^◌, ◌≤◌, ◌<◌, ◌≡◌, length, drop, Bool, true, false};
ghost use Rattle.buffer.specs.Put.{Put};
ghost use Rattle.buffer.specs.Stretch.{fits};
ghost use Rattle.varint.specs.Varint.{more, spelt, varint_at, varint, two, delimited_at, delimited, stands};

// A number that was read: its value, where the next byte is, and whether its spelling is padded, longer than the shortest.
#[derive(Clone, Copy)]
pub struct Varint {
    pub value: u64,
    pub next: usize,
    pub padded: bool,
}

// Where length-delimited bytes stand: their start and their end, and whether their length is padded.
#[derive(Clone, Copy)]
pub struct Delimited {
    pub start: usize,
    pub end: usize,
    pub padded: bool,
}

// A number of one byte or of the last one, in front of `next`.
fn single(b: u64, next: usize) -> Varint
    ensures { result ≡ record { value = b; next = next; padded = false } }
{
    Varint {
        value: b,
        next,
        padded: false,
    }
}

// The number that stands at `at`: at most ten bytes, the tenth 0 or 1. Most have one byte, which is looked at here.
pub fn read(s: &[u8], at: usize) -> Option<Varint>
    ensures { result ≡ varint_at s.now at }
{
    let b = u64::from(*s.get(at)?);
    if b < 128 {
        return Some(single(b, at + 1));
    }
    joined(b, read_second(s, at + 1))
}

// The same behind a first byte. Most numbers have one byte or two, so that these are told without recursion.
fn read_second(s: &[u8], at: usize) -> Option<Varint>
    ensures { result ≡ spelt 8 (drop at s.now) at }
{
    let b = u64::from(*s.get(at)?);
    if b < 128 {
        return Some(single(b, at + 1));
    }
    joined(b, read_bounded(s, at + 1, 7))
}

// The number that stands at `at`, where `left` bytes may follow the first.
fn read_bounded(s: &[u8], at: usize, left: u32) -> Option<Varint>
    requires { left ≤ 8 }
    ensures { result ≡ spelt left (drop at s.now) at }
{
    let b = u64::from(*s.get(at)?);
    if left == 0 {
        if b < 2 {
            return Some(single(b, at + 1));
        }
        return None;
    }
    if b < 128 {
        return Some(single(b, at + 1));
    }
    joined(b, read_bounded(s, at + 1, left - 1))
}

// The number whose low seven bits are those of `b`, and whose others are the number behind it. Where that is 0, its bytes add nothing.
fn joined(b: u64, behind: Option<Varint>) -> Option<Varint>
    requires { (v next : ℕ) (p : Bool) → behind ≡ stands v next p → v < 2 ^ 57 }
    ensures { result ≡ more b behind }
{
    let rest = behind?;
    Some(Varint {
        value: b % 128 + 128 * rest.value,
        next: rest.next,
        padded: buffer::either(rest.padded, rest.value == 0),
    })
}

// The bytes behind a length that stands at `at`.
pub fn read_delimited(s: &[u8], at: usize) -> Option<Delimited>
    ensures { result ≡ delimited_at s.now at }
{
    let len = read(s, at)?;
    let end = buffer::end_of(s, len.next, len.value)?;
    Some(Delimited {
        start: len.next,
        end,
        padded: len.padded,
    })
}

// How many bytes the shortest spelling of `v` has: ten, less one for every seven zeros at the top of their
// seventy bits, which are six more than those of `v`. Zero takes one byte, as 1 does.
pub fn len(v: u64) -> usize
    ensures { result ≡ length (varint v) }
{
    let zeros = 6 + u64::leading_zeros(v | 1);
    10 - (zeros / 7) as usize
}

// Appends the shortest spelling of `v`, and answers the next position.
pub fn put(out: &mut [u8], at: usize, v: u64) -> usize
    ensures { Put out.old at (varint v) out.new result }
{
    if buffer::has_room(out.len(), at, len(v)) {
        return write(out, at, v);
    }
    out.len() + 1
}

// The spelling's bytes, where they fit.
fn write(out: &mut [u8], at: usize, v: u64) -> usize
    requires { fits (length out.old) at (length (varint v)) ≡ true }
    ensures { Put out.old at (varint v) out.new result }
{
    let mut rest = v;
    let mut i = at;
    while 128 <= rest {
        out[i] = (rest % 128 + 128) as u8;
        rest /= 128;
        i += 1;
    }
    out[i] = rest as u8;
    i + 1
}

// Appends two numbers.
pub fn put_two(out: &mut [u8], at: usize, a: u64, b: u64) -> usize
    ensures { Put out.old at (two a b) out.new result }
{
    let n = len(a) + len(b);
    if buffer::has_room(out.len(), at, n) {
        let mid = put(out, at, a);
        return put(out, mid, b);
    }
    out.len() + 1
}

// Appends a key, the length of the bytes and the bytes.
pub fn put_delimited(out: &mut [u8], at: usize, key: u64, bytes: &[u8]) -> usize
    ensures { Put out.old at (delimited key bytes.now) out.new result }
{
    let n = len(key) + len(bytes.len() as u64) + bytes.len();
    if buffer::has_room(out.len(), at, n) {
        let mid = put_two(out, at, key, bytes.len() as u64);
        return buffer::put(out, mid, bytes);
    }
    out.len() + 1
}
