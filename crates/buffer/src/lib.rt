// Bytes in lent buffers: appending at a position, copying, parts of a slice, and where a stretch of bytes ends.
//
// An output position may run past the end: what does not fit whole is not written, and the position
// then is the length plus one and stays there. One test at the end tells whether everything was written.
#![tactic(auto)]

mod text;

ghost use Rattle.std.specs.Prelude.{◌≡◌, ◌&&◌, ◌||◌, length, take, drop, ◌-◌};
ghost use Rattle.std.proofs.lemmas.List.Edits.{sets};
ghost use Rattle.buffer.specs.Put.{Put};
ghost use Rattle.buffer.specs.Same.{same_bytes};
ghost use Rattle.buffer.specs.Stretch.{fits, stretch};

pub use text::Text;

// Whether `n` bytes at `at` lie within the first `len`.
#[tactic(auto, unfolding(crate::specs::Stretch::fits))]
pub fn has_room(len: usize, at: usize, n: usize) -> bool
    ensures { result ≡ fits len at n }
{
    at <= len && n <= len - at
}

// The end of the `len` bytes from `start`, if they all lie in `s`.
#[tactic(auto, unfolding(crate::specs::Stretch::fits, crate::specs::Stretch::stretch))]
pub fn end_of(s: &[u8], start: usize, len: u64) -> Option<usize>
    ensures { result ≡ stretch (length s.now) start len }
{
    let end = start.checked_add(len as usize)?;
    (end <= s.len()).then_some(end)
}

// The first `n` bytes, or all.
pub fn front(s: &[u8], n: usize) -> &[u8]
    ensures { result.now ≡ take n s.now }
{
    &s[..n.min(s.len())]
}

// What stands behind the first `n` bytes, or nothing.
pub fn rest(s: &[u8], n: usize) -> &[u8]
    ensures { result.now ≡ drop n s.now }
{
    &s[n.min(s.len())..]
}

// The bytes from `start` up to `end`, as far as there are any.
pub fn part(s: &[u8], start: usize, end: usize) -> &[u8]
    ensures { result.now ≡ take (end - start) (drop start s.now) }
{
    front(rest(s, start), end.saturating_sub(start))
}

// Copies `src` to the front of `dst`, as far as it has room.
pub fn copy(dst: &mut [u8], src: &[u8])
    ensures { dst.new ≡ sets dst.old 0 src.now }
{
    let n = src.len().min(dst.len());
    dst[..n].copy_from_slice(&src[..n]);
}

// Appends `bytes` at `at`, and answers the next position.
#[tactic(auto, unfolding(crate::specs::Stretch::fits, crate::specs::Put::placed, crate::specs::Put::after))]
pub fn put(out: &mut [u8], at: usize, bytes: &[u8]) -> usize
    ensures { Put out.old at bytes.now out.new result }
{
    if has_room(out.len(), at, bytes.len()) {
        copy(&mut out[at..], bytes);
        return at + bytes.len();
    }
    out.len() + 1
}

// Whether two slices hold the same bytes. Every byte is looked at: for 32 bytes this takes 37 instructions, `a == b` 51, `all` 201.
pub fn same(a: &[u8], b: &[u8]) -> bool
    ensures { result ≡ same_bytes a.now b.now }
{
    if a.len() != b.len() {
        return false;
    }
    a.iter().zip(b).fold(true, |alike, (x, y)| alike & (x == y))
}

// Both of two tests, worked out before one is chosen by them.
pub fn both(a: bool, b: bool) -> bool
    ensures { result ≡ (a && b) }
{
    a & b
}

// Either of two tests.
pub fn either(a: bool, b: bool) -> bool
    ensures { result ≡ (a || b) }
{
    a | b
}
