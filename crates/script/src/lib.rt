// A script of calls, a line each: words, values behind their keys, and what calls are given.
#![tactic(auto)]

mod call;

ghost use Rattle.std.specs.Prelude.{◌≤◌, ◌<◌, length};

pub use call::{image_room, set_up, time, which};

// Where a line stands in the text: from its begin to behind its line feed.
#[derive(Clone, Copy)]
pub struct Line {
    pub start: usize,
    pub end: usize,
}

// The line that begins at `at`.
pub fn line_at(s: &[u8], at: usize) -> Line
    ensures { at < length s.now → at < result.end }
{
    for i in at..s.len() {
        if s[i] == b'\n' {
            return Line {
                start: at,
                end: i + 1,
            };
        }
    }
    Line {
        start: at,
        end: s.len().max(at),
    }
}

// A line without its line feed.
fn trimmed(line: &[u8]) -> &[u8] {
    let n = line.len();
    if n == 0 {
        return line;
    }
    if line[n - 1] == b'\n' {
        return &line[..n - 1];
    }
    line
}

// A line's letters.
pub fn of(s: &[u8], line: Line) -> &[u8] {
    trimmed(buffer::part(s, line.start, line.end))
}

// Whether `word` stands at `at`.
pub fn stands(s: &[u8], at: usize, word: &[u8]) -> bool {
    if s.len() < at {
        return false;
    }
    if s.len() - at < word.len() {
        return false;
    }
    buffer::same(buffer::part(s, at, at + word.len()), word)
}

// The letters from `at` up to the next blank.
pub fn word_at(s: &[u8], at: usize) -> &[u8] {
    for i in at..s.len() {
        if s[i] == b' ' {
            return buffer::part(s, at, i);
        }
    }
    buffer::rest(s, at)
}

// Where `word` first stands; the text's end where it does not.
fn find(s: &[u8], word: &[u8]) -> usize
    ensures { result ≤ length s.now }
{
    for i in 0..s.len() {
        if stands(s, i, word) {
            return i;
        }
    }
    s.len()
}

// The value behind a key.
pub fn value<'a>(s: &'a [u8], key: &[u8]) -> &'a [u8] {
    let at = find(s, key);
    if s.len() - at < key.len() {
        return &s[..0];
    }
    word_at(s, at + key.len())
}

// The number behind a key; 0 where there is none.
pub fn number(s: &[u8], key: &[u8]) -> u32 {
    let Some(n) = decimal::read(value(s, key)) else {
        return 0;
    };
    n
}

// What a digit of hex is worth; 0 for other letters.
fn digit(b: u8) -> u8
    ensures { result ≤ 15 }
{
    if b < 48 {
        return 0;
    }
    if b <= 57 {
        return b - 48;
    }
    if b < 97 {
        return 0;
    }
    if 102 < b {
        return 0;
    }
    b - 87
}

// The bytes that hex spells, at the front of `out`, and how many they are; what `out` has no room for is left out.
pub fn unhex(s: &[u8], out: &mut [u8]) -> usize {
    for n in 0..out.len() {
        let at = n * 2;
        if s.len() < at + 2 {
            return n;
        }
        out[n] = digit(s[at]) * 16 + digit(s[at + 1]);
    }
    out.len()
}

// The line that gives the store held, behind the line `next`.
pub fn held(s: &[u8], before: Line, next: Line) -> Line {
    if stands(s, next.start, b"store ") {
        return next;
    }
    before
}

// A line's store in hex: its own, or the one held.
pub fn store_of(s: &[u8], held: Line, line: Line) -> &[u8] {
    let own = value(of(s, line), b" store=");
    if buffer::same(own, b"held") {
        return value(of(s, held), b"store ");
    }
    own
}
