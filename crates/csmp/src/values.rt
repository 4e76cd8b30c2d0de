// What the values of messages share: numbers that are times, sizes, and texts.
ghost use Rattle.std.specs.Prelude.{◌≡◌};
ghost use Rattle.csmp.specs.Values.{moment_of, interval_of, moment_number, interval_number, at_most, field_is};

use protobuf::Span;
use schedule::{Length, Point};

// A number that is a point, and one that is a length.
pub fn moment(n: Option<u32>) -> Option<Point>
    ensures { result ≡ moment_of n }
{
    let Some(t) = n else {
        return None;
    };
    Some(Point(t))
}

pub fn interval(n: Option<u32>) -> Option<Length>
    ensures { result ≡ interval_of n }
{
    let Some(t) = n else {
        return None;
    };
    Some(Length(t))
}

// A point, and a length, as the number that is written.
pub fn moment_number(m: Option<Point>) -> Option<u32>
    ensures { result ≡ moment_number m }
{
    let Some(p) = m else {
        return None;
    };
    Some(p.0)
}

pub fn interval_number(i: Option<Length>) -> Option<u32>
    ensures { result ≡ interval_number i }
{
    let Some(l) = i else {
        return None;
    };
    Some(l.0)
}

// Whether bytes, if there are any, are at most so many.
pub fn at_most(b: Option<Span>, most: usize) -> bool
    ensures { result ≡ at_most most b }
{
    let Some(Span { start, end }) = b else {
        return true;
    };
    if end < start {
        return true;
    }
    end - start <= most
}

// Whether a field holds these bytes; `absent` is the answer where there is no such field.
pub fn field_is(bytes: &[u8], s: &[u8], place: Option<Span>, absent: bool) -> bool
    ensures { result ≡ field_is bytes.now s.now absent place }
{
    let Some(Span { start, end }) = place else {
        return absent;
    };
    buffer::same(bytes, buffer::part(s, start, end))
}
