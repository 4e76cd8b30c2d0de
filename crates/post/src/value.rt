// What one record of a payload says to steps e to i.
ghost use Rattle.std.specs.Prelude.{◌≡◌, ◌&&◌, not};
ghost use Rattle.post.specs.Value.{reading_at, is_early, is_late, is_expired, has_pair, is_match, is_forbidden};

use message::Reading;
use schedule::Point;
use state::Groups;

// There are GroupMatches, and none names a held group.
pub fn unmatched(grouped: bool, matched: bool) -> bool
    ensures { result ≡ (grouped && not matched) }
{
    if grouped { !matched } else { false }
}

// What is read of the value of a record that acts; others are not read.
pub fn read(kind: u64, v: &[u8]) -> Reading
    ensures { result ≡ reading_at kind v.now }
{
    match kind {
        6 => decode::read_redirect(v).reading,
        57 => decode::read_group(v).reading,
        65 => decode_image::read_transfer(v).reading,
        67 => decode_image::read_block(v).reading,
        68 => decode_image::read_load(v).reading,
        69 => decode_image::read_hash(v).reading,
        70 => decode_image::read_hash(v).reading,
        76 => decode::read_validity(v).reading,
        77 => decode::read_signature(v),
        _ => message::empty(),
    }
}

fn is_early(bound: Option<Point>, time: Point) -> bool
    ensures { result ≡ is_early bound time }
{
    let Some(t) = bound else {
        return false;
    };
    schedule::before(time, t)
}

fn is_late(bound: Option<Point>, time: Point) -> bool
    ensures { result ≡ is_late bound time }
{
    let Some(t) = bound else {
        return false;
    };
    schedule::before(t, time)
}

// Step g: now is outside the bounds of a SignatureValidity.
pub fn is_expired(kind: u64, v: &[u8], time: Point) -> bool
    ensures { result ≡ is_expired kind v.now time }
{
    if kind != 76 {
        return false;
    }
    let m = decode::read_validity(v);
    let from = m.not_before;
    let to = m.not_after;
    buffer::either(is_early(from, time), is_late(to, time))
}

// Whether a pair is among the groups held.
fn has_pair(groups: Groups, kind: u32, id: u32) -> bool
    ensures { result ≡ has_pair groups kind id }
{
    for (i, pair) in groups.list.iter().enumerate() {
        if groups.count <= i {
            return false;
        }
        if pair.kind == kind {
            if pair.id == id {
                return true;
            }
        }
    }
    false
}

// Step h: a GroupMatch that names a held group; one with a missing part names none.
pub fn is_match(kind: u64, v: &[u8], groups: Groups) -> bool
    ensures { result ≡ is_match kind v.now groups }
{
    if kind != 57 {
        return false;
    }
    let m = decode::read_group(v);
    let given_kind = m.kind;
    let given_id = m.id;
    let Some(k) = given_kind else {
        return false;
    };
    let Some(id) = given_id else {
        return false;
    };
    has_pair(groups, k, id)
}

// Step i: 7, 8, 13, 18, 55, 58, 71 to 75.
pub fn is_forbidden(kind: u64) -> bool
    ensures { result ≡ is_forbidden kind }
{
    match kind {
        7 | 13 | 18 | 55 | 58 => true,
        8 => true,
        71..=75 => true,
        _ => false,
    }
}
