// Whether bytes are text: well-formed UTF-8 by the grammar of RFC 3629, section 4, in one pass.
#![tactic(auto)]

ghost use Rattle.std.specs.Prelude.{◌≡◌};
ghost use Rattle.utf8.specs.Utf8.{forms, behind, after, is_utf8};
ghost use Rattle.utf8.specs.Pass.{owed, owed_by};

// What the character that was begun still has: how many bytes, and the range of the next. Those behind it are tails, 80 to BF.
#[derive(Clone, Copy)]
pub struct Rest {
    pub count: u8,
    pub low: u8,
    pub high: u8,
}

fn left(count: u8, low: u8, high: u8) -> Rest
    ensures { result ≡ record { count = count; low = low; high = high } }
{
    Rest { count, low, high }
}

// What stands behind a character's first byte, form by form of the grammar.
#[tactic(auto, unfolding(crate::specs::Utf8::behind, crate::specs::Pass::owed, crate::specs::Pass::owed_by))]
fn begin(b: u8) -> Option<Rest>
    ensures { owed_by result ≡ behind b forms }
{
    match b {
        0x00..=0x7F => Some(left(0, 0x80, 0xBF)),
        0xC2..=0xDF => Some(left(1, 0x80, 0xBF)),
        0xE0 => Some(left(2, 0xA0, 0xBF)),
        0xE1..=0xEC => Some(left(2, 0x80, 0xBF)),
        0xED => Some(left(2, 0x80, 0x9F)),
        0xEE..=0xEF => Some(left(2, 0x80, 0xBF)),
        0xF0 => Some(left(3, 0x90, 0xBF)),
        0xF1..=0xF3 => Some(left(3, 0x80, 0xBF)),
        0xF4 => Some(left(3, 0x80, 0x8F)),
        _ => None,
    }
}

// One byte more.
#[tactic(auto, unfolding(crate::specs::Utf8::after, crate::specs::Pass::owed, crate::specs::Pass::owed_by))]
fn advance(r: Rest, b: u8) -> Option<Rest>
    ensures { owed_by result ≡ after (owed r) b }
{
    if r.count == 0 {
        return begin(b);
    }
    if b < r.low || r.high < b {
        return None;
    }
    Some(left(r.count - 1, 0x80, 0xBF))
}

// Whether bytes are well-formed UTF-8.
#[tactic(auto, using(crate::proofs::PassLaws::pass_steps), unfolding(crate::specs::Pass::owed_by))]
pub fn is_utf8(s: &[u8]) -> bool
    ensures { result ≡ is_utf8 s.now }
{
    let mut r = left(0, 0x80, 0xBF);
    for &b in s {
        // Most text is ASCII.
        if r.count == 0 && b < 0x80 {
            continue;
        }
        let Some(rest) = advance(r, b) else {
            return false;
        };
        r = rest;
    }
    r.count == 0
}
