// Decimal ids: 0, or digits without a leading zero, below 2^32.
#![tactic(auto)]

ghost use Rattle.std.specs.Prelude.{◌≡◌, true, length, ◌+◌};
ghost use Rattle.buffer.specs.Put.{Put};
ghost use Rattle.buffer.specs.Stretch.{fits};
ghost use Rattle.decimal.specs.Decimal.{id_of, digits_of, decimal};
ghost use Rattle.decimal.specs.Ids.{no_ids, pushed};

// The id that the whole of `s` spells, if it spells one.
#[tactic(auto, using(crate::proofs::Laws::id_steps))]
pub fn read(s: &[u8]) -> Option<u32>
    ensures { result ≡ id_of s.now }
{
    let first = s.first()?;
    // A leading zero stands alone.
    if *first == b'0' {
        return (s.len() == 1).then_some(0);
    }
    digits(s)
}

// The number that digits spell.
#[tactic(auto, using(crate::proofs::Laws::digit_steps))]
fn digits(s: &[u8]) -> Option<u32>
    ensures { result ≡ digits_of s.now }
{
    let mut value: u32 = 0;
    for &b in s {
        if !b.is_ascii_digit() {
            return None;
        }
        value = value.checked_mul(10)?.checked_add(u32::from(b - b'0'))?;
    }
    Some(value)
}

// How many digits `v` has.
pub fn len(v: u32) -> usize
    ensures { result ≡ length (decimal v) }
{
    let mut rest = v;
    let mut n = 1;
    while 10 <= rest {
        rest /= 10;
        n += 1;
    }
    n
}

// Appends `v` in decimal, and answers the next position.
pub fn put(out: &mut [u8], at: usize, v: u32) -> usize
    ensures { Put out.old at (decimal v) out.new result }
{
    let n = len(v);
    if buffer::has_room(out.len(), at, n) {
        return write(out, at, at + n, v);
    }
    out.len() + 1
}

// The digits, from the last to the first, where they fit.
fn write(out: &mut [u8], at: usize, end: usize, v: u32) -> usize
    requires v_value { fits (length out.old) at (length (decimal v)) ≡ true }
    requires end_value { end ≡ at + length (decimal v) }
    ensures { Put out.old at (decimal v) out.new result }
{
    let mut rest = v;
    let mut i = end - 1;
    while 10 <= rest {
        out[i] = (48 + rest % 10) as u8;
        rest /= 10;
        i -= 1;
    }
    out[i] = (48 + rest) as u8;
    end
}

// A list of at most 32 ids: the first `count` of `list`.
#[derive(Clone, Copy)]
pub struct Ids {
    pub list: [u32; 32],
    pub count: usize,
}

impl Ids {
    pub fn empty() -> Ids
        ensures { result ≡ no_ids }
    {
        Ids {
            list: [0; 32],
            count: 0,
        }
    }

    // One id more, where there is a place for it. Changed in place, `self` would be copied once more.
    #[tactic(auto, unfolding(crate::specs::Ids::pushed))]
    pub fn push(self, id: u32) -> Ids
        ensures { result ≡ pushed self id }
    {
        let n = self.count;
        if 32 <= n {
            return self;
        }
        let mut list = self.list;
        list[n] = id;
        Ids { list, count: n + 1 }
    }
}
