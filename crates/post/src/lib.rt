// Judging a posted payload: steps e to i, before any record runs.
#![tactic(auto)]

mod value;

ghost use Rattle.std.specs.Prelude.{◌≡◌, ℕ, ◌≤◌, List};
ghost use Rattle.decode_image.specs.Read.{block_of};
ghost use Rattle.post.specs.Judge.{nothing_seen, noted, sealed, LookedBy, badly_signed, judged, judged_as};
ghost use Rattle.post.specs.Value.{is_readable};

use decode_image::Block;
use schedule::Point;
use state::Groups;
pub use value::is_expired;

// What a walk over a payload has seen: how many records, whether their values can be read, whether one is a
// Signature, whether one's validity does not hold now, whether there are GroupMatches and one names a held group,
// whether one may not be posted.
#[derive(Clone, Copy)]
pub struct Seen {
    pub records: usize,
    pub readable: bool,
    pub signed: bool,
    pub expired: bool,
    pub grouped: bool,
    pub matched: bool,
    pub forbidden: bool,
}

// What a walk leaves: what it saw, whether a varint that it read is padded, and of the ImageBlock that it read last where its value stands and what
// it says, so that it need not be read again where it is taken.
#[derive(Clone, Copy)]
pub struct Looked {
    pub seen: Seen,
    pub padded: bool,
    pub start: usize,
    pub end: usize,
    pub block: Block,
}

fn nothing() -> Seen
    ensures { result ≡ nothing_seen }
{
    Seen {
        records: 0,
        readable: true,
        signed: false,
        expired: false,
        grouped: false,
        matched: false,
        forbidden: false,
    }
}

// One ImageBlock more.
fn note_block(seen: Seen, block: Block) -> Seen
    requires { seen.records ≤ 1280 }
    ensures { (g : Groups) (t : Point) (v : List ℕ) → block ≡ block_of v → result ≡ noted g t seen 67 v }
{
    let mut next = seen;
    next.records = seen.records + 1;
    next.readable = buffer::both(seen.readable, block.reading.readable);
    next
}

// One record more, whose value can be read or not.
fn note(seen: Seen, kind: u64, v: &[u8], readable: bool, groups: Groups, time: Point) -> Seen
    requires { (seen.records ≤ 1280) × (readable ≡ is_readable kind v.now) }
    ensures { result ≡ noted groups time seen kind v.now }
{
    let readable = buffer::both(seen.readable, readable);
    let signed = buffer::either(seen.signed, kind == 77);
    let expired = buffer::either(seen.expired, value::is_expired(kind, v, time));
    let grouped = buffer::either(seen.grouped, kind == 57);
    let matched = buffer::either(seen.matched, value::is_match(kind, v, groups));
    let forbidden = buffer::either(seen.forbidden, value::is_forbidden(kind));
    Seen {
        records: seen.records + 1,
        readable,
        signed,
        expired,
        grouped,
        matched,
        forbidden,
    }
}

// The walk's end: a record that can't be read makes the payload unreadable.
fn seal(seen: Seen, whole: bool) -> Seen
    ensures { result ≡ sealed whole seen }
{
    let mut last = seen;
    last.readable = buffer::both(whole, seen.readable);
    last
}

// The walk's end, with the ImageBlock that it read last.
fn finish(seen: Seen, padded: bool, whole: bool, start: usize, end: usize, block: Block) -> Looked
    ensures { result ≡ record { seen = sealed whole seen; padded = padded; start = start; «end» = «end»; block = block } }
{
    let seen = seal(seen, whole);
    Looked {
        seen,
        padded,
        start,
        end,
        block,
    }
}

// What there is to see in a payload of at most 1,280 bytes; a longer one is not looked at.
pub fn look(payload: &[u8], groups: Groups, time: Point) -> Looked
    ensures { LookedBy groups time payload.now result }
{
    let mut seen = nothing();
    let mut padded = false;
    let mut block = decode_image::no_block();
    let mut from = 0;
    let mut to = 0;
    if 1280 < payload.len() {
        return finish(seen, padded, false, from, to, block);
    }
    let mut at = 0;
    while at < payload.len() {
        let Some(r) = tlv::take_record(payload, at) else {
            return finish(seen, padded, false, from, to, block);
        };
        let start = r.start;
        let end = r.end;
        if r.kind == 67 {
            block = decode_image::read_block(&payload[start..end]);
            padded = buffer::either(padded, buffer::either(r.padded, block.reading.padded));
            seen = note_block(seen, block);
            from = start;
            to = end;
        } else {
            let v = &payload[start..end];
            let reading = value::read(r.kind, v);
            padded = buffer::either(padded, buffer::either(r.padded, reading.padded));
            seen = note(seen, r.kind, v, reading.readable, groups, time);
        }
        at = end;
    }
    finish(seen, padded, true, from, to, block)
}

// Step f: a bad verdict, or none good where signatures are required. Without a Signature the verdict counts as none.
pub fn badly_signed(signed: bool, verdict: u8, required: bool) -> bool
    ensures { result ≡ badly_signed signed verdict required }
{
    if !signed {
        return required;
    }
    if verdict == 2 {
        return true;
    }
    if verdict == 1 {
        return false;
    }
    required
}

// Steps e to i, in this order: the code of an error to answer, or that the records may run.
fn judge_seen(seen: Seen, verdict: u8, required: bool) -> Result<(), u8>
    ensures { result ≡ judged seen verdict required }
{
    if !seen.readable {
        return Err(coap::BAD_REQUEST);
    }
    if seen.records == 0 {
        return Err(coap::BAD_REQUEST);
    }
    if 24 < seen.records {
        return Err(coap::BAD_REQUEST);
    }
    if badly_signed(seen.signed, verdict, required) {
        return Err(coap::UNAUTHORIZED);
    }
    if seen.expired {
        return Err(coap::UNAUTHORIZED);
    }
    if value::unmatched(seen.grouped, seen.matched) {
        return Err(coap::FORBIDDEN);
    }
    if seen.forbidden {
        return Err(coap::FORBIDDEN);
    }
    Ok(())
}

// The same; where padding is refused, step e refuses it.
pub fn judge(
    seen: Seen,
    padded: bool,
    verdict: u8,
    required: bool,
    refuse_padding: bool,
) -> Result<(), u8>
    ensures { result ≡ judged_as refuse_padding padded seen verdict required }
{
    if buffer::both(refuse_padding, padded) {
        return Err(coap::BAD_REQUEST);
    }
    judge_seen(seen, verdict, required)
}
