// The CoAP frame (RFC 7252): reading a datagram's header and options, and the heads of what the agent sends.
// Options and payload stay where they are: positions say where they stand.
#![tactic(auto)]

mod write;

ghost use Rattle.std.specs.Prelude.{◌≡◌, length};
ghost use Rattle.coap.specs.Option.{extended, option_at, option_from, payload_from};
ghost use Rattle.coap.specs.Frame.{frame_of, body_of, empty_of};

pub use write::{put_answer, put_registration, put_reply, put_report, put_reset};

// The codes of replies: 2.01, 2.05, and 4.00 to 4.05.
pub const CREATED: u8 = 65;

pub const CONTENT: u8 = 69;

pub const BAD_REQUEST: u8 = 128;

pub const UNAUTHORIZED: u8 = 129;

pub const BAD_OPTION: u8 = 130;

pub const FORBIDDEN: u8 = 131;

pub const NOT_FOUND: u8 = 132;

pub const NOT_ALLOWED: u8 = 133;

// An option: its number, and its value from `start` up to `end`, where the next option begins.
#[derive(Clone, Copy)]
pub struct CoapOption {
    pub number: u64,
    pub start: usize,
    pub end: usize,
}

// What stands where an option may: one, or the payload (at the datagram's end where there is none).
#[derive(Clone, Copy)]
pub enum Next {
    Option(CoapOption),
    Payload(usize),
}

// A well-formed frame. Its options begin at `options`, its payload at `payload`.
#[derive(Clone, Copy)]
pub struct Frame {
    pub kind: u8,
    pub code: u8,
    pub id: u16,
    pub options: usize,
    pub payload: usize,
}

// A datagram that is no frame: one with a format error, of which the type and the message id are still known; or one
// too short for a header or of another version.
#[derive(Clone, Copy)]
pub enum FrameError {
    Malformed(u8, u16),
    Foreign,
}

// An option's delta or length, and where the bytes after it begin: a nibble of 13 or 14 has one or two bytes more; 15 is reserved.
#[tactic(auto, unfolding(crate::specs::Option::extended, buffer::specs::Stretch::fits))]
fn extend(s: &[u8], nibble: u8, at: usize) -> Option<(u64, usize)>
    ensures { result ≡ extended s.now nibble at }
{
    match nibble {
        0..=12 => Some((u64::from(nibble), at)),
        13 => {
            let more = *s.get(at)?;
            Some((u64::from(more) + 13, at + 1))
        }
        14 => {
            let high = *s.get(at)?;
            let low = *s.get(at + 1)?;
            Some((u64::from(high) * 256 + u64::from(low) + 269, at + 2))
        }
        _ => None,
    }
}

// What stands at `at`, behind an option of the number `before`, if it can be read.
#[tactic(auto, unfolding(crate::specs::Option::option_at))]
pub fn option_at(s: &[u8], at: usize, before: u64) -> Option<Next>
    ensures { result ≡ option_at s.now at before }
{
    let Some(&b) = s.get(at) else {
        return Some(Next::Payload(at));
    };
    if b == 255 {
        if s.len() - at == 1 {
            return None;
        }
        return Some(Next::Payload(at + 1));
    }
    numbered(s, b, at + 1, before)
}

// An option whose first byte is `b`, the others from `at` on: a number above 65,535 is a format error.
#[tactic(auto, unfolding(crate::specs::Option::option_from, crate::specs::Option::of_delta, crate::specs::Option::of_length, crate::specs::Option::of_stretch))]
fn numbered(s: &[u8], b: u8, at: usize, before: u64) -> Option<Next>
    ensures { result ≡ option_from s.now b at before }
{
    let (delta, mid) = extend(s, b / 16, at)?;
    if 65535 < before {
        return None;
    }
    if 65535 - before < delta {
        return None;
    }
    let (len, start) = extend(s, b % 16, mid)?;
    let end = buffer::end_of(s, start, len)?;
    Some(Next::Option(CoapOption {
        number: before + delta,
        start,
        end,
    }))
}

// Where the payload begins, behind options from `at` on.
#[tactic(auto, using(crate::proofs::Laws::ending_steps), unfolding(crate::specs::Option::payload_from))]
fn payload_from(s: &[u8], from: usize) -> Option<usize>
    ensures { result ≡ payload_from s.now from }
{
    let mut at = from;
    let mut before = 0;
    loop {
        match option_at(s, at, before)? {
            Next::Option(o) => {
                at = o.end;
                before = o.number;
            }
            Next::Payload(p) => {
                return Some(p);
            }
        }
    }
}

// The frame of a datagram.
#[tactic(auto, unfolding(crate::specs::Frame::frame_of))]
pub fn read(s: &[u8]) -> Result<Frame, FrameError>
    ensures { result ≡ frame_of s.now }
{
    let &[first, code, high, low, ..] = s else {
        return Err(FrameError::Foreign);
    };
    if first / 64 != 1 {
        return Err(FrameError::Foreign);
    }
    let id = u16::from_be_bytes([high, low]);
    body(s, first / 16 % 4, code, id, first % 16)
}

// An empty message has nothing behind its header.
#[tactic(auto, unfolding(crate::specs::Frame::empty_of))]
fn empty(s: &[u8], kind: u8, id: u16, token: u8) -> Result<Frame, FrameError>
    ensures { result ≡ empty_of (length s.now) kind id token }
{
    if s.len() == 4 {
        if token == 0 {
            return Ok(Frame {
                kind,
                code: 0,
                id,
                options: 4,
                payload: 4,
            });
        }
    }
    Err(FrameError::Malformed(kind, id))
}

// The rest of the frame: the token is passed over.
#[tactic(auto, unfolding(crate::specs::Frame::body_of, crate::specs::Frame::of_token, crate::specs::Frame::of_ending))]
fn body(s: &[u8], kind: u8, code: u8, id: u16, token: u8) -> Result<Frame, FrameError>
    ensures { result ≡ body_of s.now kind code id token }
{
    if code == 0 {
        return empty(s, kind, id, token);
    }
    let malformed = FrameError::Malformed(kind, id);
    if 8 < token {
        return Err(malformed);
    }
    let options = buffer::end_of(s, 4, u64::from(token)).ok_or(malformed)?;
    let payload = payload_from(s, options).ok_or(malformed)?;
    Ok(Frame {
        kind,
        code,
        id,
        options,
        payload,
    })
}
