// The listing of a capture: a header, then a line for each entry.
#![tactic(auto)]

mod text;

ghost use Rattle.std.specs.Prelude.{◌≡◌};
ghost use Rattle.calls.specs.Datagram.{datagram_of};
ghost use Rattle.lister.specs.Line.{listed_device, call_of, Listed};

use agent::{Length, Point, Settings, Setup, State};
use capture::{Entry, Index};
use std::io;
use std::io::Write;

// A line's length, and the state behind it.
#[derive(Clone, Copy)]
pub struct Line {
    pub len: usize,
    pub state: State,
}

// The device that a capture is played to.
pub fn device() -> Setup
    ensures { result ≡ listed_device }
{
    let settings = Settings {
        image_len: 4096,
        interval_min: Length(agent::DEFAULT_INTERVAL_MIN),
        interval_max: Length(agent::DEFAULT_INTERVAL_MAX),
        message_id: 0,
        signed_posts: false,
        signed_responses: false,
    };
    let running = [0u8; 32];
    agent::setup(b"A1", b"", &running, b"coap://n", settings)
}

// Plays a datagram, and puts its line at the front of the output.
pub fn put_entry(
    state: State,
    answers: &mut [u8; 4736],
    image: &mut [u8],
    n: u32,
    bytes: &[u8],
    time: Point,
    verdict: u8,
    out: &mut [u8],
) -> Line
    ensures { Listed n (datagram_of state image.old (call_of answers.old bytes.now time verdict)) out.old result answers.new image.new out.new }
{
    let mut reply = [0u8; 1280];
    let answer = agent::datagram(
        state, answers, image, &mut reply, bytes, b"", time, verdict, 0,
    );
    let len = text::put_line(out, n, answer.outcome, buffer::front(&reply, answer.len));
    let next = answer.state;
    Line { len, state: next }
}

// Prints the line of an entry.
fn list_entry<W: Write>(
    writer: &mut W,
    state: State,
    answers: &mut [u8; 4736],
    image: &mut [u8],
    n: u32,
    bytes: &[u8],
    entry: Entry,
) -> io::Result<State> {
    let mut out = [0u8; 2600];
    let line = put_entry(
        state,
        answers,
        image,
        n,
        bytes,
        entry.time,
        entry.verdict,
        &mut out,
    );
    lines::word(writer, buffer::front(&out, line.len))?;
    Ok(line.state)
}

// Prints the lines of the entries of a capture.
fn list_entries<W: Write>(writer: &mut W, s: &[u8], index: Index) -> io::Result<()> {
    let mut answers = [0u8; 4736];
    let mut image = [0u8; 4096];
    let made = device();
    let mut state = made.state;
    let mut start = 0;
    for n in 0..index.count {
        let entry = capture::entry_at(s, index.at as usize + n as usize * 8);
        let bytes = capture::bytes_at(s, start, entry.len);
        state = list_entry(
            writer,
            state,
            &mut answers,
            &mut image,
            n as u32,
            bytes,
            entry,
        )?;
        start += entry.len as usize;
    }
    Ok(())
}

fn list_header<W: Write>(writer: &mut W) -> io::Result<()> {
    let mut out = [0u8; 32];
    let n = text::put_header(&mut out, 0);
    lines::word(writer, buffer::front(&out, n))
}

fn list_refusal<W: Write>(writer: &mut W, outcome: u32) -> io::Result<()> {
    let mut out = [0u8; 32];
    let n = text::put_refusal(&mut out, outcome);
    lines::word(writer, buffer::front(&out, n))
}

// Prints the listing of a file; one that is no capture has a single line.
pub fn list<W: Write>(writer: &mut W, s: &[u8]) -> io::Result<()> {
    list_header(writer)?;
    let capture = capture::read(s);
    let Some(index) = capture else {
        return list_refusal(writer, capture::outcome_of(capture));
    };
    list_entries(writer, s, index)
}
