// Plays the lives of devices: each line on standard input is a call of the agent, printed again with what it answers.
//
// A life's calls go on from one state. Bytes are in hex, numbers decimal, `-` is none. A line `store` holds a store for
// calls that say `store=held`. `padding` is the host's call about padded varints, `due` the one that sends a delayed answer. Some lines only look: `image` at the open image, `progress` at how far it is, `complete`
// at whether none of its blocks is missing, `look` at the URL held and the front of the image buffer. Other lines are
// printed as they are. No answer was taken from this program: they are those of models written from documents 01 and 02.
// The first lives came with the order (waits, rounds, acknowledgements, redirects, reports, loads, boots; signed
// responses; refusals; setups at their limits; each request's own; random calls). Then come transfers and questions, whose
// datagrams were made by a script: blocks by multicast and again to a straggler, repeated with other bytes, out of order,
// damaged; steps a to i, refusals and resets; every answer to records 65 and 68 to 70; TlvIndex, ids by path and by
// query, copied spellings, replies of 1,280 bytes and one more; stores at their limits; record 75 in every state of the
// images; groups and reports as acknowledgements assign them.
#![tactic(auto)]

mod show;

ghost use Rattle.std.specs.Prelude.{◌≤◌};

use agent::State;
use script::Line;
use std::io;
use std::io::Write;

fn set_up<W: Write>(writer: &mut W, line: &[u8]) -> io::Result<State> {
    let made = script::set_up(line);
    show::number(writer, b" -> outcome=", made.outcome as u64)?;
    Ok(made.state)
}

fn first_wait<W: Write>(writer: &mut W, state: State, line: &[u8]) -> io::Result<State> {
    let wait = agent::first_wait(state, script::number(line, b" r="));
    show::number(writer, b" -> ", wait.0 as u64)?;
    Ok(state)
}

// How much of an output of 1,280 bytes is lent.
fn room(line: &[u8]) -> usize
    ensures { result ≤ 1280 }
{
    let n = script::number(line, b" out=") as usize;
    if 1280 < n {
        return 1280;
    }
    n
}

fn round<W: Write>(
    writer: &mut W,
    state: State,
    out: &mut [u8],
    store: &[u8],
    line: &[u8],
) -> io::Result<State> {
    let r = agent::round(
        state,
        out,
        store,
        script::time(line),
        script::number(line, b" r="),
    );
    show::number(writer, b" -> outcome=", r.answer.outcome as u64)?;
    show::number(writer, b" backoff=", r.backoff.0 as u64)?;
    show::number(writer, b" rest=", r.rest.0 as u64)?;
    show::bytes(writer, b" sent=", out, r.answer.len)?;
    Ok(r.answer.state)
}

fn report<W: Write>(
    writer: &mut W,
    state: State,
    out: &mut [u8],
    store: &[u8],
    line: &[u8],
) -> io::Result<State> {
    let r = agent::report(state, out, store, script::time(line), script::which(line));
    show::number(writer, b" -> outcome=", r.outcome as u64)?;
    show::bytes(writer, b" sent=", out, r.len)?;
    Ok(r.state)
}

fn datagram<W: Write>(
    writer: &mut W,
    state: State,
    answers: &mut [u8; 4736],
    image: &mut [u8],
    out: &mut [u8],
    store: &[u8],
    line: &[u8],
) -> io::Result<State> {
    let mut bytes = [0u8; 2048];
    let n = script::unhex(script::value(line, b" in="), &mut bytes);
    let given = buffer::front(&bytes, n);
    let verdict = (script::number(line, b" verdict=") % 256) as u8;
    let time = script::time(line);
    let random = script::number(line, b" r=");
    let r = agent::datagram(
        state, answers, image, out, given, store, time, verdict, random,
    );
    show::number(writer, b" -> outcome=", r.outcome as u64)?;
    show::bytes(writer, b" reply=", out, r.len)?;
    show::number(writer, b" padded=", r.padded as u64)?;
    Ok(r.state)
}

fn due<W: Write>(
    writer: &mut W,
    state: State,
    answers: &[u8; 4736],
    out: &mut [u8],
    store: &[u8],
    line: &[u8],
) -> io::Result<State> {
    let r = agent::answer_due(state, answers, out, store, script::time(line));
    show::number(writer, b" -> outcome=", r.outcome as u64)?;
    let letters = r.url.bytes;
    show::url(writer, b" url=", letters, r.url.len)?;
    show::bytes(writer, b" sent=", out, r.len)?;
    Ok(r.state)
}

// A line that only looks.
fn look<W: Write>(writer: &mut W, state: State, image: &[u8], line: &[u8]) -> io::Result<()> {
    if script::stands(line, 0, b"image") {
        show::image(writer, state, image)?;
    }
    if script::stands(line, 0, b"progress") {
        show::progress(writer, state)?;
    }
    if script::stands(line, 0, b"complete") {
        show::complete(writer, b" -> ", state)?;
    }
    if script::stands(line, 0, b"look ") {
        show::kept(
            writer,
            state,
            image,
            script::number(line, b" len=") as usize,
        )?;
    }
    Ok(())
}

// A call that is lent buffers, or a line that only looks.
fn lend<W: Write>(
    writer: &mut W,
    state: State,
    answers: &mut [u8; 4736],
    image: &mut [u8],
    out: &mut [u8],
    store: &[u8],
    line: &[u8],
) -> io::Result<State> {
    if script::stands(line, 0, b"datagram ") {
        return datagram(writer, state, answers, image, out, store, line);
    }
    if script::stands(line, 0, b"due ") {
        return due(writer, state, answers, out, store, line);
    }
    if script::stands(line, 0, b"round ") {
        return round(writer, state, out, store, line);
    }
    if script::stands(line, 0, b"report ") {
        return report(writer, state, out, store, line);
    }
    look(writer, state, image, line)?;
    Ok(state)
}

// Lends as much of the buffers as the line and the setup say, and the store that `hex` spells.
fn ask<W: Write>(
    writer: &mut W,
    state: State,
    answers: &mut [u8; 4736],
    image: &mut [u8],
    line: &[u8],
    hex: &[u8],
) -> io::Result<State> {
    let mut bytes = [0u8; 8192];
    let n = script::unhex(hex, &mut bytes);
    let store = buffer::front(&bytes, n);
    let mut out = [0u8; 1280];
    let len = room(line);
    let size = script::image_room(state, image.len());
    lend(
        writer,
        state,
        answers,
        &mut image[..size],
        &mut out[..len],
        store,
        line,
    )
}

// A call by its name; a setup begins a life, over an image buffer of zeros. Other lines are no calls.
fn act<W: Write>(
    writer: &mut W,
    state: State,
    answers: &mut [u8; 4736],
    image: &mut [u8],
    line: &[u8],
    hex: &[u8],
) -> io::Result<State> {
    if script::stands(line, 0, b"setup ") {
        let zeros = [0u8; 4096];
        buffer::copy(image, &zeros);
        return set_up(writer, line);
    }
    if script::stands(line, 0, b"first_wait ") {
        return first_wait(writer, state, line);
    }
    if script::stands(line, 0, b"boot") {
        return Ok(agent::boot(state));
    }
    if script::stands(line, 0, b"padding ") {
        return Ok(agent::refuse_padding(state, script::number(line, b" refused=") == 1));
    }
    ask(writer, state, answers, image, line, hex)
}

fn play_line<W: Write>(
    writer: &mut W,
    state: State,
    answers: &mut [u8; 4736],
    image: &mut [u8],
    line: &[u8],
    hex: &[u8],
) -> io::Result<State> {
    lines::word(writer, line)?;
    let next = act(writer, state, answers, image, line, hex)?;
    lines::word(writer, b"\n")?;
    Ok(next)
}

fn play<W: Write>(writer: &mut W, s: &[u8]) -> io::Result<()> {
    let mut answers = [0u8; 4736];
    let mut image = [0u8; 4096];
    let none = script::set_up(b"");
    let mut state = none.state;
    let mut held = Line { start: 0, end: 0 };
    let mut at = 0;
    while at < s.len() {
        let line = script::line_at(s, at);
        held = script::held(s, held, line);
        state = play_line(
            writer,
            state,
            &mut answers,
            &mut image,
            script::of(s, line),
            script::store_of(s, held, line),
        )?;
        at = line.end;
    }
    Ok(())
}

// The bytes that the calls are read into. They come from a call, since the check would work out a literal of this length where it is lent.
fn room_for_calls() -> [u8; 524288] {
    [0u8; 524288]
}

fn main(rt: HostRuntime) -> io::Result<()> {
    let mut space = room_for_calls();
    let n = lines::read_full(&mut rt.reader(), &mut space);
    play(&mut io::writer(&rt), buffer::front(&space, n))
}
