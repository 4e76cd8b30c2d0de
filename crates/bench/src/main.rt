// Plays each call of a script as often as its line says, every time from the state that the lines before it left: the instructions of two runs
// that differ only in how often a call is made differ by what so many calls take.
//
// The first call stands before the loop: a call that a program makes at two places is not copied into either.
//
// A line is a call as the program `lives` has it, with ` times=N` more; it is lent 1,280 bytes of output. It is printed by its name, or by its
// first word, with the last answer: the outcome and the length of what was sent. The state that this leaves goes on to the next line.
#![tactic(auto)]

use agent::State;
use script::Line;
use std::io;
use std::io::Write;

fn show<W: Write>(writer: &mut W, outcome: u32, len: usize) -> io::Result<()> {
    lines::word(writer, b" -> outcome=")?;
    lines::number(writer, outcome as u64)?;
    lines::word(writer, b" length=")?;
    lines::number(writer, len as u64)
}

fn datagram<W: Write>(
    writer: &mut W,
    state: State,
    answers: &mut [u8; 4736],
    image: &mut [u8],
    out: &mut [u8],
    store: &[u8],
    line: &[u8],
) -> io::Result<State> {
    let mut bytes = [0u8; 2048];
    let n = script::unhex(script::value(line, b" in="), &mut bytes);
    let given = buffer::front(&bytes, n);
    let verdict = (script::number(line, b" verdict=") % 256) as u8;
    let time = script::time(line);
    let random = script::number(line, b" r=");
    let mut last = agent::datagram(
        state, answers, image, out, given, store, time, verdict, random,
    );
    let times = script::number(line, b" times=");
    for _ in 1..times {
        last = agent::datagram(
            state, answers, image, out, given, store, time, verdict, random,
        );
    }
    show(writer, last.outcome, last.len)?;
    Ok(last.state)
}

fn round<W: Write>(
    writer: &mut W,
    state: State,
    out: &mut [u8],
    store: &[u8],
    line: &[u8],
) -> io::Result<State> {
    let time = script::time(line);
    let random = script::number(line, b" r=");
    let first = agent::round(state, out, store, time, random);
    let mut last = first.answer;
    let times = script::number(line, b" times=");
    for _ in 1..times {
        let r = agent::round(state, out, store, time, random);
        last = r.answer;
    }
    show(writer, last.outcome, last.len)?;
    Ok(last.state)
}

fn report<W: Write>(
    writer: &mut W,
    state: State,
    out: &mut [u8],
    store: &[u8],
    line: &[u8],
) -> io::Result<State> {
    let time = script::time(line);
    let which = script::which(line);
    let mut last = agent::report(state, out, store, time, which);
    let times = script::number(line, b" times=");
    for _ in 1..times {
        last = agent::report(state, out, store, time, which);
    }
    show(writer, last.outcome, last.len)?;
    Ok(last.state)
}

fn due<W: Write>(
    writer: &mut W,
    state: State,
    answers: &[u8; 4736],
    out: &mut [u8],
    store: &[u8],
    line: &[u8],
) -> io::Result<State> {
    let time = script::time(line);
    let mut last = agent::answer_due(state, answers, out, store, time);
    let times = script::number(line, b" times=");
    for _ in 1..times {
        last = agent::answer_due(state, answers, out, store, time);
    }
    show(writer, last.outcome, last.len)?;
    Ok(last.state)
}

// A call that is lent buffers. Other lines are no calls.
fn lend<W: Write>(
    writer: &mut W,
    state: State,
    answers: &mut [u8; 4736],
    image: &mut [u8],
    store: &[u8],
    line: &[u8],
) -> io::Result<State> {
    let mut out = [0u8; 1280];
    if script::stands(line, 0, b"datagram ") {
        return datagram(writer, state, answers, image, &mut out, store, line);
    }
    if script::stands(line, 0, b"due ") {
        return due(writer, state, answers, &mut out, store, line);
    }
    if script::stands(line, 0, b"round ") {
        return round(writer, state, &mut out, store, line);
    }
    if script::stands(line, 0, b"report ") {
        return report(writer, state, &mut out, store, line);
    }
    Ok(state)
}

// Lends as much of the image buffer as the setup says, and the store that `hex` spells.
fn ask<W: Write>(
    writer: &mut W,
    state: State,
    answers: &mut [u8; 4736],
    image: &mut [u8],
    line: &[u8],
    hex: &[u8],
) -> io::Result<State> {
    let mut bytes = [0u8; 8192];
    let n = script::unhex(hex, &mut bytes);
    let store = buffer::front(&bytes, n);
    let size = script::image_room(state, image.len());
    lend(writer, state, answers, &mut image[..size], store, line)
}

// A call by its name; a setup begins with another device.
fn act<W: Write>(
    writer: &mut W,
    state: State,
    answers: &mut [u8; 4736],
    image: &mut [u8],
    line: &[u8],
    hex: &[u8],
) -> io::Result<State> {
    if script::stands(line, 0, b"setup ") {
        let made = script::set_up(line);
        return Ok(made.state);
    }
    ask(writer, state, answers, image, line, hex)
}

// What a line is printed by: its name, or its first word.
fn label(line: &[u8]) -> &[u8] {
    let name = script::value(line, b" name=");
    if name.len() == 0 {
        return script::word_at(line, 0);
    }
    name
}

fn play_line<W: Write>(
    writer: &mut W,
    state: State,
    answers: &mut [u8; 4736],
    image: &mut [u8],
    line: &[u8],
    hex: &[u8],
) -> io::Result<State> {
    lines::word(writer, label(line))?;
    let next = act(writer, state, answers, image, line, hex)?;
    lines::word(writer, b"\n")?;
    Ok(next)
}

fn play<W: Write>(writer: &mut W, s: &[u8]) -> io::Result<()> {
    let mut answers = [0u8; 4736];
    let mut image = [0u8; 1048576];
    let none = script::set_up(b"");
    let mut state = none.state;
    let mut held = Line { start: 0, end: 0 };
    let mut at = 0;
    while at < s.len() {
        let line = script::line_at(s, at);
        held = script::held(s, held, line);
        state = play_line(
            writer,
            state,
            &mut answers,
            &mut image,
            script::of(s, line),
            script::store_of(s, held, line),
        )?;
        at = line.end;
    }
    Ok(())
}

fn main(rt: HostRuntime) -> io::Result<()> {
    let mut space = [0u8; 65536];
    let n = lines::read_full(&mut rt.reader(), &mut space);
    let mut writer = io::writer(&rt);
    play(&mut writer, buffer::front(&space, n))
}
