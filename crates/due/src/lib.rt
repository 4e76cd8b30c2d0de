// The call that sends what was delayed: the answer that is due, as a datagram of the agent's own.
#![tactic(auto)]

ghost use Rattle.std.specs.Prelude.{◌≡◌, [], ◌≤◌, length, take};
ghost use Rattle.buffer.specs.Put.{Put};
ghost use Rattle.calls.specs.Datagram.{with_waiting};
ghost use Rattle.calls.specs.Due.{datagram_for, dispatched, answer_due};
ghost use Rattle.outgoing.specs.Sent.{answer_sent};
ghost use Rattle.state.specs.Setup.{url_of};
ghost use Rattle.waiting.specs.Waiting.{url_in};
ghost use Rattle.due.specs.Dispatched.{Dispatched};

use buffer::Text;
use schedule::Point;
use state::{Delayed, State, Url, Waiting, What};
use waiting::Due;

// What the call answers: document 01's outcome, the length of what was written to the output, the URL that it goes to (of length 0 where it goes to
// /c of the URL held or nothing was written), and the state after it.
#[derive(Clone, Copy)]
pub struct DueAnswer {
    pub outcome: u32,
    pub len: usize,
    pub url: Url,
    pub state: State,
}

// Nothing is written.
fn silent(state: State, outcome: u32) -> DueAnswer
    ensures { result ≡ record { outcome = outcome; len = 0; url = url_of []; state = state } }
{
    let url = Text::of(b"");
    DueAnswer {
        outcome,
        len: 0,
        url,
        state,
    }
}

// An answer whose records are the first `end` bytes of a body.
fn put_shown(
    state: State,
    out: &mut [u8],
    time: Point,
    named: bool,
    body: &[u8; 1273],
    end: usize,
) -> usize
    ensures { Put out.old 0 (answer_sent state time named (take «end» body.now)) out.new result }
{
    outgoing::put_answer(state, time, named, buffer::front(body, end), out)
}

// The answer's datagram, at the front of the output: with what a GET would show now, or with the responses that were kept.
fn put_answer(
    state: State,
    answers: &[u8; 4736],
    out: &mut [u8],
    store: &[u8],
    time: Point,
    answer: Delayed,
) -> usize
    ensures { Put out.old 0 (datagram_for state answers.now store.now time answer) out.new result }
{
    let named = answer.url != 0;
    let held = waiting::held_of(answer, answers);
    let mut body = [0u8; 1273];
    let what = answer.what;
    match what {
        What::Index => {
            let got = get::get_index(state, store, time, &mut body);
            put_shown(state, out, time, named, &body, got.end)
        }
        What::Record(id) => {
            let got = get::get_record(state, store, time, id, &mut body);
            put_shown(state, out, time, named, &body, got.end)
        }
        What::Records => {
            let ids = request::joined_ids(held);
            let got = get::get_records(state, store, time, ids, &mut body);
            put_shown(state, out, time, named, &body, got.end)
        }
        What::Responses => outgoing::put_answer(state, time, named, held, out),
    }
}

// Sends an answer that was taken out; those left wait on.
fn send(
    state: State,
    answers: &[u8; 4736],
    out: &mut [u8],
    store: &[u8],
    time: Point,
    answer: Delayed,
    left: Waiting,
) -> DueAnswer
    ensures { 1280 ≤ length out.old → Dispatched (dispatched (with_waiting state left) (url_in answer answers.now) (datagram_for state answers.now store.now time answer)) out.old result out.new }
{
    let len = put_answer(state, answers, out, store, time, answer);
    let mut next = state;
    next.waiting = left;
    if len == 0 {
        return silent(next, 0);
    }
    let old = state.registration;
    let registration = registration::take_id(old);
    next.registration = registration;
    let url = Text::of(waiting::url_of(answer, answers));
    DueAnswer {
        outcome: 0,
        len,
        url,
        state: next,
    }
}

// Refusals 1 and 4, and no third; then the answer that is due first, if one is due by now, is taken out and sent.
pub fn answer_due(
    state: State,
    answers: &[u8; 4736],
    out: &mut [u8],
    store: &[u8],
    time: Point,
) -> DueAnswer
    ensures { Dispatched (answer_due state answers.now (length out.old) store.now time) out.old result out.new }
{
    if let Err(refusal) = refusal::own_refusal(out.len(), store, true, 0) {
        return silent(state, refusal.number());
    }
    let waiting = state.waiting;
    let Some(Due { answer, left }) = waiting::take_due(waiting, time) else {
        return silent(state, 0);
    };
    send(state, answers, out, store, time, answer, left)
}
