// Datagrams of the agent's own: rounds of registration, and reports.
#![tactic(auto)]

ghost use Rattle.std.specs.Prelude.{◌≡◌, length};
ghost use Rattle.calls.specs.Own.{with_registration, round_of, backoff_in, rest_in, is_positive, reports, report_of};
ghost use Rattle.outgoing.specs.declared.Report.TheVariants.{Primary};
ghost use Rattle.registration.specs.Round.{round_taken};
ghost use Rattle.rounds.specs.Rounds.{SentAs, Rounded};

use outgoing::Report;
use reply::Answer;
use schedule::{Length, Point};
use state::{Registration, State};

// What a round answers: the wait before the datagram is sent, and the wait behind it.
#[derive(Clone, Copy)]
pub struct RoundAnswer {
    pub answer: Answer,
    pub backoff: Length,
    pub rest: Length,
}

// A datagram went out, and registration is as it says.
fn sent(state: State, registration: Registration, len: usize) -> Answer
    ensures { result ≡ record { outcome = 0; len = len; state = with_registration state registration } }
{
    let mut next = state;
    next.registration = registration;
    Answer {
        outcome: 0,
        len,
        state: next,
    }
}

// A refused round gives no wait.
fn no_round(outcome: u32, state: State) -> RoundAnswer
    ensures { result ≡ record { answer = record { outcome = outcome; len = 0; state = state }; backoff = record { 0 = 0 }; rest = record { 0 = 0 } } }
{
    let answer = reply::silent(outcome, state);
    RoundAnswer {
        answer,
        backoff: Length(0),
        rest: Length(0),
    }
}

// A round of registration went out.
fn begin_round(state: State, len: usize, random: u32) -> RoundAnswer
    ensures { result ≡ record { answer = record { outcome = 0; len = len; state = with_registration state (round_taken state.device state.registration) }; backoff = backoff_in state random; rest = rest_in state random } }
{
    let device = state.device;
    let old = state.registration;
    let interval = state.registration.interval;
    let backoff = registration::backoff(interval, random);
    let rest = registration::rest_of(interval, backoff);
    let registration = registration::take_round(device, old);
    let answer = sent(state, registration, len);
    RoundAnswer {
        answer,
        backoff,
        rest,
    }
}

// A round of registration: the CON POST to /r, and how long to wait around it, from a random number of the host's.
pub fn round(state: State, out: &mut [u8], store: &[u8], time: Point, random: u32) -> RoundAnswer
    ensures { Rounded state random (round_of state (length out.old) store.now time) out.old result out.new }
{
    if let Err(refusal) = refusal::own_refusal(out.len(), store, !state.registration.accepted, 8) {
        return no_round(refusal.number(), state);
    }
    let len = outgoing::put_registration(state, store, time, out);
    if len == 0 {
        return no_round(10, state);
    }
    begin_round(state, len, random)
}

fn is_positive(interval: Option<Length>) -> bool
    ensures { result ≡ is_positive interval }
{
    let Some(length) = interval else {
        return false;
    };
    length.0 != 0
}

// Whether there is something to report: a session, an acceptance, and an interval.
fn is_due(state: State) -> bool
    ensures { result ≡ reports state Primary }
{
    let assigned = state.assigned;
    if !assigned.in_session {
        return false;
    }
    if !state.registration.accepted {
        return false;
    }
    let interval = assigned.interval;
    is_positive(interval)
}

// Whether that report may be sent: the heartbeat is retired.
fn is_reporting(state: State, which: Report) -> bool
    ensures { result ≡ reports state which }
{
    match which {
        Report::Primary => is_due(state),
        Report::Heartbeat => false,
    }
}

// A report: the NON POST to /c.
pub fn report(state: State, out: &mut [u8], store: &[u8], time: Point, which: Report) -> Answer
    ensures { SentAs (report_of state (length out.old) store.now time which) out.old result out.new }
{
    if let Err(refusal) = refusal::own_refusal(out.len(), store, is_reporting(state, which), 9) {
        return reply::silent(refusal.number(), state);
    }
    let len = outgoing::put_report(state, store, time, out);
    if len == 0 {
        return reply::silent(10, state);
    }
    let old = state.registration;
    sent(state, registration::take_id(old), len)
}
