// The acknowledgement of a registration: when it is taken, and what it then assigns, or where it redirects to.
#![tactic(auto)]

ghost use Rattle.std.specs.Prelude.{◌≡◌};
ghost use Rattle.ack.specs.Take.{is_awaited, is_takable, accepted_by, taken_by, acknowledged, taken_padded};

use note::Learnt;
use schedule::Point;
use state::{Registration, State};

// It answers the latest round, and registration is not accepted yet.
fn is_awaited(registration: Registration, id: u16) -> bool
    ensures { result ≡ is_awaited registration id }
{
    if registration.accepted {
        return false;
    }
    if !registration.awaited {
        return false;
    }
    registration.round == id
}

// Readable, signed as the setting for responses asks, valid now, and with a redirect to do or a place for its groups.
fn is_takable(learnt: Learnt, verdict: u8, required: bool) -> bool
    ensures { result ≡ is_takable learnt verdict required }
{
    if !learnt.readable {
        return false;
    }
    if post::badly_signed(learnt.signed, verdict, required) {
        return false;
    }
    if learnt.expired {
        return false;
    }
    buffer::either(learnt.redirected, !learnt.needs_ninth)
}

// Accepted: what was assigned is stored.
fn accept(state: State, learnt: Learnt) -> State
    ensures { result ≡ accepted_by state learnt }
{
    let assigned = learnt.assigned;
    let mut registration = state.registration;
    registration.accepted = true;
    let mut next = state;
    next.assigned = assigned;
    next.registration = registration;
    next
}

// With a redirect only that is done.
fn take(state: State, learnt: Learnt) -> State
    ensures { result ≡ taken_by state learnt }
{
    if !learnt.redirected {
        return accept(state, learnt);
    }
    let registration = learnt.registration;
    let mut next = state;
    next.registration = registration;
    next
}

// What an acknowledgement leaves: the state, and whether it was taken and has a padded varint.
#[derive(Clone, Copy)]
pub struct Acknowledged {
    pub state: State,
    pub padded: bool,
}

// An ACK 2.03 with a message id: taken, or nothing changes. Where padding is refused, a padded one is unreadable.
pub fn acknowledge(state: State, id: u16, payload: &[u8], time: Point, verdict: u8) -> Acknowledged
    ensures { (result.state ≡ acknowledged state id payload.now time verdict) × (result.padded ≡ taken_padded state id payload.now time verdict) }
{
    let device = state.device;
    let registration = state.registration;
    let assigned = state.assigned;
    if !is_awaited(registration, id) {
        return Acknowledged {
            state,
            padded: false,
        };
    }
    let learned = learn::learn(device, registration, assigned, payload, time);
    if buffer::both(device.refuse_padding, learned.padded) {
        return Acknowledged {
            state,
            padded: false,
        };
    }
    let learnt = learned.learnt;
    if !is_takable(learnt, verdict, device.signed_responses) {
        return Acknowledged {
            state,
            padded: false,
        };
    }
    let next = take(state, learnt);
    Acknowledged {
        state: next,
        padded: learned.padded,
    }
}
