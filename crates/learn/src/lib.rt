// What an acknowledgement of a registration says: one walk over its records.
#![tactic(auto)]

ghost use Rattle.std.specs.Prelude.{◌≡◌};
ghost use Rattle.learn.specs.Learn.{learnt_from, padded_in};

use note::Learnt;
use schedule::Point;
use state::{Assigned, Device, Registration};

// What a walk over an acknowledgement's payload has learnt, and whether a varint that it read is padded.
#[derive(Clone, Copy)]
pub struct Learned {
    pub learnt: Learnt,
    pub padded: bool,
}

// What there is to learn from an acknowledgement's payload.
pub fn learn(
    device: Device,
    registration: Registration,
    assigned: Assigned,
    payload: &[u8],
    time: Point,
) -> Learned
    ensures { (result.learnt ≡ learnt_from device registration assigned time payload.now) × (result.padded ≡ padded_in payload.now) }
{
    let mut learnt = note::nothing(registration, assigned);
    let mut padded = false;
    let mut at = 0;
    while at < payload.len() {
        let Some(r) = tlv::take_record(payload, at) else {
            let learnt = note::mark(learnt, false);
            return Learned { learnt, padded };
        };
        let start = r.start;
        let end = r.end;
        let v = &payload[start..end];
        let reading = note::read(r.kind, v);
        padded = buffer::either(padded, buffer::either(r.padded, reading.padded));
        learnt = note::note(device, learnt, r.kind, v, reading.readable, time);
        at = end;
    }
    Learned { learnt, padded }
}
