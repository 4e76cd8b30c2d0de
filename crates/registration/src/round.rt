// What an own datagram changes: the message id, and, for a round, what is awaited and the interval.
ghost use Rattle.std.specs.Prelude.{◌≡◌};
ghost use Rattle.registration.specs.Round.{next_id, id_taken, round_taken};

use crate::wait;
use state::{Device, Registration};

// The message id after one: it wraps.
fn next_id(id: u16) -> u16
    ensures { result ≡ next_id id }
{
    if id == 65535 {
        return 0;
    }
    id + 1
}

// An own datagram took the message id.
pub fn take_id(registration: Registration) -> Registration
    ensures { result ≡ id_taken registration }
{
    let mut next = registration;
    next.message_id = next_id(registration.message_id);
    next
}

// A round was sent: its acknowledgement is awaited, and the next one has the next interval.
pub fn take_round(device: Device, registration: Registration) -> Registration
    ensures { result ≡ round_taken device registration }
{
    let largest = device.interval_max;
    let interval = wait::next_interval(registration.interval, largest);
    let mut next = take_id(registration);
    next.awaited = true;
    next.round = registration.message_id;
    next.interval = interval;
    next
}
