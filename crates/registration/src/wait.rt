// Waiting: before the first round, and around each round.
ghost use Rattle.std.specs.Prelude.{◌≡◌};
ghost use Rattle.registration.specs.Backoff.{first_wait, half_up, backoff_of, rest_of, doubled, advanced_of};

use schedule::Length;
use state::{Device, Registration};

// The wait before the first round: at most the smallest interval, none where a redirect marked immediate started registration.
pub fn first_wait(device: Device, registration: Registration, random: u32) -> Length
    ensures { result ≡ first_wait device registration random }
{
    if registration.immediate {
        return Length(0);
    }
    let most = device.interval_min.0 as u64 + 1;
    Length((random as u64 % most) as u32)
}

// Half an interval, rounded up.
fn half_up(n: u32) -> u32
    ensures { result ≡ half_up n }
{
    n / 2 + n % 2
}

// The wait before a round: in the second half of the interval.
pub fn backoff(interval: Length, random: u32) -> Length
    ensures { result ≡ backoff_of interval random }
{
    let half = half_up(interval.0);
    let rest = (interval.0 - half) as u64 + 1;
    Length(half + (random as u64 % rest) as u32)
}

// The rest of the interval, behind a round.
pub fn rest_of(interval: Length, wait: Length) -> Length
    ensures { result ≡ rest_of interval wait }
{
    if interval.0 < wait.0 {
        return Length(0);
    }
    Length(interval.0 - wait.0)
}

// The interval after a round: doubled, up to the largest.
fn double(interval: Length, largest: Length) -> Length
    ensures { result ≡ doubled interval largest }
{
    let twice = interval.0 as u64 * 2;
    if twice < largest.0 as u64 {
        return Length(twice as u32);
    }
    largest
}

// The interval of the next round, and the largest one.
#[derive(Clone, Copy)]
pub struct Schedule {
    pub interval: Length,
    pub largest: Length,
}

// The schedule behind a round, by value: the interval doubles and stops at the largest.
fn advanced(s: Schedule) -> Schedule
    ensures { result ≡ advanced_of s }
{
    let interval = s.interval;
    let largest = s.largest;
    let next = double(interval, largest);
    Schedule {
        interval: next,
        largest,
    }
}

// The same, in place.
fn advance(s: &mut Schedule)
    ensures { s.new ≡ advanced_of s.old }
{
    *s = advanced(*s);
}

// The interval behind one: what a round calls.
pub fn next_interval(interval: Length, largest: Length) -> Length
    ensures { result ≡ doubled interval largest }
{
    let mut s = Schedule { interval, largest };
    advance(&mut s);
    s.interval
}
