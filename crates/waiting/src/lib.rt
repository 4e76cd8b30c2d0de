// The answers that wait, document 02, Q-1: up to four, in the order in which they came. What is long of them stands in a buffer that the host lends, four
// slots of 1,184 bytes: a URL of up to 128, and behind it the text of up to 32 ids, which has at most 351 bytes, or up to 24 responses, at most 1,056.
#![tactic(auto)]

ghost use Rattle.std.specs.Prelude.{◌≡◌};
ghost use Rattle.waiting.specs.Waiting.{wait_of, is_full, url_at, held_at, url_in, held_in, kept, kept_bytes, over_at, earliest, without, due_of};

use schedule::{Length, Point};
use state::{Delayed, Waiting, What};

// An answer that is due, and those that wait on.
#[derive(Clone, Copy)]
pub struct Due {
    pub answer: Delayed,
    pub left: Waiting,
}

// The wait of a request that asks for a delay of up to `most` seconds, from a random number of the host's.
pub fn wait_of(most: u32, random: u32) -> Length
    ensures { result ≡ wait_of most random }
{
    Length((random as u64 % (most as u64 + 1)) as u32)
}

// Whether no place is free.
pub fn is_full(waiting: Waiting) -> bool
    ensures { result ≡ is_full waiting }
{
    4 <= waiting.count
}

// Where a slot begins; a slot that there is not begins at the end.
fn slot_at(slot: usize) -> usize
    ensures { result ≡ url_at slot }
{
    if 4 <= slot {
        return 4736;
    }
    slot * 1184
}

// Where the bytes of a slot begin that stand behind its URL.
fn held_at(slot: usize) -> usize
    ensures { result ≡ held_at slot }
{
    slot_at(slot) + 128
}

// One answer more, behind the others, if a place is free: the bytes that it holds go to the slot of this place.
pub fn keep(
    waiting: Waiting,
    answers: &mut [u8; 4736],
    from: Point,
    wait: Length,
    what: What,
    url: &[u8],
    held: &[u8],
) -> Waiting
    ensures { (result ≡ kept waiting from wait what url.now held.now) × (answers.new ≡ kept_bytes waiting answers.old url.now held.now) }
{
    let n = waiting.count;
    if 4 <= n {
        return waiting;
    }
    let mut list = waiting.list;
    let free = list[n];
    let slot = free.slot;
    buffer::put(answers, slot_at(slot), url);
    buffer::put(answers, held_at(slot), held);
    list[n] = Delayed {
        from,
        wait,
        what,
        url: url.len(),
        held: held.len(),
        slot,
    };
    Waiting { list, count: n + 1 }
}

// The URL of an answer; empty where it has none.
pub fn url_of(answer: Delayed, answers: &[u8; 4736]) -> &[u8]
    ensures { result.now ≡ url_in answer answers.now }
{
    buffer::front(buffer::rest(answers, slot_at(answer.slot)), answer.url)
}

// The text of ids or the responses of an answer.
pub fn held_of(answer: Delayed, answers: &[u8; 4736]) -> &[u8]
    ensures { result.now ≡ held_in answer answers.now }
{
    buffer::front(buffer::rest(answers, held_at(answer.slot)), answer.held)
}

// When an answer's wait is over: that may be beyond the last second of a point.
fn over_at(answer: Delayed) -> u64
    ensures { result ≡ over_at answer }
{
    answer.from.0 as u64 + answer.wait.0 as u64
}

// Where the answer stands whose wait is over first, the first of those over at once.
fn find_earliest(list: [Delayed; 4], count: usize) -> usize
    ensures { result ≡ earliest list count }
{
    let mut best = 0;
    let mut over = over_at(list[0]);
    for i in 1..4 {
        let at = over_at(list[i]);
        if buffer::both(i < count, at < over) {
            best = i;
            over = at;
        }
    }
    best
}

// The list with the answer of a place behind the others, which move up: its slot is free.
fn take_out(list: [Delayed; 4], place: usize) -> [Delayed; 4]
    ensures { result ≡ without list place }
{
    let a = list[0];
    let b = list[1];
    let c = list[2];
    let d = list[3];
    match place {
        0 => [b, c, d, a],
        1 => [a, c, d, b],
        2 => [a, b, d, c],
        _ => [a, b, c, d],
    }
}

// Takes out the answer whose wait is over first, if it is over by now.
pub fn take_due(waiting: Waiting, time: Point) -> Option<Due>
    ensures { result ≡ due_of waiting time }
{
    let list = waiting.list;
    let count = waiting.count;
    if count == 0 {
        return None;
    }
    let place = find_earliest(list, count);
    let answer = list[place];
    if (time.0 as u64) < over_at(answer) {
        return None;
    }
    let left = Waiting {
        list: take_out(list, place),
        count: count - 1,
    };
    Some(Due { answer, left })
}
