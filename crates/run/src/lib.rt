// A posted payload: it is judged (steps e to i), and its records then run in their order (step j). Blocks at its front need little of the
// state, so they run first and by themselves; the records from the first on that does more, if there is one, run on all that a record may change.
#![tactic(auto)]

mod front;

ghost use Rattle.std.specs.Prelude.{◌+◌, ◌*◌, ◌≤◌, ◌≡◌, length};
ghost use Rattle.tlv.specs.Record.{records};
ghost use Rattle.step.specs.Step.{world_of};
ghost use Rattle.run.specs.Run.{records_at, world_with, RanBy, any_answered};
ghost use Rattle.run.specs.Post.{BegunBy};

use answer::Ran;
pub use front::Begun;
use schedule::Point;
use state::{Device, Groups, Images, Registration};

// Steps e to i, and of step j the blocks at the payload's front: the code of the reply, where the records stand that are still to run, the
// images, and whether a varint is padded. On an error nothing changes.
pub fn begin(
    images: Images,
    groups: Groups,
    signed_posts: bool,
    refuse_padding: bool,
    flash: &mut [u8],
    payload: &[u8],
    time: Point,
    verdict: u8,
) -> Begun
    ensures { BegunBy images groups signed_posts refuse_padding flash.old payload.now time verdict result flash.new }
{
    let looked = post::look(payload, groups, time);
    let seen = looked.seen;
    match post::judge(seen, looked.padded, verdict, signed_posts, refuse_padding) {
        Err(code) => Begun {
            code,
            at: payload.len(),
            images,
            padded: false,
        },
        Ok(()) => front::take_front(images, flash, payload, looked),
    }
}

// Whether a record of the payload is answered: 65, 68, 69 or 70.
pub fn is_answered(payload: &[u8]) -> bool
    ensures { result ≡ any_answered (records payload.now) }
{
    let mut at = 0;
    while at < payload.len() {
        let Some(r) = tlv::take_record(payload, at) else {
            return false;
        };
        if step::is_request(r.kind) {
            return true;
        }
        at = r.end;
    }
    false
}

// Runs the records from `from` on one by one, and appends their responses.
fn run(
    device: Device,
    first: Ran,
    flash: &mut [u8],
    payload: &[u8],
    from: usize,
    out: &mut [u8],
) -> Ran
    ensures { first.end + 48 * length (records_at payload.now from) ≤ length out.old → RanBy device (world_of first flash.old) (records_at payload.now from) out.old first.end result flash.new out.new }
{
    let mut ran = first;
    let mut at = from;
    while at < payload.len() {
        let Some(r) = tlv::take_record(payload, at) else {
            return ran;
        };
        let start = r.start;
        let end = r.end;
        ran = step::run_record(device, ran, flash, r.kind, &payload[start..end], out);
        at = end;
    }
    ran
}

// The records from `from` on, at most 24: their responses stand at the front of the output.
pub fn rest(
    device: Device,
    images: Images,
    registration: Registration,
    flash: &mut [u8],
    payload: &[u8],
    from: usize,
    out: &mut [u8; 1273],
) -> Ran
    ensures { length (records_at payload.now from) ≤ 24 → RanBy device (world_with images registration flash.old) (records_at payload.now from) out.old 0 result flash.new out.new }
{
    let first = Ran {
        images,
        registration,
        end: 0,
    };
    run(device, first, flash, payload, from, out)
}
