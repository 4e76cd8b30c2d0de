// The requests of step j, records 65 and 68 to 70: what each does to the images, and the response that it gets.
#![tactic(auto)]

ghost use Rattle.std.specs.Prelude.{◌≡◌, None};
ghost use Rattle.loading.specs.Load.{load_answered, cancel_answered, backup_answered};
ghost use Rattle.opening.specs.Open.{transfer_answered};
ghost use Rattle.firmware.specs.Answer.{answer_of, settled};
ghost use Rattle.firmware.specs.Place.{echoed};
ghost use Rattle.decode_image.specs.Read.{transfer_of, load_of, hash_of};
ghost use Rattle.answer.specs.Answer.{load_time, Responded};

use csmp::Hash;
use decode_image::Load;
use firmware::Fault;
use schedule::Point;
use state::{Device, Images, Registration};

// What running records changes beside the image buffer, and where their responses end.
#[derive(Clone, Copy)]
pub struct Ran {
    pub images: Images,
    pub registration: Registration,
    pub end: usize,
}

// The images that a request leaves, and its response appended.
fn respond(
    ran: Ran,
    done: Result<Images, Fault>,
    out: &mut [u8],
    kind: u64,
    hash: Hash,
    time: Option<Point>,
) -> Ran
    ensures { Responded ran (settled ran.images done) kind hash time out.old result out.new }
{
    let answered = firmware::settle(ran.images, done);
    let end = encode_image::put_response(out, ran.end, kind, hash, answered.answer, time);
    Ran {
        images: answered.images,
        registration: ran.registration,
        end,
    }
}

#[tactic(auto, unfolding(opening::specs::Open::transfer_answered))]
pub fn run_transfer(device: Device, ran: Ran, v: &[u8], out: &mut [u8]) -> Ran
    ensures { Responded ran (transfer_answered device ran.images v.now) 71 (echoed v.now (transfer_of v.now).hash) None out.old result out.new }
{
    let t = decode_image::read_transfer(v);
    let done = opening::answer_transfer(device, ran.images, v, t);
    respond(ran, done, out, 71, firmware::echo(v, t.hash), None)
}

// Only 72 has a time: that of a load that was accepted.
#[tactic(auto, unfolding(crate::specs::Answer::load_time, firmware::specs::Answer::answer_of))]
fn load_time(done: Result<Images, Fault>, load: Load) -> Option<Point>
    ensures { result ≡ load_time (answer_of done) load }
{
    match done {
        Ok(_) => load.time,
        Err(_) => None,
    }
}

#[tactic(auto, unfolding(loading::specs::Load::load_answered, firmware::specs::Answer::settled))]
pub fn run_load(ran: Ran, v: &[u8], out: &mut [u8]) -> Ran
    ensures { Responded ran (load_answered ran.images v.now) 72 (echoed v.now (load_of v.now).hash) (load_time (load_answered ran.images v.now).answer (load_of v.now)) out.old result out.new }
{
    let l = decode_image::read_load(v);
    let done = loading::answer_load(ran.images, v, l);
    let time = load_time(done, l);
    respond(ran, done, out, 72, firmware::echo(v, l.hash), time)
}

#[tactic(auto, unfolding(loading::specs::Load::cancel_answered))]
pub fn run_cancel(ran: Ran, v: &[u8], out: &mut [u8]) -> Ran
    ensures { Responded ran (cancel_answered ran.images v.now) 73 (echoed v.now (hash_of v.now).hash) None out.old result out.new }
{
    let h = decode_image::read_hash(v);
    let done = loading::answer_cancel(ran.images, v, h);
    respond(ran, done, out, 73, firmware::echo(v, h.hash), None)
}

#[tactic(auto, unfolding(loading::specs::Load::backup_answered))]
pub fn run_backup(ran: Ran, v: &[u8], out: &mut [u8]) -> Ran
    ensures { Responded ran (backup_answered ran.images v.now) 74 (echoed v.now (hash_of v.now).hash) None out.old result out.new }
{
    let h = decode_image::read_hash(v);
    let done = loading::answer_backup(ran.images, v, h);
    respond(ran, done, out, 74, firmware::echo(v, h.hash), None)
}
