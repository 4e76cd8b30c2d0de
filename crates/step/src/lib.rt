// Step j: what one record does, and the response that it gets.
#![tactic(auto)]

ghost use Rattle.std.specs.Prelude.{◌≡◌};
ghost use Rattle.registration.specs.Redirect.{redirected};
ghost use Rattle.step.specs.Step.{world_of, block_taken, needs_more, is_request, Passed, Stepped};

use answer::Ran;
use state::Device;

// A record that is answered: 65, 68, 69, 70.
pub fn is_request(kind: u64) -> bool
    ensures { result ≡ is_request kind }
{
    match kind {
        65 | 68 | 70 => true,
        69 => true,
        _ => false,
    }
}

// A record that does more than to put a block: one that is answered, or a redirect.
pub fn needs_more(kind: u64) -> bool
    ensures { result ≡ needs_more kind }
{
    if kind == 6 {
        return true;
    }
    is_request(kind)
}

// A block goes to the open image, if there is one.
fn run_block(ran: Ran, flash: &mut [u8], v: &[u8]) -> Ran
    ensures { (world_of result flash.new ≡ block_taken (world_of ran flash.old) v.now) × (result.«end» ≡ ran.«end») }
{
    if !ran.images.open {
        return ran;
    }
    let mut image = ran.images.image;
    let hash = image.hash;
    let mut map = image.bitmap;
    let block = decode_image::read_block(v);
    let held = transfer::take_block(
        &hash,
        image.size,
        image.block_size,
        &mut map,
        image.held,
        flash,
        v,
        block,
    );
    image.bitmap = map;
    image.held = held;
    let mut images = ran.images;
    images.image = image;
    let mut next = ran;
    next.images = images;
    next
}

fn run_redirect(device: Device, ran: Ran, v: &[u8]) -> Ran
    ensures { result ≡ record { images = ran.images; registration = redirected device ran.registration v.now; «end» = ran.«end» } }
{
    let registration = ran.registration;
    let started = registration::redirect(device, registration, v);
    let mut next = ran;
    next.registration = started;
    next
}

// No response: nothing is appended, and a position past the end stays there.
fn pass(ran: Ran, out: &mut [u8]) -> Ran
    ensures { Passed ran out.old result out.new }
{
    let images = ran.images;
    let registration = ran.registration;
    let end = buffer::put(out, ran.end, b"");
    Ran {
        images,
        registration,
        end,
    }
}

// One record: others than these do nothing here.
pub fn run_record(
    device: Device,
    ran: Ran,
    flash: &mut [u8],
    kind: u64,
    v: &[u8],
    out: &mut [u8],
) -> Ran
    ensures { Stepped device (world_of ran flash.old) kind v.now out.old ran.«end» result flash.new out.new }
{
    match kind {
        6 => pass(run_redirect(device, ran, v), out),
        65 => answer::run_transfer(device, ran, v, out),
        67 => pass(run_block(ran, flash, v), out),
        68 => answer::run_load(ran, v, out),
        69 => answer::run_cancel(ran, v, out),
        70 => answer::run_backup(ran, v, out),
        _ => pass(ran, out),
    }
}
