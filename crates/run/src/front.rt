// Step j on the blocks at a payload's front: of the images they need only the open one's hash, sizes and bitmap, and they leave a bitmap.
ghost use Rattle.std.specs.Prelude.{◌≡◌, ◌-◌, ◌≤◌, length, take, drop};
ghost use Rattle.decode_image.specs.Read.{block_of};
ghost use Rattle.state.specs.declared.Images.{Images};
ghost use Rattle.transfer.specs.Block.{Parts};
ghost use Rattle.run.specs.Front.{FrontBy, with_blocks};

use decode_image::Block;
use post::Looked;
use state::Images;

// What a post began with: the code of its reply, where the records stand that are still to run, the images, and whether the records may run
// and a varint that was read is padded.
#[derive(Clone, Copy)]
pub struct Begun {
    pub code: u8,
    pub at: usize,
    pub images: Images,
    pub padded: bool,
}

// The number of blocks held, and where the first record stands that is still to run.
#[derive(Clone, Copy)]
pub struct Reached {
    pub held: u32,
    pub at: usize,
}

// What an ImageBlock says: it is read again only where it is not the one that was read last.
fn block_at(looked: Looked, payload: &[u8], start: usize, end: usize) -> Block
    requires { (start ≤ «end») × («end» ≤ length payload.now) × (looked.block ≡ block_of (take (looked.end - looked.start) (drop looked.start payload.now))) }
    ensures { result ≡ block_of (take («end» - start) (drop start payload.now)) }
{
    if looked.start == start {
        if looked.end == end {
            return looked.block;
        }
    }
    decode_image::read_block(&payload[start..end])
}

// Takes the blocks up to the first record that needs more.
fn take_blocks(
    open: bool,
    hash: &[u8; 32],
    size: u32,
    block_size: u32,
    map: &mut [u8; 128],
    first: u32,
    flash: &mut [u8],
    payload: &[u8],
    looked: Looked,
) -> Reached
    requires { looked.block ≡ block_of (take (looked.end - looked.start) (drop looked.start payload.now)) }
    ensures { (i : Images) → i.«open» ≡ «open» → i.image.hash ≡ hash.now → Parts i.image size block_size map.old first → FrontBy i flash.old payload.now (with_blocks i map.new result.held) result.at flash.new }
{
    let mut held = first;
    let mut at = 0;
    while at < payload.len() {
        let Some(r) = tlv::take_record(payload, at) else {
            return Reached {
                held,
                at: payload.len(),
            };
        };
        if step::needs_more(r.kind) {
            return Reached { held, at };
        }
        let start = r.start;
        let end = r.end;
        if buffer::both(open, r.kind == 67) {
            let block = block_at(looked, payload, start, end);
            let v = &payload[start..end];
            held = transfer::take_block(hash, size, block_size, map, held, flash, v, block);
        }
        at = end;
    }
    Reached { held, at }
}

// The blocks at the front of a payload that was judged and may run.
pub fn take_front(images: Images, flash: &mut [u8], payload: &[u8], looked: Looked) -> Begun
    requires { looked.block ≡ block_of (take (looked.end - looked.start) (drop looked.start payload.now)) }
    ensures { (result.code ≡ 65) × (result.padded ≡ looked.padded) × FrontBy images flash.old payload.now result.images result.at flash.new }
{
    let mut image = images.image;
    let hash = image.hash;
    let mut map = image.bitmap;
    let reached = take_blocks(
        images.open,
        &hash,
        image.size,
        image.block_size,
        &mut map,
        image.held,
        flash,
        payload,
        looked,
    );
    image.bitmap = map;
    image.held = reached.held;
    let mut next = images;
    next.image = image;
    Begun {
        code: coap::CREATED,
        at: reached.at,
        images: next,
        padded: looked.padded,
    }
}
