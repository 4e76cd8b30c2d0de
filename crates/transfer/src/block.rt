// Taking a block: one that fits and is not held yet is written into its stretch of the image buffer only.
ghost use Rattle.std.specs.Prelude.{◌≡◌};
ghost use Rattle.std.proofs.lemmas.List.Edits.{sets};
ghost use Rattle.csmp.specs.declared.Image.{Image};
ghost use Rattle.transfer.specs.Bitmap.{with_held};
ghost use Rattle.transfer.specs.Block.{fits_in, put_block, take_of, Parts, Left};

use crate::bitmap;
use decode_image::Block;
use protobuf::Span;

// The block copier: writes a block at the front of the part of the buffer that begins where the block starts.
fn copy_block(flash: &mut [u8], start: usize, bytes: &[u8])
    ensures { flash.new ≡ sets flash.old start bytes.now }
{
    if start <= flash.len() {
        buffer::copy(&mut flash[start..], bytes);
    }
}

// Whether a block of that number and length fits: the number is in range and the length is the block's.
fn fits_at(size: u32, block_size: u32, n: u32, len: usize) -> bool
    ensures { result ≡ fits_in size block_size n len }
{
    if crate::block_count(size, block_size) <= n as u64 {
        return false;
    }
    len as u64 == crate::block_len(size, block_size, n)
}

// Puts block n into its stretch, unless it does not fit or is held; the number of blocks held then.
fn put_block(
    size: u32,
    block_size: u32,
    map: &mut [u8; 128],
    held: u32,
    flash: &mut [u8],
    n: u32,
    bytes: &[u8],
) -> u32
    ensures { (i : Image) → Parts i size block_size map.old held → Left (put_block i flash.old n bytes.now) (with_held i map.new result) flash.new }
{
    if !fits_at(size, block_size, n, bytes.len()) {
        return held;
    }
    if bitmap::is_held(map, n as u64) {
        return held;
    }
    let start = n as u64 * block_size as u64;
    copy_block(flash, start as usize, bytes);
    bitmap::hold(map, n as u64);
    std::num::wrapping_add_u32(held, 1)
}

// Takes the block that an ImageBlock offers, if its hash is the open one; the number of blocks held then. Of the open image it needs these
// parts alone, so that no image is copied.
pub fn take_block(
    hash: &[u8; 32],
    size: u32,
    block_size: u32,
    map: &mut [u8; 128],
    held: u32,
    flash: &mut [u8],
    v: &[u8],
    block: Block,
) -> u32
    ensures { (i : Image) → i.hash ≡ hash.now → Parts i size block_size map.old held → Left (take_of i flash.old v.now block) (with_held i map.new result) flash.new }
{
    let given = block.hash;
    if !csmp::field_is(hash, v, given, false) {
        return held;
    }
    let number = block.number;
    let Some(n) = number else {
        return held;
    };
    let place = block.data;
    let Some(Span { start, end }) = place else {
        return held;
    };
    put_block(
        size,
        block_size,
        map,
        held,
        flash,
        n,
        buffer::part(v, start, end),
    )
}
