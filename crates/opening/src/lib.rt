// TransferRequest, record 65: the first answer that applies.
#![tactic(auto)]

ghost use Rattle.std.specs.Prelude.{◌≡◌};
ghost use Rattle.firmware.specs.Answer.{answer_of, settled};
ghost use Rattle.opening.specs.Open.{sized_texts, is_whole, is_ours, fault_of, opened_by, replaced, opens, transfer_taken};

use csmp::Image;
use decode_image::Transfer;
use firmware::Fault;
use state::{Device, Images};

// Whether every text is within its size.
#[tactic(auto, unfolding(crate::specs::Open::sized_texts))]
fn sized_texts(t: Transfer) -> bool
    ensures { result ≡ sized_texts t }
{
    csmp::at_most(t.hw_id, 32)
        && csmp::at_most(t.vendor_hw_id, 32)
        && csmp::at_most(t.name, 128)
        && csmp::at_most(t.version, 32)
}

// Whether what must be there is there: a hash of 32 bytes, a block size, a size that is not 0.
#[tactic(auto, unfolding(crate::specs::Open::is_whole, crate::specs::Open::is_given, crate::specs::Open::number_or0))]
fn is_whole(t: Transfer) -> bool
    ensures { result ≡ is_whole t }
{
    firmware::is_hash(t.hash)
        && t.block_size.is_some()
        && t.size.unwrap_or(0) != 0
        && sized_texts(t)
}

// Whether the request is for this device's hardware.
#[tactic(auto, unfolding(crate::specs::Open::is_ours))]
fn is_ours(device: Device, v: &[u8], t: Transfer) -> bool
    ensures { result ≡ is_ours device v.now t }
{
    let ours = buffer::front(&device.hw_id.bytes, device.hw_id.len);
    let vendors = buffer::front(&device.vendor_hw_id.bytes, device.vendor_hw_id.len);
    csmp::field_is(ours, v, t.hw_id, false) && csmp::field_is(vendors, v, t.vendor_hw_id, true)
}

// The faults of a request that is whole, in the order in which they answer.
#[tactic(auto, unfolding(crate::specs::Open::fault_of, firmware::specs::Answer::answer_of))]
fn fault(
    device: Device,
    images: Images,
    v: &[u8],
    t: Transfer,
    size: u32,
    block_size: u32,
) -> Result<(), Fault>
    ensures { answer_of result ≡ fault_of device images v.now t size block_size }
{
    if block_size == 0 || 1024 < block_size {
        return Err(Fault::InvalidBlockSize);
    }
    if !is_ours(device, v, t) {
        return Err(Fault::IncompatibleHw);
    }
    if images.pending.is {
        return Err(Fault::PendingReboot);
    }
    if device.image_len < size || 1024 < transfer::block_count(size, block_size) {
        return Err(Fault::FileSizeTooBig);
    }
    Ok(())
}

// The image that a request opens: an empty bitmap, no block held.
#[tactic(auto, unfolding(crate::specs::Open::opened_by))]
fn opened(v: &[u8], t: Transfer, size: u32, block_size: u32) -> Image
    ensures { result ≡ opened_by v.now t size block_size }
{
    Image {
        hash: firmware::hash_at(v, t.hash),
        name: firmware::name_at(v, t.name),
        version: firmware::version_at(v, t.version),
        size,
        block_size,
        bitmap: [0; 128],
        held: 0,
    }
}

// The same hash open: nothing changes, and the sizes must agree. Otherwise the image is opened.
#[tactic(auto, unfolding(crate::specs::Open::opens, crate::specs::Open::replaced, firmware::specs::Answer::settled, firmware::specs::Answer::answer_of))]
fn open_or_keep(images: Images, image: Image) -> Result<Images, Fault>
    ensures { settled images result ≡ opens images image }
{
    if !firmware::is_open(images, image.hash) {
        let mut next = images;
        next.open = true;
        next.image = image;
        return Ok(next);
    }
    if images.image.size != image.size || images.image.block_size != image.block_size {
        return Err(Fault::InvalidReq);
    }
    Ok(images)
}

// What a TransferRequest does, by what was read of it.
#[tactic(auto, unfolding(crate::specs::Open::transfer_taken, crate::specs::Open::open_if, crate::specs::Open::number_or0, firmware::specs::Answer::settled, firmware::specs::Answer::answer_of))]
pub fn answer_transfer(
    device: Device,
    images: Images,
    v: &[u8],
    t: Transfer,
) -> Result<Images, Fault>
    ensures { settled images result ≡ transfer_taken device images v.now t }
{
    if !is_whole(t) {
        return Err(Fault::InvalidReq);
    }
    let size = t.size.unwrap_or(0);
    let block_size = t.block_size.unwrap_or(0);
    fault(device, images, v, t, size, block_size)?;
    open_or_keep(images, opened(v, t, size, block_size))
}
