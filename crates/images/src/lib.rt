// FirmwareImageInfo, one record for each image that is held.
#![tactic(auto)]

ghost use Rattle.std.specs.Prelude.{◌≡◌};
ghost use Rattle.buffer.specs.Put.{Appended};
ghost use Rattle.images.specs.Images.{load_time_of, map_length, open_shown, backup_shown, images_shown};

use csmp::Image;
use schedule::Point;
use state::{Images, Pending};

// The load time of a hash, if it is pending.
fn load_time(pending: Pending, hash: [u8; 32]) -> Option<Point>
    ensures { result ≡ load_time_of pending hash }
{
    if !pending.is {
        return None;
    }
    let ours = pending.hash;
    if !buffer::same(&ours, &hash) {
        return None;
    }
    let time = pending.time;
    Some(time)
}

// How many bytes of the bitmap the blocks take.
fn map_len(image: Image) -> usize
    ensures { result ≡ map_length image }
{
    ((transfer::block_count(image.size, image.block_size) + 7) / 8) as usize
}

// FirmwareImageInfo of the open image.
fn put_open(images: Images, out: &mut [u8], at: usize) -> usize
    ensures { Appended out.old at (open_shown images) out.new result }
{
    if !images.open {
        return buffer::put(out, at, b"");
    }
    let image = images.image;
    let pending = images.pending;
    let hash = images.image.hash;
    let time = load_time(pending, hash);
    encode_image::put_open(out, at, image, map_len(image), time)
}

// FirmwareImageInfo of the backup.
fn put_backup(images: Images, out: &mut [u8], at: usize) -> usize
    ensures { Appended out.old at (backup_shown images) out.new result }
{
    if !images.backup.given {
        return buffer::put(out, at, b"");
    }
    let pending = images.pending;
    let hash = images.backup.bytes;
    let time = load_time(pending, hash);
    encode_image::put_backup(out, at, hash, time)
}

// FirmwareImageInfo in its rows: running, open, backup.
pub fn put_images(images: Images, out: &mut [u8], at: usize) -> usize
    ensures { Appended out.old at (images_shown images) out.new result }
{
    let running = images.running;
    let a = encode_image::put_running(out, at, running);
    let b = put_open(images, out, a);
    put_backup(images, out, b)
}
