// LoadRequest, CancelLoadRequest and SetBackupRequest, records 68 to 70: the first answer that applies; and a boot.
#![tactic(auto)]

ghost use Rattle.std.specs.Prelude.{◌≡◌};
ghost use Rattle.firmware.specs.Answer.{answer_of, settled};
ghost use Rattle.loading.specs.Load.{is_backup, is_pending, open_fault, source_fault, pending_fault, loads, load_taken, cancels, cancel_taken, backs, backup_taken, booted};

use csmp::Hash;
use decode_image::{ImageHash, Load};
use firmware::Fault;
use schedule::Point;
use state::{Images, Pending};

#[tactic(auto, unfolding(crate::specs::Load::is_backup))]
fn is_backup(images: Images, hash: [u8; 32]) -> bool
    ensures { result ≡ is_backup images hash }
{
    images.backup.given && buffer::same(&images.backup.bytes, &hash)
}

#[tactic(auto, unfolding(crate::specs::Load::is_pending))]
fn is_pending(images: Images, hash: [u8; 32]) -> bool
    ensures { result ≡ is_pending images hash }
{
    images.pending.is && buffer::same(&images.pending.hash, &hash)
}

// The hash has to be the open one, and the open image complete.
#[tactic(auto, unfolding(crate::specs::Load::open_fault, firmware::specs::Answer::answer_of))]
fn open_fault(images: Images, hash: [u8; 32]) -> Result<(), Fault>
    ensures { answer_of result ≡ open_fault images hash }
{
    if !firmware::is_open(images, hash) {
        return Err(Fault::UnknownHash);
    }
    if !transfer::is_complete(images.image) {
        return Err(Fault::ImageIncomplete);
    }
    Ok(())
}

// The backup may be loaded; another image must be open and complete.
#[tactic(auto, unfolding(crate::specs::Load::source_fault, firmware::specs::Answer::answer_of))]
fn source_fault(images: Images, hash: [u8; 32]) -> Result<(), Fault>
    ensures { answer_of result ≡ source_fault images hash }
{
    if is_backup(images, hash) {
        return Ok(());
    }
    open_fault(images, hash)
}

// No other hash may be pending.
#[tactic(auto, unfolding(crate::specs::Load::pending_fault, firmware::specs::Answer::answer_of))]
fn pending_fault(images: Images, hash: [u8; 32]) -> Result<(), Fault>
    ensures { answer_of result ≡ pending_fault images hash }
{
    if images.pending.is && !is_pending(images, hash) {
        return Err(Fault::PendingReboot);
    }
    Ok(())
}

// The hash becomes pending; a new time replaces the old.
#[tactic(auto, unfolding(crate::specs::Load::loads, firmware::specs::Answer::settled, firmware::specs::Answer::answer_of))]
fn load(images: Images, hash: [u8; 32], time: Point) -> Result<Images, Fault>
    ensures { settled images result ≡ loads images hash time }
{
    source_fault(images, hash)?;
    pending_fault(images, hash)?;
    let mut next = images;
    next.pending = Pending {
        is: true,
        hash,
        time,
    };
    Ok(next)
}

// What a LoadRequest does, by what was read of it: a bad hash, or no load time or 0, is invalid.
#[tactic(auto, unfolding(crate::specs::Load::load_taken, crate::specs::Load::loads_at, firmware::specs::Place::given_hash, firmware::specs::Answer::settled, firmware::specs::Answer::answer_of))]
pub fn answer_load(images: Images, v: &[u8], l: Load) -> Result<Images, Fault>
    ensures { settled images result ≡ load_taken images v.now l }
{
    let hash = firmware::given_hash(v, l.hash)?;
    let time = l.time.ok_or(Fault::InvalidReq)?;
    if time.0 == 0 {
        return Err(Fault::InvalidReq);
    }
    load(images, hash, time)
}

// The pending hash is cleared; the running one can't be; others are unknown.
#[tactic(auto, unfolding(crate::specs::Load::cancels, firmware::specs::Answer::settled, firmware::specs::Answer::answer_of))]
fn cancel(images: Images, hash: [u8; 32]) -> Result<Images, Fault>
    ensures { settled images result ≡ cancels images hash }
{
    if is_pending(images, hash) {
        let mut next = images;
        next.pending = state::no_pending();
        return Ok(next);
    }
    if buffer::same(&images.running, &hash) {
        return Err(Fault::ImageRunning);
    }
    Err(Fault::UnknownHash)
}

// What a CancelLoadRequest does.
#[tactic(auto, unfolding(crate::specs::Load::cancel_taken, firmware::specs::Place::given_hash, firmware::specs::Answer::settled, firmware::specs::Answer::answer_of))]
pub fn answer_cancel(images: Images, v: &[u8], h: ImageHash) -> Result<Images, Fault>
    ensures { settled images result ≡ cancel_taken images v.now h }
{
    cancel(images, firmware::given_hash(v, h.hash)?)
}

// The open and complete image becomes the backup, unless a load is pending.
#[tactic(auto, unfolding(crate::specs::Load::backs, firmware::specs::Answer::settled, firmware::specs::Answer::answer_of))]
fn back_up(images: Images, hash: [u8; 32]) -> Result<Images, Fault>
    ensures { settled images result ≡ backs images hash }
{
    open_fault(images, hash)?;
    if images.pending.is {
        return Err(Fault::PendingReboot);
    }
    let mut next = images;
    next.backup = Hash {
        given: true,
        bytes: hash,
    };
    Ok(next)
}

// What a SetBackupRequest does.
#[tactic(auto, unfolding(crate::specs::Load::backup_taken, firmware::specs::Place::given_hash, firmware::specs::Answer::settled, firmware::specs::Answer::answer_of))]
pub fn answer_backup(images: Images, v: &[u8], h: ImageHash) -> Result<Images, Fault>
    ensures { settled images result ≡ backup_taken images v.now h }
{
    back_up(images, firmware::given_hash(v, h.hash)?)
}

// A boot: the pending hash, if there is one, runs now, and no load is pending.
#[tactic(auto, unfolding(crate::specs::Load::booted))]
pub fn boot(images: Images) -> Images
    ensures { result ≡ booted images }
{
    if !images.pending.is {
        return images;
    }
    let running = images.pending.hash;
    let mut next = images;
    next.running = running;
    next.pending = state::no_pending();
    next
}
