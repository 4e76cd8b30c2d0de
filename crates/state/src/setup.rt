// Setup: every value is checked, and a first state is made.
ghost use Rattle.std.specs.Prelude.{◌≡◌};
ghost use Rattle.state.specs.Setup.{hash_of, no_image, no_pending, no_groups, only_running, none_assigned, free_at, none_waiting, starting_at, within, valid_texts, valid_settings, first_state, blank_state, refused_setup, setup_of};

use crate::{
    Assigned, Delayed, Device, Groups, Images, Pair, Pending, Registration, State, Url, Waiting,
    What,
};
use buffer::Text;
use csmp::{Hash, Image, Name, Version};
use schedule::{Length, Point};

// The numbers and switches of a setup.
#[derive(Clone, Copy)]
pub struct Settings {
    pub image_len: u32,
    pub interval_min: Length,
    pub interval_max: Length,
    pub message_id: u16,
    pub signed_posts: bool,
    pub signed_responses: bool,
}

// What setup answers: outcome 0 and the first state, or 11 and a fixed state that no call should be given.
#[derive(Clone, Copy)]
pub struct Setup {
    pub outcome: u32,
    pub state: State,
}

fn hash_of(s: &[u8]) -> [u8; 32]
    ensures { result ≡ hash_of s.now }
{
    let mut bytes = [0u8; 32];
    buffer::copy(&mut bytes, s);
    bytes
}

fn no_image() -> Image
    ensures { result ≡ no_image }
{
    Image {
        hash: [0; 32],
        name: Name {
            given: false,
            bytes: [0; 128],
            len: 0,
        },
        version: Version {
            given: false,
            bytes: [0; 32],
            len: 0,
        },
        size: 0,
        block_size: 0,
        bitmap: [0; 128],
        held: 0,
    }
}

// No load.
pub fn no_pending() -> Pending
    ensures { result ≡ no_pending }
{
    Pending {
        is: false,
        hash: [0; 32],
        time: Point(0),
    }
}

fn no_groups() -> Groups
    ensures { result ≡ no_groups }
{
    Groups {
        list: [Pair { kind: 0, id: 0 }; 8],
        count: 0,
    }
}

// Nothing but the running image.
fn only_running(hash: [u8; 32]) -> Images
    ensures { result ≡ only_running hash }
{
    Images {
        running: hash,
        open: false,
        image: no_image(),
        pending: no_pending(),
        backup: Hash {
            given: false,
            bytes: [0; 32],
        },
    }
}

fn none_assigned() -> Assigned
    ensures { result ≡ none_assigned }
{
    Assigned {
        groups: no_groups(),
        in_session: false,
        session: Text::of(b""),
        reporting: false,
        interval: None,
        ids: decimal::Ids::empty(),
    }
}

// A place that is free.
fn free(slot: usize) -> Delayed
    ensures { result ≡ free_at slot }
{
    Delayed {
        from: Point(0),
        wait: Length(0),
        what: What::Index,
        url: 0,
        held: 0,
        slot,
    }
}

fn none_waiting() -> Waiting
    ensures { result ≡ none_waiting }
{
    Waiting {
        list: [free(0), free(1), free(2), free(3)],
        count: 0,
    }
}

// Registration as setup starts it.
fn starting(interval: Length, url: Url, message_id: u16) -> Registration
    ensures { result ≡ starting_at interval url message_id }
{
    Registration {
        accepted: false,
        awaited: false,
        round: 0,
        interval,
        immediate: false,
        url,
        message_id,
    }
}

fn between(low: usize, n: usize, high: usize) -> bool
    ensures { result ≡ within low n high }
{
    if n < low {
        return false;
    }
    n <= high
}

// Texts within their sizes: only the vendor's hardware id may be empty, and a hash has 32 bytes.
fn valid_texts(hw_id: &[u8], vendor_hw_id: &[u8], running: &[u8], url: &[u8]) -> bool
    ensures { result ≡ valid_texts hw_id.now vendor_hw_id.now running.now url.now }
{
    if !between(1, hw_id.len(), 32) {
        return false;
    }
    if 32 < vendor_hw_id.len() {
        return false;
    }
    if running.len() != 32 {
        return false;
    }
    between(1, url.len(), 128)
}

// Numbers within their sizes: 1 ≤ tIntervalMin ≤ tIntervalMax ≤ 86,400, and an image of 1 to 1,048,576 bytes.
fn valid_settings(s: Settings) -> bool
    ensures { result ≡ valid_settings s }
{
    if !between(1, s.image_len as usize, 1048576) {
        return false;
    }
    if s.interval_min.0 < 1 {
        return false;
    }
    if s.interval_max.0 < s.interval_min.0 {
        return false;
    }
    s.interval_max.0 <= 86400
}

// The state of a device that was never spoken to.
fn first_state(hw_id: &[u8], vendor_hw_id: &[u8], running: &[u8], url: &[u8], s: Settings) -> State
    ensures { result ≡ first_state hw_id.now vendor_hw_id.now running.now url.now s }
{
    let home = Text::of(url);
    let ours = Text::of(hw_id);
    let vendors = Text::of(vendor_hw_id);
    let hash = hash_of(running);
    let low = s.interval_min;
    let high = s.interval_max;
    let device = Device {
        hw_id: ours,
        vendor_hw_id: vendors,
        home,
        image_len: s.image_len,
        interval_min: low,
        interval_max: high,
        signed_posts: s.signed_posts,
        signed_responses: s.signed_responses,
        refuse_padding: false,
    };
    let images = only_running(hash);
    let assigned = none_assigned();
    let registration = starting(low, home, s.message_id);
    let waiting = none_waiting();
    State {
        device,
        images,
        assigned,
        registration,
        waiting,
    }
}

// The fixed state of a refused setup.
fn blank() -> State
    ensures { result ≡ blank_state }
{
    let none = Settings {
        image_len: 0,
        interval_min: Length(0),
        interval_max: Length(0),
        message_id: 0,
        signed_posts: false,
        signed_responses: false,
    };
    first_state(b"", b"", b"", b"", none)
}

fn refuse() -> Setup
    ensures { result ≡ refused_setup }
{
    let state = blank();
    Setup { outcome: 11, state }
}

// Checks every value, and answers outcome 0 with the first state, or 11.
pub fn set_up(hw_id: &[u8], vendor_hw_id: &[u8], running: &[u8], url: &[u8], s: Settings) -> Setup
    ensures { result ≡ setup_of hw_id.now vendor_hw_id.now running.now url.now s }
{
    if !valid_texts(hw_id, vendor_hw_id, running, url) {
        return refuse();
    }
    if !valid_settings(s) {
        return refuse();
    }
    let state = first_state(hw_id, vendor_hw_id, running, url, s);
    Setup { outcome: 0, state }
}
