// What the agent keeps, by value, in a few parts; and setup, which makes the first state.
#![tactic(auto)]

mod setup;

use buffer::Text;
use csmp::{Hash, Image, SessionId};
use decimal::Ids;
use schedule::{Length, Point};
pub use setup::{Settings, Setup, no_pending, set_up};

// A hardware id.
pub type HwId = Text<32>;

pub type Url = Text<128>;

// What setup gives; `home` is the URL that a boot restores. Whether padding is refused may change later, nothing else.
#[derive(Clone, Copy)]
pub struct Device {
    pub hw_id: HwId,
    pub vendor_hw_id: HwId,
    pub home: Url,
    pub image_len: u32,
    pub interval_min: Length,
    pub interval_max: Length,
    pub signed_posts: bool,
    pub signed_responses: bool,
    pub refuse_padding: bool,
}

// A load that was accepted: the hash that will run, and when.
#[derive(Clone, Copy)]
pub struct Pending {
    pub is: bool,
    pub hash: [u8; 32],
    pub time: Point,
}

// The images: the running one, the open one, the load that is pending, the backup.
#[derive(Clone, Copy)]
pub struct Images {
    pub running: [u8; 32],
    pub open: bool,
    pub image: Image,
    pub pending: Pending,
    pub backup: Hash,
}

// A group: its type and its id.
#[derive(Clone, Copy)]
pub struct Pair {
    pub kind: u32,
    pub id: u32,
}

// The groups: the first `count` of `list`.
#[derive(Clone, Copy)]
pub struct Groups {
    pub list: [Pair; 8],
    pub count: usize,
}

// What the management system assigned: groups, a session, what to report.
#[derive(Clone, Copy)]
pub struct Assigned {
    pub groups: Groups,
    pub in_session: bool,
    pub session: SessionId,
    pub reporting: bool,
    pub interval: Option<Length>,
    pub ids: Ids,
}

// Registration: whether it was accepted, the round whose acknowledgement is awaited, the interval of the next one.
#[derive(Clone, Copy)]
pub struct Registration {
    pub accepted: bool,
    pub awaited: bool,
    pub round: u16,
    pub interval: Length,
    pub immediate: bool,
    pub url: Url,
    pub message_id: u16,
}

// What an answer that waits is to have: TlvIndex; the records of an id; those of several ids; responses.
#[derive(Clone, Copy)]
pub enum What {
    Index,
    Record(u32),
    Records,
    Responses,
}

// An answer that waits so long from a point on. The URL that it goes to, if it has one, and the text of several ids or the responses stand in a
// buffer that the host lends, at its slot: so many bytes of the one, so many of the other.
#[derive(Clone, Copy)]
pub struct Delayed {
    pub from: Point,
    pub wait: Length,
    pub what: What,
    pub url: usize,
    pub held: usize,
    pub slot: usize,
}

// The answers that wait, in the order in which they came: the first `count` of `list`. Those behind them have the slots that are free.
#[derive(Clone, Copy)]
pub struct Waiting {
    pub list: [Delayed; 4],
    pub count: usize,
}

#[derive(Clone, Copy)]
pub struct State {
    pub device: Device,
    pub images: Images,
    pub assigned: Assigned,
    pub registration: Registration,
    pub waiting: Waiting,
}
