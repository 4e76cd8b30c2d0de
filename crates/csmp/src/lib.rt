// The messages of the CSMP draft: their tables (specs/Tables.antt), the values of theirs that the agent keeps and shows, and what values share.
#![tactic(auto)]

mod rows;
mod values;

use buffer::Text;
pub use rows::{
    GROUP_ID, GROUP_TYPE, IMAGE_FILE_HASH, IMAGE_INDEX, IMAGE_LOAD_TIME, INTERVAL, SESSION_ID,
    TLV_IDS, group, image_block, image_hash, load_request, redirect, report_subscribe, session,
    signature, signature_validity, transfer_request,
};
pub use values::{at_most, field_is, interval, interval_number, moment, moment_number};

// A session id.
pub type SessionId = Text<64>;

// A file name that may be missing.
#[derive(Clone, Copy)]
pub struct Name {
    pub given: bool,
    pub bytes: [u8; 128],
    pub len: usize,
}

// A version that may be missing.
#[derive(Clone, Copy)]
pub struct Version {
    pub given: bool,
    pub bytes: [u8; 32],
    pub len: usize,
}

// A hash that may be missing.
#[derive(Clone, Copy)]
pub struct Hash {
    pub given: bool,
    pub bytes: [u8; 32],
}

// The image that a TransferRequest opened. Its bitmap has a bit for each block, block 0 the top bit of the first byte;
// `held` is how many blocks are held.
#[derive(Clone, Copy)]
pub struct Image {
    pub hash: [u8; 32],
    pub name: Name,
    pub version: Version,
    pub size: u32,
    pub block_size: u32,
    pub bitmap: [u8; 128],
    pub held: u32,
}

// The ids of a TlvIndex, ascending: the first `count` of `list`.
#[derive(Clone, Copy)]
pub struct Index {
    pub list: [u32; 68],
    pub count: usize,
}
