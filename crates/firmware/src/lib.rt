// What the answers about images share: the faults, the hashes and texts of a request, the images with an answer.
#![tactic(auto)]

mod place;

ghost use Rattle.std.specs.Prelude.{◌≡◌};
ghost use Rattle.firmware.specs.Answer.{settled, is_open};

pub use place::{echo, given_hash, hash_at, is_hash, name_at, version_at};
use state::Images;

// The images after a record, and the answer.
#[derive(Clone, Copy)]
pub struct Answered {
    pub images: Images,
    pub answer: u32,
}

// Why a request is refused: the ResponseCodes of the CSMP draft, beside 0 for none.
#[derive(Clone, Copy)]
pub enum Fault {
    IncompatibleHw = 1,
    ImageIncomplete = 2,
    UnknownHash = 3,
    FileSizeTooBig = 4,
    InvalidReq = 6,
    InvalidBlockSize = 7,
    PendingReboot = 8,
    ImageRunning = 9,
}

// The images that a request leaves, and its answer: a fault changes nothing.
#[tactic(auto, unfolding(crate::specs::Answer::settled, crate::specs::Answer::answer_of))]
pub fn settle(images: Images, done: Result<Images, Fault>) -> Answered
    ensures { result ≡ settled images done }
{
    match done {
        Ok(next) => Answered {
            images: next,
            answer: 0,
        },
        Err(fault) => Answered {
            images,
            answer: fault as u32,
        },
    }
}

#[tactic(auto, unfolding(crate::specs::Answer::is_open))]
pub fn is_open(images: Images, hash: [u8; 32]) -> bool
    ensures { result ≡ is_open images hash }
{
    images.open && buffer::same(&images.image.hash, &hash)
}
