// One download: block arithmetic, the bitmap of the blocks held, and blocks taken into the image buffer.
#![tactic(auto)]

mod bitmap;
mod block;

ghost use Rattle.std.specs.Prelude.{◌≡◌};
ghost use Rattle.transfer.specs.Blocks.{blocks, block_length};
ghost use Rattle.transfer.specs.Bitmap.{complete, progress_of};

pub use block::take_block;
use csmp::Image;

// How far a download is: blocks held, blocks in all, and whether none is missing.
#[derive(Clone, Copy)]
pub struct Progress {
    pub held: u32,
    pub blocks: u32,
    pub complete: bool,
}

// How many blocks a file has: its size by the block size, rounded up.
pub fn block_count(size: u32, block_size: u32) -> u64
    ensures { result ≡ blocks size block_size }
{
    if block_size == 0 {
        return 0;
    }
    let each = block_size as u64;
    (size as u64 + (each - 1)) / each
}

// The length of block n: every block is full but the last, which holds the rest.
fn block_len(size: u32, block_size: u32, n: u32) -> u64
    ensures { result ≡ block_length size block_size n }
{
    let start = n as u64 * block_size as u64;
    if size as u64 <= start {
        return 0;
    }
    let rest = size as u64 - start;
    let each = block_size as u64;
    if each < rest { each } else { rest }
}

// How far the download of the open image is: complete where as many blocks are held as there are.
pub fn progress_of(image: Image) -> Progress
    ensures { result ≡ progress_of image }
{
    let blocks = block_count(image.size, image.block_size);
    Progress {
        held: image.held,
        blocks: blocks as u32,
        complete: image.held as u64 == blocks,
    }
}

// Whether no block of the open image is missing.
pub fn is_complete(image: Image) -> bool
    ensures { result ≡ complete image }
{
    let told = progress_of(image);
    told.complete
}
