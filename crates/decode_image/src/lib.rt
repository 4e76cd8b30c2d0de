// Reading the messages of the CSMP draft that are about images: what the walk tells of a value and, of each field, whether it is there and what it
// is; bytes stay in the value, and positions say where.
#![tactic(auto)]

ghost use Rattle.std.specs.Prelude.{◌≡◌, []};
ghost use Rattle.decode_image.specs.Read.{transfer_of, block_of, load_of, hash_of};

use message::Reading;
use protobuf::Span;
use schedule::Point;

// TransferRequest, record 65.
#[derive(Clone, Copy)]
pub struct Transfer {
    pub reading: Reading,
    pub hw_id: Option<Span>,
    pub vendor_hw_id: Option<Span>,
    pub hash: Option<Span>,
    pub name: Option<Span>,
    pub version: Option<Span>,
    pub size: Option<u32>,
    pub block_size: Option<u32>,
}

// ImageBlock, record 67.
#[derive(Clone, Copy)]
pub struct Block {
    pub reading: Reading,
    pub hash: Option<Span>,
    pub number: Option<u32>,
    pub data: Option<Span>,
}

// LoadRequest, record 68.
#[derive(Clone, Copy)]
pub struct Load {
    pub reading: Reading,
    pub hash: Option<Span>,
    pub time: Option<Point>,
}

// CancelLoadRequest and SetBackupRequest, records 69 and 70.
#[derive(Clone, Copy)]
pub struct ImageHash {
    pub reading: Reading,
    pub hash: Option<Span>,
}

pub fn read_transfer(v: &[u8]) -> Transfer
    ensures { result ≡ transfer_of v.now }
{
    let mut cells = [0usize; 24];
    let table = csmp::transfer_request();
    let reading = message::read(v, &table, &mut cells);
    let hw_id = message::bytes(cells[3], cells[4], cells[5]);
    let vendor_hw_id = message::bytes(cells[6], cells[7], cells[8]);
    let hash = message::bytes(cells[9], cells[10], cells[11]);
    let name = message::bytes(cells[12], cells[13], cells[14]);
    let version = message::bytes(cells[15], cells[16], cells[17]);
    let size = message::number(cells[18], cells[19]);
    let block_size = message::number(cells[21], cells[22]);
    Transfer {
        reading,
        hw_id,
        vendor_hw_id,
        hash,
        name,
        version,
        size,
        block_size,
    }
}

pub fn read_block(v: &[u8]) -> Block
    ensures { result ≡ block_of v.now }
{
    let mut cells = [0usize; 9];
    let table = csmp::image_block();
    let reading = message::read(v, &table, &mut cells);
    let hash = message::bytes(cells[0], cells[1], cells[2]);
    let number = message::number(cells[3], cells[4]);
    let data = message::bytes(cells[6], cells[7], cells[8]);
    Block {
        reading,
        hash,
        number,
        data,
    }
}

// What a value of no bytes says.
pub fn no_block() -> Block
    ensures { result ≡ block_of [] }
{
    let reading = message::empty();
    Block {
        reading,
        hash: None,
        number: None,
        data: None,
    }
}

pub fn read_load(v: &[u8]) -> Load
    ensures { result ≡ load_of v.now }
{
    let mut cells = [0usize; 6];
    let table = csmp::load_request();
    let reading = message::read(v, &table, &mut cells);
    let hash = message::bytes(cells[0], cells[1], cells[2]);
    let time = csmp::moment(message::number(cells[3], cells[4]));
    Load {
        reading,
        hash,
        time,
    }
}

pub fn read_hash(v: &[u8]) -> ImageHash
    ensures { result ≡ hash_of v.now }
{
    let mut cells = [0usize; 3];
    let table = csmp::image_hash();
    let reading = message::read(v, &table, &mut cells);
    let hash = message::bytes(cells[0], cells[1], cells[2]);
    ImageHash { reading, hash }
}
