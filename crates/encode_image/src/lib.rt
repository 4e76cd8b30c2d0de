// Writing the records of the CSMP draft that are about images: answers, and what images there are. A value is put together first, so that its
// length is known; a record that does not fit whole is not written, and the position tells.
#![tactic(auto)]

ghost use Rattle.buffer.specs.Put.{Put};
ghost use Rattle.encode_image.specs.Write.{response_record, running_record, open_record, backup_record};

use csmp::{Hash, IMAGE_FILE_HASH, IMAGE_INDEX, IMAGE_LOAD_TIME, Image};
use schedule::Point;

// TransferResponse, LoadResponse, CancelLoadResponse, SetBackupResponse, records 71 to 74: only 72 has a load time.
pub fn put_response(
    out: &mut [u8],
    at: usize,
    record: u64,
    hash: Hash,
    answer: u32,
    time: Option<Point>,
) -> usize
    ensures { Put out.old at (response_record «record» hash answer time) out.new result }
{
    let mut value = [0u8; 128];
    let bytes = hash.bytes;
    let a = protobuf::put_bytes_if(&mut value, 0, 1, hash.given, &bytes);
    let b = protobuf::put_number(&mut value, a, 2, answer as u64);
    let n = protobuf::put_given(&mut value, b, 3, csmp::moment_number(time));
    tlv::put(out, at, record, &value[..n])
}

// FirmwareImageInfo, record 75, of the running image.
pub fn put_running(out: &mut [u8], at: usize, hash: [u8; 32]) -> usize
    ensures { Put out.old at (running_record hash) out.new result }
{
    let mut value = [0u8; 128];
    let a = protobuf::put_number(&mut value, 0, IMAGE_INDEX, 0);
    let b = protobuf::put_bytes(&mut value, a, IMAGE_FILE_HASH, &hash);
    let n = protobuf::put_number(&mut value, b, 9, 1);
    tlv::put(out, at, 75, &value[..n])
}

// The same of the backup, with its load time if it is pending.
pub fn put_backup(out: &mut [u8], at: usize, hash: [u8; 32], time: Option<Point>) -> usize
    ensures { Put out.old at (backup_record hash time) out.new result }
{
    let mut value = [0u8; 128];
    let a = protobuf::put_number(&mut value, 0, IMAGE_INDEX, 2);
    let b = protobuf::put_bytes(&mut value, a, IMAGE_FILE_HASH, &hash);
    let n = protobuf::put_given(&mut value, b, IMAGE_LOAD_TIME, csmp::moment_number(time));
    tlv::put(out, at, 75, &value[..n])
}

// The same of the open image, whose bitmap is the first `map_len` bytes.
pub fn put_open(
    out: &mut [u8],
    at: usize,
    image: Image,
    map_len: usize,
    time: Option<Point>,
) -> usize
    ensures { Put out.old at (open_record image map_len time) out.new result }
{
    let mut value = [0u8; 512];
    let hash = image.hash;
    let name = image.name.bytes;
    let version = image.version.bytes;
    let bitmap = image.bitmap;
    let a = protobuf::put_number(&mut value, 0, IMAGE_INDEX, 1);
    let b = protobuf::put_bytes(&mut value, a, IMAGE_FILE_HASH, &hash);
    let c = protobuf::put_bytes_if(
        &mut value,
        b,
        3,
        image.name.given,
        buffer::front(&name, image.name.len),
    );
    let d = protobuf::put_bytes_if(
        &mut value,
        c,
        4,
        image.version.given,
        buffer::front(&version, image.version.len),
    );
    let e = protobuf::put_number(&mut value, d, 5, image.size as u64);
    let f = protobuf::put_number(&mut value, e, 6, image.block_size as u64);
    let g = protobuf::put_bytes(&mut value, f, 7, buffer::front(&bitmap, map_len));
    let n = protobuf::put_given(&mut value, g, IMAGE_LOAD_TIME, csmp::moment_number(time));
    tlv::put(out, at, 75, &value[..n])
}
