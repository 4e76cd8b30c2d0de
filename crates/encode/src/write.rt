// Writers: whole records into a lent output. A value is put together first, so that its length is known; a
// record that does not fit whole is not written, and the position tells.
ghost use Rattle.std.specs.Prelude.{◌≡◌, true, length, take};
ghost use Rattle.buffer.specs.Put.{Put};
ghost use Rattle.buffer.specs.Stretch.{fits};
ghost use Rattle.encode.specs.Write.{texts, index_record, session_record, report_record, time_record, group_record};

use csmp::{Index, SessionId};
use decimal::Ids;
use schedule::{Length, Point};

// Appends ids as entries of the list `number`, where they all fit.
fn put_texts(out: &mut [u8], at: usize, number: u32, ids: &[u32]) -> usize
    requires { fits (length out.old) at (length (texts number ids.now)) ≡ true }
    ensures { Put out.old at (texts number ids.now) out.new result }
{
    let mut end = at;
    let mut i = 0;
    while i < ids.len() {
        let id = ids[i];
        let mid = protobuf::put_head(out, end, number, decimal::len(id));
        end = decimal::put(out, mid, id);
        i += 1;
    }
    end
}

// The first n of a list, or all of it.
fn front_ids(ids: &[u32], n: usize) -> &[u32]
    ensures { result.now ≡ take n ids.now }
{
    if n <= ids.len() {
        return &ids[..n];
    }
    ids
}

// TlvIndex, record 1: the ids that are there, as decimals.
pub fn put_index(out: &mut [u8], at: usize, index: Index) -> usize
    ensures { Put out.old at (index_record index) out.new result }
{
    let mut value = [0u8; 2048];
    let list = index.list;
    let n = put_texts(&mut value, 0, 1, front_ids(&list, index.count));
    tlv::put(out, at, 1, &value[..n])
}

// SessionID, record 7.
pub fn put_session(out: &mut [u8], at: usize, id: SessionId) -> usize
    ensures { Put out.old at (session_record id) out.new result }
{
    let mut value = [0u8; 128];
    let n = protobuf::put_bytes(&mut value, 0, csmp::SESSION_ID, id.letters());
    tlv::put(out, at, 7, &value[..n])
}

// ReportSubscribe, record 13, without the heartbeat's fields.
pub fn put_report(out: &mut [u8], at: usize, interval: Option<Length>, ids: Ids) -> usize
    ensures { Put out.old at (report_record interval ids) out.new result }
{
    let mut value = [0u8; 1024];
    let list = ids.list;
    let a = protobuf::put_given(
        &mut value,
        0,
        csmp::INTERVAL,
        csmp::interval_number(interval),
    );
    let n = put_texts(&mut value, a, csmp::TLV_IDS, front_ids(&list, ids.count));
    tlv::put(out, at, 13, &value[..n])
}

// CurrentTime, record 18: posix only.
pub fn put_time(out: &mut [u8], at: usize, time: Point) -> usize
    ensures { Put out.old at (time_record time) out.new result }
{
    let mut value = [0u8; 32];
    let n = protobuf::put_number(&mut value, 0, 1, time.0 as u64);
    tlv::put(out, at, 18, &value[..n])
}

// GroupInfo, record 58.
pub fn put_group(out: &mut [u8], at: usize, kind: u32, id: u32) -> usize
    ensures { Put out.old at (group_record kind id) out.new result }
{
    let mut value = [0u8; 64];
    let a = protobuf::put_number(&mut value, 0, csmp::GROUP_TYPE, kind as u64);
    let n = protobuf::put_number(&mut value, a, csmp::GROUP_ID, id as u64);
    tlv::put(out, at, 58, &value[..n])
}
