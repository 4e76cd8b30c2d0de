// Reading a ReportSubscribe, the message of the CSMP draft whose fields list ids.
#![tactic(auto)]

ghost use Rattle.std.specs.Prelude.{◌≡◌, length, leb, ◌≤◌};
ghost use Rattle.decode_report.specs.Report.{with_entry, with_field, listed_in, report_of};

use decimal::Ids;
use message::Reading;
use protobuf::Field;
use schedule::Length;

// ReportSubscribe, record 13: the primary report. The heartbeat's fields are checked, but not told.
#[derive(Clone, Copy)]
pub struct Report {
    pub reading: Reading,
    pub interval: Option<Length>,
    pub ids: Ids,
}

// One entry more of a list of ids; what is no id is ignored.
fn add_entry(ids: Ids, text: &[u8]) -> Ids
    ensures { result ≡ with_entry ids text.now }
{
    let Some(id) = decimal::read(text) else {
        return ids;
    };
    ids.push(id)
}

// The same for a field, where it is an entry of tlvid.
fn add_field(ids: Ids, v: &[u8], f: Field) -> Ids
    requires { (f.start ≤ f.end) × (f.end ≤ length v.now) }
    ensures { result ≡ with_field v.now ids f }
{
    if f.number != csmp::TLV_IDS {
        return ids;
    }
    if f.wire != 2 {
        return ids;
    }
    let start = f.start;
    let end = f.end;
    add_entry(ids, &v[start..end])
}

// The ids among the entries of tlvid, in order.
fn read_ids(v: &[u8]) -> Ids
    ensures { result ≡ listed_in v.now }
{
    let mut ids = Ids::empty();
    let mut at = 0;
    while at < v.len() {
        let Some(f) = protobuf::field_at(v, at) else {
            return ids;
        };
        ids = add_field(ids, v, f);
        at = f.end;
    }
    ids
}

// Whether a list has at most 32 entries.
fn is_few(count: usize) -> bool
    ensures { result ≡ leb count 32 }
{
    count <= 32
}

pub fn read_report(v: &[u8]) -> Report
    ensures { result ≡ report_of v.now }
{
    let mut cells = [0usize; 12];
    let table = csmp::report_subscribe();
    let told = message::read(v, &table, &mut cells);
    let interval = csmp::interval(message::number(cells[0], cells[1]));
    let few = buffer::both(is_few(cells[3]), is_few(cells[9]));
    let reading = message::limit(told, few);
    let ids = read_ids(v);
    Report {
        reading,
        interval,
        ids,
    }
}
