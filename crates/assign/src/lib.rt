// What a session, a report and a GroupAssign of an acknowledgement assign.
#![tactic(auto)]

ghost use Rattle.std.specs.Prelude.{◌<◌, ◌≡◌};
ghost use Rattle.assign.specs.Assign.{with_session, with_report, place_of, with_pair, regrouped};

use buffer::Text;
use protobuf::Span;
use state::{Assigned, Groups, Pair};

// A session with an id; one without is ignored.
pub fn with_session(assigned: Assigned, v: &[u8]) -> Assigned
    ensures { result ≡ with_session assigned v.now }
{
    let m = decode::read_session(v);
    let place = m.id;
    let Some(Span { start, end }) = place else {
        return assigned;
    };
    let session = Text::of(&v[start..end]);
    Assigned {
        in_session: true,
        session,
        ..assigned
    }
}

// A report: its interval and its list.
pub fn with_report(assigned: Assigned, v: &[u8]) -> Assigned
    ensures { result ≡ with_report assigned v.now }
{
    let m = decode_report::read_report(v);
    Assigned {
        reporting: true,
        interval: m.interval,
        ids: m.ids,
        ..assigned
    }
}

// Where the pair of a type is held, or else the end of those held; at 8 there is no place.
fn place_of(groups: Groups, kind: u32) -> usize
    ensures { result ≡ place_of groups kind }
{
    for (i, pair) in groups.list.iter().enumerate() {
        if groups.count <= i {
            return i;
        }
        if pair.kind == kind {
            return i;
        }
    }
    8
}

// A pair at its place: it replaces that of its type, or is added at the end.
fn with_pair(groups: Groups, place: usize, kind: u32, id: u32) -> Groups
    requires { (place ≡ place_of groups kind) × (place < 8) }
    ensures { result ≡ with_pair groups kind id }
{
    let mut list = groups.list;
    list[place] = Pair { kind, id };
    if place < groups.count {
        return Groups { list, ..groups };
    }
    Groups {
        list,
        count: place + 1,
    }
}

// One assignment, unless it would need a ninth group.
pub fn regroup(groups: Groups, kind: u32, id: u32) -> Option<Groups>
    ensures { result ≡ regrouped groups kind id }
{
    let place = place_of(groups, kind);
    if 8 <= place {
        return None;
    }
    Some(with_pair(groups, place, kind, id))
}
