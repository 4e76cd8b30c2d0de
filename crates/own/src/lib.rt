// The agent's own records, written one after the other: 13, 18, 58, 75.
#![tactic(auto)]

ghost use Rattle.std.specs.Prelude.{◌≡◌, ◌≤◌, length, take};
ghost use Rattle.buffer.specs.Put.{Appended};
ghost use Rattle.state.specs.Groups.{held_pairs};
ghost use Rattle.own.specs.Own.{report_shown, groups_shown, own_records};

use schedule::Point;
use state::{Assigned, Groups, State};

// ReportSubscribe, once one is held.
pub fn put_subscription(a: Assigned, out: &mut [u8], at: usize) -> usize
    ensures { Appended out.old at (report_shown a) out.new result }
{
    if !a.reporting {
        return buffer::put(out, at, b"");
    }
    let interval = a.interval;
    let ids = a.ids;
    encode::put_report(out, at, interval, ids)
}

// GroupInfo for each group.
pub fn put_groups(groups: Groups, out: &mut [u8], at: usize) -> usize
    ensures { Appended out.old at (groups_shown (held_pairs groups)) out.new result }
{
    let list = groups.list;
    let mut end = buffer::put(out, at, b"");
    let mut i = 0;
    while i < 8 {
        if groups.count <= i {
            return end;
        }
        let pair = list[i];
        end = encode::put_group(out, end, pair.kind, pair.id);
        i += 1;
    }
    end
}

// All of them, at the front of a buffer that has room.
pub fn put_own(state: State, time: Point, out: &mut [u8; 1152]) -> usize
    ensures { (result ≤ length out.new) × (take result out.new ≡ own_records state time) }
{
    let a = put_subscription(state.assigned, out, 0);
    let b = encode::put_time(out, a, time);
    let c = put_groups(state.assigned.groups, out, b);
    images::put_images(state.images, out, c)
}
