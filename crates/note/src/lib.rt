// One record of an acknowledgement.
#![tactic(auto)]

ghost use Rattle.std.specs.Prelude.{◌≡◌, ℕ, List};
ghost use Rattle.decode.specs.Read.{redirect_of, session_of, group_of, validity_of, signature_of};
ghost use Rattle.decode_report.specs.Report.{report_of};
ghost use Rattle.note.specs.Note.{reading_at, nothing_learnt, marked, group_assigned, with_group, redirect_noted, session_noted, report_noted, group_noted, validity_noted, signature_noted, noted};

use decode::Group;
use message::Reading;
use schedule::Point;
use state::{Assigned, Device, Registration};

// What a walk over an acknowledgement has learnt: whether it can be read, is signed, is not valid now; whether a redirect was followed and
// registration after it; what was assigned; how many complete GroupAssigns there were, and whether one of them would need a ninth group.
#[derive(Clone, Copy)]
pub struct Learnt {
    pub readable: bool,
    pub signed: bool,
    pub expired: bool,
    pub redirected: bool,
    pub registration: Registration,
    pub assigned: Assigned,
    pub group_assigns: usize,
    pub needs_ninth: bool,
}

// Before the first record.
pub fn nothing(registration: Registration, assigned: Assigned) -> Learnt
    ensures { result ≡ nothing_learnt registration assigned }
{
    Learnt {
        readable: true,
        signed: false,
        expired: false,
        redirected: false,
        registration,
        assigned,
        group_assigns: 0,
        needs_ninth: false,
    }
}

// Less readable than before, if a value is not.
pub fn mark(learnt: Learnt, readable: bool) -> Learnt
    ensures { result ≡ marked learnt readable }
{
    let mut next = learnt;
    next.readable = buffer::both(learnt.readable, readable);
    next
}

// The last redirect that is not ignored counts: each starts registration again.
fn note_redirect(device: Device, learnt: Learnt, v: &[u8], readable: bool) -> Learnt
    ensures { readable ≡ (redirect_of v.now).reading.readable → result ≡ redirect_noted device learnt v.now }
{
    let old = learnt.registration;
    let registration = registration::redirect(device, old, v);
    let redirected = buffer::either(learnt.redirected, registration::is_followed(v));
    let mut next = mark(learnt, readable);
    next.registration = registration;
    next.redirected = redirected;
    next
}

fn note_session(learnt: Learnt, v: &[u8], readable: bool) -> Learnt
    ensures { readable ≡ (session_of v.now).reading.readable → result ≡ session_noted learnt v.now }
{
    let old = learnt.assigned;
    let assigned = assign::with_session(old, v);
    let mut next = mark(learnt, readable);
    next.assigned = assigned;
    next
}

fn note_report(learnt: Learnt, v: &[u8], readable: bool) -> Learnt
    ensures { readable ≡ (report_of v.now).reading.readable → result ≡ report_noted learnt v.now }
{
    let old = learnt.assigned;
    let assigned = assign::with_report(old, v);
    let mut next = mark(learnt, readable);
    next.assigned = assigned;
    next
}

// One complete GroupAssign more, or the note that it would need a ninth group; over 8 make the acknowledgement unreadable.
fn assign_group(learnt: Learnt, kind: u32, id: u32) -> Learnt
    ensures { result ≡ group_assigned learnt kind id }
{
    let n = learnt.group_assigns;
    if 8 <= n {
        return mark(learnt, false);
    }
    let mut next = learnt;
    next.group_assigns = n + 1;
    let Some(groups) = assign::regroup(learnt.assigned.groups, kind, id) else {
        next.needs_ninth = true;
        return next;
    };
    next.assigned.groups = groups;
    next
}

// A complete GroupAssign; another is ignored.
fn with_group(learnt: Learnt, m: Group) -> Learnt
    ensures { result ≡ with_group learnt m }
{
    let given_kind = m.kind;
    let given_id = m.id;
    let Some(kind) = given_kind else {
        return learnt;
    };
    let Some(id) = given_id else {
        return learnt;
    };
    assign_group(learnt, kind, id)
}

fn note_group(learnt: Learnt, v: &[u8], readable: bool) -> Learnt
    ensures { readable ≡ (group_of v.now).reading.readable → result ≡ group_noted learnt v.now }
{
    let m = decode::read_group(v);
    mark(with_group(learnt, m), readable)
}

fn note_validity(learnt: Learnt, v: &[u8], readable: bool, time: Point) -> Learnt
    ensures { readable ≡ (validity_of v.now).reading.readable → result ≡ validity_noted learnt v.now time }
{
    let expired = buffer::either(learnt.expired, post::is_expired(76, v, time));
    let mut next = mark(learnt, readable);
    next.expired = expired;
    next
}

fn note_signature(learnt: Learnt, readable: bool) -> Learnt
    ensures { (v : List ℕ) → readable ≡ (signature_of v).readable → result ≡ signature_noted learnt v }
{
    let mut next = mark(learnt, readable);
    next.signed = true;
    next
}

// What is read of a value; others than these are skipped unread.
pub fn read(kind: u64, v: &[u8]) -> Reading
    ensures { result ≡ reading_at kind v.now }
{
    match kind {
        6 => decode::read_redirect(v).reading,
        7 => decode::read_session(v).reading,
        13 => decode_report::read_report(v).reading,
        55 => decode::read_group(v).reading,
        76 => decode::read_validity(v).reading,
        77 => decode::read_signature(v),
        _ => message::empty(),
    }
}

// One record more, whose value can be read or not; others than these are passed over.
pub fn note(
    device: Device,
    learnt: Learnt,
    kind: u64,
    v: &[u8],
    readable: bool,
    time: Point,
) -> Learnt
    ensures { readable ≡ (reading_at kind v.now).readable → result ≡ noted device time learnt kind v.now }
{
    match kind {
        6 => note_redirect(device, learnt, v, readable),
        7 => note_session(learnt, v, readable),
        13 => note_report(learnt, v, readable),
        55 => note_group(learnt, v, readable),
        76 => note_validity(learnt, v, readable, time),
        77 => note_signature(learnt, readable),
        _ => learnt,
    }
}
