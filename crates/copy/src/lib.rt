// Records copied as bytes: those of an id or all others, from the host's store or from the agent's own.
#![tactic(auto)]

ghost use Rattle.std.specs.Prelude.{◌≡◌, ◌+◌, ◌≤◌, length, []};
ghost use Rattle.buffer.specs.Pick.{pick};
ghost use Rattle.buffer.specs.Put.{Appended};
ghost use Rattle.decimal.specs.Ids.{held};
ghost use Rattle.copy.specs.Shown.{is_own, is_hidden, source_of, chosen, copies, shown_of, shown_all};

use decimal::Ids;

// Which records are copied: those of an id, or all others.
#[derive(Clone, Copy)]
pub enum Choice {
    Only(u64),
    Except(u64),
}

// The agent's own records.
fn is_own(id: u64) -> bool
    ensures { result ≡ is_own id }
{
    match id {
        13 | 18 | 58 | 75 => true,
        _ => false,
    }
}

// TlvIndex, DeviceID and the session count as not there.
pub fn is_hidden(id: u64) -> bool
    ensures { result ≡ is_hidden id }
{
    match id {
        1 | 7 => true,
        2 => true,
        _ => false,
    }
}

// Where the records of an id are: a part of the store or of the agent's own records.
fn source<'a>(store: &'a [u8], own: &'a [u8], id: u64) -> &'a [u8]
    ensures { result.now ≡ source_of store.now own.now id }
{
    if is_hidden(id) {
        return &store[..0];
    }
    if is_own(id) {
        return own;
    }
    store
}

fn is_chosen(choice: Choice, kind: u64) -> bool
    ensures { result ≡ chosen choice kind }
{
    match choice {
        Choice::Only(id) => kind == id,
        Choice::Except(id) => kind != id,
    }
}

// Appends the bytes of a record, if it is one that is asked for.
fn copy_if(wanted: bool, bytes: &[u8], out: &mut [u8], at: usize) -> usize
    requires { at ≤ length out.old + 1 }
    ensures { Appended out.old at (pick wanted bytes.now []) out.new result }
{
    if !wanted {
        return at;
    }
    buffer::put(out, at, bytes)
}

// Appends the chosen records, in their order. Nothing is appended first, since that brings any position to its normal form.
pub fn copy_records(s: &[u8], choice: Choice, out: &mut [u8], at: usize) -> usize
    ensures { Appended out.old at (copies s.now choice) out.new result }
{
    let mut end = buffer::put(out, at, b"");
    let mut start = 0;
    while start < s.len() {
        let Some(r) = tlv::take_record(s, start) else {
            return end;
        };
        let stop = r.end;
        end = copy_if(is_chosen(choice, r.kind), &s[start..stop], out, end);
        start = stop;
    }
    end
}

// Appends what there is of an id.
pub fn copy_shown<'a>(store: &'a [u8], own: &'a [u8], id: u32, out: &mut [u8], at: usize) -> usize
    ensures { Appended out.old at (shown_of store.now own.now id) out.new result }
{
    copy_records(
        source(store, own, id as u64),
        Choice::Only(id as u64),
        out,
        at,
    )
}

// Appends what there is of each id, in this order, repeats included.
pub fn copy_ids<'a>(store: &'a [u8], own: &'a [u8], ids: Ids, out: &mut [u8], at: usize) -> usize
    ensures { Appended out.old at (shown_all store.now own.now (held ids)) out.new result }
{
    let list = ids.list;
    let mut end = buffer::put(out, at, b"");
    let mut i = 0;
    while i < 32 {
        if ids.count <= i {
            return end;
        }
        end = copy_shown(store, own, list[i], out, end);
        i += 1;
    }
    end
}
