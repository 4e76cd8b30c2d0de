// The host's store: records that the agent shows and sends but does not own. It is checked on every call that has one.
#![tactic(auto)]

ghost use Rattle.std.specs.Prelude.{◌≡◌, ◌≤◌};
ghost use Rattle.store.specs.Store.{reserved, noted, fine, acceptable};

// What a walk over the store has seen.
#[derive(Clone, Copy)]
pub struct Seen {
    pub records: usize,
    pub ids: usize,
    pub reserved: bool,
}

// A type that the host may not store: TlvIndex, and the records that are the agent's own.
#[tactic(auto, unfolding(crate::specs::Store::reserved, buffer::specs::Listed::listed))]
fn is_reserved(kind: u64) -> bool
    ensures { result ≡ reserved kind }
{
    matches!(kind, 1 | 6 | 7 | 8 | 13 | 18 | 55 | 57 | 58 | 65..=77)
}

// One record more. DeviceID is type 2.
#[tactic(auto, unfolding(crate::specs::Store::noted))]
fn note(seen: Seen, kind: u64) -> Seen
    requires { (seen.records ≤ 4096) × (seen.ids ≤ 4096) }
    ensures { result ≡ noted seen kind }
{
    Seen {
        records: seen.records + 1,
        ids: seen.ids + usize::from(kind == 2),
        reserved: seen.reserved || is_reserved(kind),
    }
}

// At most 64 records, DeviceID at most once, none reserved.
#[tactic(auto, unfolding(crate::specs::Store::fine))]
fn is_fine(seen: Seen) -> bool
    ensures { result ≡ fine seen }
{
    seen.records <= 64 && seen.ids <= 1 && !seen.reserved
}

// Whether a store may be used: at most 4,096 bytes, readable to its end, and its records are fine.
#[tactic(auto, using(crate::proofs::Laws::accept_steps))]
pub fn is_acceptable(s: &[u8]) -> bool
    ensures { result ≡ acceptable s.now }
{
    if 4096 < s.len() {
        return false;
    }
    let mut seen = Seen {
        records: 0,
        ids: 0,
        reserved: false,
    };
    let mut at = 0;
    while at < s.len() {
        let Some(r) = tlv::take_record(s, at) else {
            return false;
        };
        seen = note(seen, r.kind);
        at = r.end;
    }
    is_fine(seen)
}
