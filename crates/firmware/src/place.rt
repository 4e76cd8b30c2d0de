// Bytes of a value, taken out where the state will hold them.
ghost use Rattle.std.specs.Prelude.{◌≡◌};
ghost use Rattle.firmware.specs.Place.{is_hash, hash_at, given_hash, echoed, name_at, version_at};

use crate::Fault;
use csmp::{Hash, Name, Version};
use protobuf::Span;

// Whether bytes are there and are 32: a hash.
#[tactic(auto, unfolding(crate::specs::Place::is_hash))]
pub fn is_hash(place: Option<Span>) -> bool
    ensures { result ≡ is_hash place }
{
    let Some(Span { start, end }) = place else {
        return false;
    };
    end.saturating_sub(start) == 32
}

// The bytes, at the front of zeros.
#[tactic(auto, unfolding(crate::specs::Place::hash_at))]
pub fn hash_at(v: &[u8], place: Option<Span>) -> [u8; 32]
    ensures { result ≡ hash_at v.now place }
{
    let mut bytes = [0u8; 32];
    let Some(Span { start, end }) = place else {
        return bytes;
    };
    buffer::copy(&mut bytes, buffer::part(v, start, end));
    bytes
}

// The hash of a request that has to name one.
#[tactic(auto, unfolding(crate::specs::Place::given_hash))]
pub fn given_hash(v: &[u8], place: Option<Span>) -> Result<[u8; 32], Fault>
    ensures { result ≡ given_hash v.now place }
{
    if !is_hash(place) {
        return Err(Fault::InvalidReq);
    }
    Ok(hash_at(v, place))
}

// The hash that a response echoes: that of the request where it has 32 bytes, else none.
#[tactic(auto, unfolding(crate::specs::Place::echoed))]
pub fn echo(v: &[u8], place: Option<Span>) -> Hash
    ensures { result ≡ echoed v.now place }
{
    Hash {
        given: is_hash(place),
        bytes: hash_at(v, place),
    }
}

#[tactic(auto, unfolding(crate::specs::Place::name_at))]
pub fn name_at(v: &[u8], place: Option<Span>) -> Name
    ensures { result ≡ name_at v.now place }
{
    let mut bytes = [0u8; 128];
    let Some(Span { start, end }) = place else {
        return Name {
            given: false,
            bytes,
            len: 0,
        };
    };
    let text = buffer::part(v, start, end);
    buffer::copy(&mut bytes, text);
    Name {
        given: true,
        bytes,
        len: text.len(),
    }
}

#[tactic(auto, unfolding(crate::specs::Place::version_at))]
pub fn version_at(v: &[u8], place: Option<Span>) -> Version
    ensures { result ≡ version_at v.now place }
{
    let mut bytes = [0u8; 32];
    let Some(Span { start, end }) = place else {
        return Version {
            given: false,
            bytes,
            len: 0,
        };
    };
    let text = buffer::part(v, start, end);
    buffer::copy(&mut bytes, text);
    Version {
        given: true,
        bytes,
        len: text.len(),
    }
}
