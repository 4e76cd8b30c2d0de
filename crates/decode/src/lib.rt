// Reading the messages of the CSMP draft. A reader says what the walk tells of a value and, of each field, whether it is there and what it is;
// bytes stay in the value, and positions say where.
#![tactic(auto)]

mod read;

use message::Reading;
use protobuf::Span;
pub use read::{read_group, read_redirect, read_session, read_signature, read_validity};
use schedule::Point;

// NMSRedirectRequest, record 6.
#[derive(Clone, Copy)]
pub struct Redirect {
    pub reading: Reading,
    pub url: Option<Span>,
    pub immediate: Option<bool>,
}

// SessionID, record 7.
#[derive(Clone, Copy)]
pub struct Session {
    pub reading: Reading,
    pub id: Option<Span>,
}

// GroupAssign and GroupMatch, records 55 and 57.
#[derive(Clone, Copy)]
pub struct Group {
    pub reading: Reading,
    pub kind: Option<u32>,
    pub id: Option<u32>,
}

// SignatureValidity, record 76.
#[derive(Clone, Copy)]
pub struct Validity {
    pub reading: Reading,
    pub not_before: Option<Point>,
    pub not_after: Option<Point>,
}
