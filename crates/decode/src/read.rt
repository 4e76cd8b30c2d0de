// Readers: a walk by the message's table, and names for its rows.
ghost use Rattle.std.specs.Prelude.{◌≡◌};
ghost use Rattle.decode.specs.Read.{redirect_of, session_of, group_of, validity_of, signature_of};

use crate::{Group, Redirect, Session, Validity};
use message::Reading;

pub fn read_redirect(v: &[u8]) -> Redirect
    ensures { result ≡ redirect_of v.now }
{
    let mut cells = [0usize; 6];
    let table = csmp::redirect();
    let told = message::read(v, &table, &mut cells);
    let url = message::bytes(cells[0], cells[1], cells[2]);
    let immediate = message::flag(cells[3], cells[4]);
    let reading = message::limit(told, csmp::at_most(url, 128));
    Redirect {
        reading,
        url,
        immediate,
    }
}

pub fn read_session(v: &[u8]) -> Session
    ensures { result ≡ session_of v.now }
{
    let mut cells = [0usize; 3];
    let table = csmp::session();
    let told = message::read(v, &table, &mut cells);
    let id = message::bytes(cells[0], cells[1], cells[2]);
    let reading = message::limit(told, csmp::at_most(id, 64));
    Session { reading, id }
}

pub fn read_group(v: &[u8]) -> Group
    ensures { result ≡ group_of v.now }
{
    let mut cells = [0usize; 6];
    let table = csmp::group();
    let reading = message::read(v, &table, &mut cells);
    let kind = message::number(cells[0], cells[1]);
    let id = message::number(cells[3], cells[4]);
    Group { reading, kind, id }
}

pub fn read_validity(v: &[u8]) -> Validity
    ensures { result ≡ validity_of v.now }
{
    let mut cells = [0usize; 6];
    let table = csmp::signature_validity();
    let reading = message::read(v, &table, &mut cells);
    let not_before = csmp::moment(message::number(cells[0], cells[1]));
    let not_after = csmp::moment(message::number(cells[3], cells[4]));
    Validity {
        reading,
        not_before,
        not_after,
    }
}

// A Signature's value is the host's to judge.
pub fn read_signature(v: &[u8]) -> Reading
    ensures { result ≡ signature_of v.now }
{
    let mut cells = [0usize; 3];
    let table = csmp::signature();
    message::read(v, &table, &mut cells)
}
