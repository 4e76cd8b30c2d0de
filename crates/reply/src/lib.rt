// What a call answers, and the replies to a datagram: they go only to a CON.
#![tactic(auto)]

ghost use Rattle.std.specs.Prelude.{◌≡◌};
ghost use Rattle.buffer.specs.Put.{Appended};
ghost use Rattle.reply.specs.Reply.{reply_of, reply_to};

use state::State;

// What a call answers: document 01's outcome, the length of what was written to the output, and the state after it.
#[derive(Clone, Copy)]
pub struct Answer {
    pub outcome: u32,
    pub len: usize,
    pub state: State,
}

// What a datagram call answers: the same, and whether a varint that was read in the payload is padded, where the records ran or the
// acknowledgement was taken.
#[derive(Clone, Copy)]
pub struct DatagramAnswer {
    pub outcome: u32,
    pub len: usize,
    pub state: State,
    pub padded: bool,
}

// Nothing is written.
pub fn silent(outcome: u32, state: State) -> Answer
    ensures { result ≡ record { outcome = outcome; len = 0; state = state } }
{
    Answer {
        outcome,
        len: 0,
        state,
    }
}

// An acknowledgement at the front of the output: its head, and the payload if there is one.
fn put_acknowledgement(out: &mut [u8], code: u8, id: u16, body: &[u8]) -> usize
    ensures { Appended out.old 0 (reply_of code id body.now) out.new result }
{
    if body.len() == 0 {
        return coap::put_reply(out, 0, code, id, false);
    }
    let at = coap::put_reply(out, 0, code, id, true);
    buffer::put(out, at, body)
}

// A reply to a datagram of that type; a NON gets none.
pub fn put_reply(out: &mut [u8], kind: u8, code: u8, id: u16, body: &[u8]) -> usize
    ensures { Appended out.old 0 (reply_to kind code id body.now) out.new result }
{
    if kind != 0 {
        return 0;
    }
    put_acknowledgement(out, code, id, body)
}
