// The heads of what the agent sends. None has a token.
ghost use Rattle.buffer.specs.Put.{Put};
ghost use Rattle.coap.specs.Write.{reset, reply_head, own_head, registration_head, report_head, answer_head};

// Appends a reset.
pub fn put_reset(out: &mut [u8], at: usize, id: u16) -> usize
    ensures { Put out.old at (reset id) out.new result }
{
    let [high, low] = id.to_be_bytes();
    buffer::put(out, at, &[0x70, 0, high, low])
}

// Appends the head of an acknowledgement: where a payload follows, option 12 = 42 and the marker.
pub fn put_reply(out: &mut [u8], at: usize, code: u8, id: u16, filled: bool) -> usize
    ensures { Put out.old at (reply_head filled code id) out.new result }
{
    let [high, low] = id.to_be_bytes();
    if filled {
        return buffer::put(out, at, &[0x60, code, high, low, 0xC1, 0x2A, 0xFF]);
    }
    buffer::put(out, at, &[0x60, code, high, low])
}

// Appends the head of a POST of the agent's own, of that first byte, to the path of that one letter.
fn put_own(out: &mut [u8], at: usize, first: u8, id: u16, segment: u8) -> usize
    ensures { Put out.old at (own_head first id segment) out.new result }
{
    let [high, low] = id.to_be_bytes();
    buffer::put(
        out,
        at,
        &[first, 2, high, low, 0xB1, segment, 0x11, 0x2A, 0xFF],
    )
}

// Appends the head of a registration: a CON POST to `r`.
pub fn put_registration(out: &mut [u8], at: usize, id: u16) -> usize
    ensures { Put out.old at (registration_head id) out.new result }
{
    put_own(out, at, 0x40, id, b'r')
}

// Appends the head of a report: a NON POST to `c`.
pub fn put_report(out: &mut [u8], at: usize, id: u16) -> usize
    ensures { Put out.old at (report_head id) out.new result }
{
    put_own(out, at, 0x50, id, b'c')
}

// Appends the head of an answer that goes to a URL of its own: a NON POST without a path.
pub fn put_answer(out: &mut [u8], at: usize, id: u16) -> usize
    ensures { Put out.old at (answer_head id) out.new result }
{
    let [high, low] = id.to_be_bytes();
    buffer::put(out, at, &[0x50, 2, high, low, 0xC1, 0x2A, 0xFF])
}
