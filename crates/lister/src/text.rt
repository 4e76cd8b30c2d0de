// A line of the listing as text.
ghost use Rattle.std.specs.Prelude.{◌≡◌, ◌+◌, ◌≤◌, length};
ghost use Rattle.buffer.specs.Put.{Put, Appended};
ghost use Rattle.lister.specs.Line.{hex_digit, hex_byte, hex_of, shown, field, line_of, header, refusal_line};

// A digit of hex, in lower case.
fn digit(n: u8) -> u8
    requires { n ≤ 15 }
    ensures { result ≡ hex_digit n }
{
    if n < 10 {
        return 48 + n;
    }
    87 + n
}

// Appends a byte in hex.
fn put_byte(out: &mut [u8], at: usize, b: u8) -> usize
    ensures { Put out.old at (hex_byte b) out.new result }
{
    let pair = [digit(b / 16), digit(b % 16)];
    buffer::put(out, at, &pair)
}

// Appends bytes in hex.
fn put_hex(out: &mut [u8], at: usize, s: &[u8]) -> usize
    requires { at ≤ length out.old + 1 }
    ensures { Appended out.old at (hex_of s.now) out.new result }
{
    let mut end = at;
    for b in s {
        end = put_byte(out, end, *b);
    }
    end
}

// Appends a reply: in hex, or a dash for silence.
fn put_reply(out: &mut [u8], at: usize, s: &[u8]) -> usize
    requires { at ≤ length out.old + 1 }
    ensures { Appended out.old at (shown s.now) out.new result }
{
    if s.len() == 0 {
        return buffer::put(out, at, b"-");
    }
    put_hex(out, at, s)
}

// Appends a number and a blank.
fn put_field(out: &mut [u8], at: usize, n: u32) -> usize
    ensures { Appended out.old at (field n) out.new result }
{
    let end = decimal::put(out, at, n);
    buffer::put(out, end, b" ")
}

// A line: number, outcome, reply length, reply.
pub(crate) fn put_line(out: &mut [u8], n: u32, outcome: u32, reply: &[u8]) -> usize
    requires { length reply.now ≤ 1280 }
    ensures { Appended out.old 0 (line_of n outcome reply.now) out.new result }
{
    let a = put_field(out, 0, n);
    let b = put_field(out, a, outcome);
    let c = put_field(out, b, reply.len() as u32);
    let d = put_reply(out, c, reply);
    buffer::put(out, d, b"\n")
}

// The header.
pub fn put_header(out: &mut [u8], at: usize) -> usize
    ensures { Put out.old at header out.new result }
{
    buffer::put(out, at, b"n outcome len reply\n")
}

// The line of a file that is no capture.
pub fn put_refusal(out: &mut [u8], outcome: u32) -> usize
    ensures { Appended out.old 0 (refusal_line outcome) out.new result }
{
    let start = buffer::put(out, 0, b"- ");
    let mid = put_field(out, start, outcome);
    let last = put_field(out, mid, 0);
    buffer::put(out, last, b"-\n")
}
