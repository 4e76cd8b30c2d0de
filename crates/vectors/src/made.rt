// Records that the writers make, each printed in hex; protoc makes the same.
use csmp::{Hash, Image, Index, Name, SessionId, Version};
use decimal::Ids;
use schedule::{Length, Point};
use std::io;
use std::io::Write;

// A written record: the first n bytes, or `full` where it did not fit.
fn made<W: Write>(writer: &mut W, out: &[u8], n: usize) -> io::Result<()> {
    if n <= out.len() {
        lines::hex(writer, &out[..n])?;
    } else {
        lines::word(writer, b"full")?;
    }
    lines::word(writer, b"\n")
}

fn time_and_group<W: Write>(writer: &mut W) -> io::Result<()> {
    let mut out = [0u8; 1024];
    let n = encode::put_time(&mut out, 0, Point(1700000000));
    made(writer, &out, n)?;
    let m = encode::put_group(&mut out, 0, 1, 300);
    made(writer, &out, m)
}

// A record that does not fit is not written.
fn cut<W: Write>(writer: &mut W) -> io::Result<()> {
    let mut out = [0u8; 6];
    let n = encode::put_group(&mut out, 0, 1, 300);
    made(writer, &out, n)
}

fn session<W: Write>(writer: &mut W) -> io::Result<()> {
    let mut out = [0u8; 1024];
    let mut bytes = [0u8; 64];
    bytes[0] = b'a';
    bytes[1] = b'b';
    let n = encode::put_session(&mut out, 0, SessionId { bytes, len: 2 });
    made(writer, &out, n)
}

fn listed(a: u32, b: u32) -> Ids {
    Ids::empty().push(a).push(b)
}

// A report, one with an interval of 0, and one with nothing in it.
fn reports<W: Write>(writer: &mut W) -> io::Result<()> {
    let mut out = [0u8; 1024];
    let every = Some(Length(60));
    let n = encode::put_report(&mut out, 0, every, listed(58, 4294967295));
    made(writer, &out, n)?;
    let never = Some(Length(0));
    let m = encode::put_report(&mut out, 0, never, listed(0, 22));
    made(writer, &out, m)?;
    let k = encode::put_report(&mut out, 0, None, Ids::empty());
    made(writer, &out, k)
}

fn index<W: Write>(writer: &mut W) -> io::Result<()> {
    let mut out = [0u8; 1024];
    let mut list = [0u32; 68];
    list[0] = 11;
    list[1] = 75;
    list[2] = 4294967295;
    let n = encode::put_index(&mut out, 0, Index { list, count: 3 });
    made(writer, &out, n)
}

fn responses<W: Write>(writer: &mut W) -> io::Result<()> {
    let mut out = [0u8; 1024];
    let some = Hash {
        given: true,
        bytes: [7; 32],
    };
    let none = Hash {
        given: false,
        bytes: [7; 32],
    };
    let a = encode_image::put_response(&mut out, 0, 71, some, 0, None);
    let b = encode_image::put_response(&mut out, a, 72, none, 6, None);
    let n = encode_image::put_response(&mut out, b, 72, some, 0, Some(Point(1)));
    made(writer, &out, n)
}

fn running_and_backup<W: Write>(writer: &mut W) -> io::Result<()> {
    let mut out = [0u8; 1024];
    let n = encode_image::put_running(&mut out, 0, [0; 32]);
    made(writer, &out, n)?;
    let m = encode_image::put_backup(&mut out, 0, [9; 32], Some(Point(1700000000)));
    made(writer, &out, m)
}

fn open<W: Write>(writer: &mut W) -> io::Result<()> {
    let mut out = [0u8; 1024];
    let mut letters = [0u8; 128];
    letters[0] = b'f';
    letters[1] = b'w';
    let mut bitmap = [0u8; 128];
    bitmap[0] = 0xA0;
    let image = Image {
        hash: [3; 32],
        name: Name {
            given: true,
            bytes: letters,
            len: 2,
        },
        version: Version {
            given: false,
            bytes: [0; 32],
            len: 0,
        },
        size: 2500,
        block_size: 1000,
        bitmap,
        held: 2,
    };
    let n = encode_image::put_open(&mut out, 0, image, 1, None);
    made(writer, &out, n)
}

pub fn all<W: Write>(writer: &mut W) -> io::Result<()> {
    time_and_group(writer)?;
    cut(writer)?;
    session(writer)?;
    reports(writer)?;
    index(writer)?;
    responses(writer)?;
    running_and_backup(writer)?;
    open(writer)
}
