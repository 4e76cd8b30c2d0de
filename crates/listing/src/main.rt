// Lists the capture on standard input: each datagram's number, outcome, reply length and reply.
#![tactic(auto)]

use std::io;
use std::io::Write;

fn main(rt: HostRuntime) -> io::Result<()> {
    // One byte more than a capture may have, so that a longer file is told.
    let mut space = [0u8; 65537];
    let n = lines::read_full(&mut rt.reader(), &mut space);
    let mut writer = io::writer(&rt);
    lister::list(&mut writer, buffer::front(&space, n))
}
