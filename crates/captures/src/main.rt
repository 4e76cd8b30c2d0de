// Lists the captures that its arguments name, one behind the other.
//
// The captures and their listings were made by an independent model of document 01, each for one part of it; the output
// to meet is those listings in the order of the arguments.
#![tactic(auto)]

use std::io::Write;
use std::rt::Files;
use std::{env, fs, io};

// Reads a file whole and lists it; one byte more than a capture may have, so that a longer one is told.
fn list_file<W: Write>(writer: &mut W, rt: &(impl Files + Eprint), path: &str) -> io::Result<()> {
    let mut file = match fs::open(rt, path) {
        Ok(file) => file,
        Err(e) => return eprintln!(rt; "{path}: {e}"),
    };
    let mut space = [0u8; 65537];
    let n = lines::read_full(&mut file, &mut space);
    lister::list(writer, buffer::front(&space, n))
}

fn main(rt: HostRuntime) -> io::Result<()> {
    let mut writer = io::writer(&rt);
    for path in env::args(&rt)?.skip(1).take(64) {
        list_file(&mut writer, &rt, path.as_str())?;
    }
    Ok(())
}
