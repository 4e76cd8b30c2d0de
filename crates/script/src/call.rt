// What calls are given, from their lines.
ghost use Rattle.std.specs.Prelude.{◌≤◌};

use agent::{Length, Point, Report, Settings, Setup, State};

fn settings(line: &[u8]) -> Settings {
    Settings {
        image_len: crate::number(line, b" image="),
        interval_min: Length(crate::number(line, b" min=")),
        interval_max: Length(crate::number(line, b" max=")),
        message_id: (crate::number(line, b" id=") % 65536) as u16,
        signed_posts: crate::number(line, b" posts=") == 1,
        signed_responses: crate::number(line, b" responses=") == 1,
    }
}

pub fn set_up(line: &[u8]) -> Setup {
    let mut hw_id = [0u8; 256];
    let mut vendor = [0u8; 256];
    let mut hash = [0u8; 256];
    let mut url = [0u8; 256];
    let a = crate::unhex(crate::value(line, b" hwId="), &mut hw_id);
    let b = crate::unhex(crate::value(line, b" vendorHwId="), &mut vendor);
    let c = crate::unhex(crate::value(line, b" hash="), &mut hash);
    let d = crate::unhex(crate::value(line, b" url="), &mut url);
    agent::setup(
        buffer::front(&hw_id, a),
        buffer::front(&vendor, b),
        buffer::front(&hash, c),
        buffer::front(&url, d),
        settings(line),
    )
}

pub fn time(line: &[u8]) -> Point {
    Point(crate::number(line, b" now="))
}

// Which report a line asks for.
pub fn which(line: &[u8]) -> Report {
    if buffer::same(crate::value(line, b" which="), b"heartbeat") {
        return Report::Heartbeat;
    }
    Report::Primary
}

// How much of an image buffer of `most` bytes a device has.
pub fn image_room(state: State, most: usize) -> usize
    ensures { result ≤ most }
{
    let n = state.device.image_len as usize;
    if most < n {
        return most;
    }
    n
}
