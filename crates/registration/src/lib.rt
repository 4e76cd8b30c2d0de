// Registration: what starts it again, how long it waits, what its datagrams change.
#![tactic(auto)]

mod round;
mod wait;

ghost use Rattle.std.specs.Prelude.{◌≡◌};
ghost use Rattle.registration.specs.Redirect.{restarted, is_set, followed, url_in, redirected};

use buffer::Text;
use protobuf::Span;
pub use round::{take_id, take_round};
use state::{Device, Registration, Url};
pub use wait::{backoff, first_wait, rest_of};

// Registration starts again: not accepted, no round awaited, the smallest interval. The message id goes on.
pub fn restart(
    device: Device,
    registration: Registration,
    url: Url,
    immediate: bool,
) -> Registration
    ensures { result ≡ restarted device registration url immediate }
{
    let interval = device.interval_min;
    Registration {
        accepted: false,
        awaited: false,
        round: 0,
        interval,
        immediate,
        url,
        message_id: registration.message_id,
    }
}

// Whether a flag is given and true.
fn is_set(flag: Option<bool>) -> bool
    ensures { result ≡ is_set flag }
{
    let Some(b) = flag else {
        return false;
    };
    b
}

// Whether a redirect is followed: one with no or an empty URL is ignored.
pub fn is_followed(v: &[u8]) -> bool
    ensures { result ≡ followed (url_in v.now) }
{
    let r = decode::read_redirect(v);
    let place = r.url;
    let Some(Span { start, end }) = place else {
        return false;
    };
    start != end
}

// What a NMSRedirectRequest does: registration starts again at its URL. One with no or an empty URL is ignored.
pub fn redirect(device: Device, registration: Registration, v: &[u8]) -> Registration
    ensures { result ≡ redirected device registration v.now }
{
    let r = decode::read_redirect(v);
    let place = r.url;
    let flag = r.immediate;
    let Some(Span { start, end }) = place else {
        return registration;
    };
    if start == end {
        return registration;
    }
    let url = Text::of(&v[start..end]);
    restart(device, registration, url, is_set(flag))
}
