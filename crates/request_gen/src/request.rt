ghost use Rattle.std.specs.Prelude.{◌≡◌, ◌<◌};
ghost use Rattle.request_gen.specs.Requests.{IsRequest, made, picked, shared_set};

use crate::draws::Draws;

/// A key: one of 16 that all sessions share, or one of 16 of the session's own.
#[derive(Clone, Copy, Debug, PartialEq, Eq)]
pub enum Key {
    Shared(u16),
    Own(u16),
}

/// What a session asks for.
#[derive(Clone, Copy, Debug, PartialEq, Eq)]
pub enum DrawnRequest {
    Get(Key),
    /// The shared key and the own one of this number, and both of the next.
    GetFour(u16),
    /// A value of so many bytes.
    Set(Key, u16),
    /// To the own key of this number.
    Append(u16),
    /// The own key of this number.
    Del(u16),
}

/// The request of this number, from 0, of a session whose numbers these are.
pub fn next_request(draws: &mut Draws, r: u32) -> DrawnRequest
    ensures request { result ≡ (made r draws.old).request }
    ensures state { draws.new ≡ (made r draws.old).state }
    ensures allowed { IsRequest result }
{
    match r {
        0..16 => shared_set(r as u16),
        16..32 => {
            let n = (r - 16) as u16;
            DrawnRequest::Set(Key::Own(n), 50 + 600 * n)
        }
        _ => picked(draws),
    }
}

// The values of a shared key all have one length.
fn shared_set(n: u16) -> DrawnRequest
    requires { n < 16 }
    ensures { result ≡ shared_set n }
{
    DrawnRequest::Set(Key::Shared(n), 100 + 593 * n)
}

// A request by two draws, and a third one where a length is wanted.
fn picked(draws: &mut Draws) -> DrawnRequest
    ensures request { result ≡ (picked draws.old).request }
    ensures state { draws.new ≡ (picked draws.old).state }
    ensures allowed { IsRequest result }
{
    let op = draws.draw() % 7;
    let n = draws.draw() % 16;
    match op {
        0 => DrawnRequest::Get(Key::Shared(n)),
        1 => DrawnRequest::Get(Key::Own(n)),
        2 => DrawnRequest::GetFour(n),
        3 => shared_set(n),
        4 => DrawnRequest::Set(Key::Own(n), draws.draw() % 9001),
        5 => DrawnRequest::Append(n),
        _ => DrawnRequest::Del(n),
    }
}
