ghost use Rattle.std.specs.Prelude.{◌≡◌, ◌<◌, IfOk};
ghost use Rattle.request_gen.specs.Words.{all_words, requests_text};

use crate::draws::Draws;
use crate::request::next_request;
use crate::words::words;
use flake_base::{Bytes, Memory};
use resp_text::{Reply, put_text};
use std::alloc::Global;

/// The text of a session's first requests. An array of bulk strings has one text, as a request and as a reply.
pub fn session_input(alloc: Global, number: u32, session: u16, count: u32) -> Result<Bytes, Memory>
    requires { session < 16 }
    ensures { IfOk result (λ text. text.items ≡ requests_text (all_words number session count)) }
{
    let mut draws = Draws::new(number, session);
    let mut text = Bytes::new(alloc);
    for r in 0..count {
        let request = next_request(&mut draws, r);
        let words = words(alloc, session, request)?;
        put_text(&mut text, &Reply::Array(words))?;
    }
    Ok(text)
}
