// The words of a request, as the items of an array.
ghost use Rattle.std.specs.Prelude.{◌≡◌, ◌<◌, [], ◌∷◌, ◌++◌, Some, IfOk, map, string_bytes};
ghost use Rattle.resp_text.specs.Meaning.{item_meaning};
ghost use Rattle.request_gen.specs.Requests.{IsKey, IsRequest};
ghost use Rattle.request_gen.specs.Words.{key_text, letter_of, value_of, generated_words};

use crate::request::{DrawnRequest, Key};
use flake_base::{Bytes, Memory};
use resp_text::Items;
use std::alloc::Global;

/// The words of a session's request.
pub(crate) fn words(alloc: Global, session: u16, request: DrawnRequest) -> Result<Items, Memory>
    requires session { session < 16 }
    requires request { IsRequest request }
    ensures { IfOk result (λ words. map item_meaning words.items ≡ map Some (generated_words session request)) }
{
    match request {
        DrawnRequest::Get(key) => key_words(alloc, b"GET", session, key),
        DrawnRequest::GetFour(n) => four_keys(alloc, session, n),
        DrawnRequest::Set(key, len) => value_words(alloc, b"SET", session, key, len),
        DrawnRequest::Append(n) => value_words(alloc, b"APPEND", session, Key::Own(n), 100),
        DrawnRequest::Del(n) => key_words(alloc, b"DEL", session, Key::Own(n)),
    }
}

fn key_words(alloc: Global, name: &[u8], session: u16, key: Key) -> Result<Items, Memory>
    ensures { IfOk result (λ words. map item_meaning words.items
        ≡ Some name.now ∷ Some (key_text session key) ∷ []) }
{
    let name = word(alloc, name)?;
    let key = key_word(alloc, session, key)?;
    Ok(Items::from_vec(vec![in alloc; name, key]?))
}

fn value_words(
    alloc: Global,
    name: &[u8],
    session: u16,
    key: Key,
    len: u16,
) -> Result<Items, Memory>
    requires session { session < 16 }
    requires key { IsKey key }
    ensures { IfOk result (λ words. map item_meaning words.items
        ≡ Some name.now ∷ Some (key_text session key) ∷ Some (value_of session key len) ∷ []) }
{
    let name = word(alloc, name)?;
    let value = value_word(alloc, session, key, len)?;
    let key = key_word(alloc, session, key)?;
    Ok(Items::from_vec(vec![in alloc; name, key, value]?))
}

fn four_keys(alloc: Global, session: u16, n: u16) -> Result<Items, Memory>
    requires { n < 16 }
    ensures { IfOk result
        (λ words. map item_meaning words.items ≡ map Some (generated_words session (DrawnRequest.GetFour n))) }
{
    let next = (n + 1) % 16;
    let mut words = vec![in alloc; word(alloc, b"MGET")?]?;
    push_key(alloc, session, Key::Shared(n), &mut words)?;
    push_key(alloc, session, Key::Own(n), &mut words)?;
    push_key(alloc, session, Key::Shared(next), &mut words)?;
    push_key(alloc, session, Key::Own(next), &mut words)?;
    Ok(Items::from_vec(words))
}

// Puts a key behind the words.
fn push_key(
    alloc: Global,
    session: u16,
    key: Key,
    words: &mut Vec<Option<Bytes>>,
) -> Result<(), Memory>
    ensures { IfOk result (λ _. map item_meaning words.new.items
        ≡ map item_meaning words.old.items ++ Some (key_text session key) ∷ []) }
{
    words.push(key_word(alloc, session, key)?)?;
    Ok(())
}

fn word(alloc: Global, bytes: &[u8]) -> Result<Option<Bytes>, Memory>
    ensures { IfOk result (λ word. item_meaning word ≡ Some bytes.now) }
{
    Ok(Some(Bytes::from_slice(alloc, bytes)?))
}

fn key_word(alloc: Global, session: u16, key: Key) -> Result<Option<Bytes>, Memory>
    ensures { IfOk result (λ word. item_meaning word ≡ Some (key_text session key)) }
{
    match key {
        Key::Shared(n) => Ok(text_word(format!(in alloc; "s{n}")?)),
        Key::Own(n) => Ok(text_word(format!(in alloc; "p{session}x{n}")?)),
    }
}

fn text_word(text: String) -> Option<Bytes>
    ensures { item_meaning result ≡ Some (string_bytes text) }
{
    Some(Bytes::from_vec(text.into_bytes()))
}

fn value_word(alloc: Global, session: u16, key: Key, len: u16) -> Result<Option<Bytes>, Memory>
    requires session { session < 16 }
    requires key { IsKey key }
    ensures { IfOk result (λ word. item_meaning word ≡ Some (value_of session key len)) }
{
    let letter = letter(session, key);
    Ok(Some(Bytes::from_vec(vec![in alloc; letter; usize::from(len)]?)))
}

// Capital letters are shared ones of a session, and small ones own ones of a key.
fn letter(session: u16, key: Key) -> u8
    requires session { session < 16 }
    requires key { IsKey key }
    ensures { result ≡ letter_of session key }
{
    match key {
        Key::Shared(_) => b'A' + session as u8,
        Key::Own(n) => b'a' + n as u8,
    }
}
