// A word that lies whole in the bytes.
ghost use Rattle.std.specs.Prelude.{◌≡◌, ◌<◌, ◌++◌, length, IfSome};
ghost use Rattle.flake_model.specs.Resp.{IsWord, bulk_string};

use crate::head::{Head, line_end, strip, whole_line};

/// The word at the front, where it is whole, and the bytes behind it.
#[inline(always)]
pub fn whole_word(bytes: &[u8]) -> Option<(&[u8], &[u8])>
    ensures word { IfSome result (λ found. IsWord found.0.now) }
    ensures text { IfSome result (λ found. bytes.now ≡ bulk_string found.0.now ++ found.1.now) }
    ensures shorter { IfSome result (λ found. length found.1.now < length bytes.now) }
{
    let Some(line) = strip(bytes, b'$') else {
        return None;
    };
    let Some((len, rest)) = whole_line(Head::Length, line) else {
        return None;
    };
    if rest.len() < len as usize {
        return None;
    }
    let (word, end) = rest.split_at(len as usize);
    let Some(behind) = line_end(end) else {
        return None;
    };
    Some((word, behind))
}
