//! What is replied.
ghost use Rattle.std.specs.Prelude.{◌≡◌, ◌<◌, ◌≤◌, IfOk, vec_len};

use frag_value::VALUE_LIMIT;
use std::alloc::{AllocError, Global};

/// A reply to an MGET of so many keys that share a value of so many bytes.
#[derive(Clone, Copy)]
pub struct Case {
    pub keys: usize,
    pub length: usize,
    /// A fragment of at least so many bytes stays where it lies.
    pub threshold: u32,
    ghost some: { (0 < keys) × (keys ≤ 64) },
    ghost fits: { length ≤ 65_536 },
    ghost places: { (0 < threshold) × (threshold ≤ 512) },
}

/// Three numbers within their bounds, and nothing else.
pub fn parse_case(line: &str) -> Option<Case> {
    let mut words = line.split_whitespace();
    let keys = words.next()?.parse::<usize>().ok()?;
    let length = words.next()?.parse::<usize>().ok()?;
    let threshold = words.next()?.parse::<u32>().ok()?;
    if words.next().is_some() || keys == 0 || keys > 64 || length > VALUE_LIMIT {
        return None;
    }
    if threshold == 0 || threshold > 512 {
        return None;
    }
    Some(Case {
        keys,
        length,
        threshold,
    })
}

/// The value that the keys share. No two fragments of it begin alike.
pub fn value_of(alloc: Global, case: Case) -> Result<Vec<u8>, AllocError>
    ensures { IfOk result (λ v. vec_len v ≡ case.length) }
{
    let mut bytes = Vec::with_capacity(alloc, case.length)?;
    for i in 0..case.length {
        bytes.push(((case.length + i) % 251) as u8)?;
    }
    Ok(bytes)
}
