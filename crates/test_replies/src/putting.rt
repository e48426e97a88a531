//! A wire in memory that counts its flushes, and bytes for it.
ghost use Rattle.std.specs.Prelude.{⊤};

use any_wire::WireCalls;
use flake_base::{Fails, Memory, MemoryWire, Wire};
use std::alloc::Global;

/// What a wire was given. Its flushes fail, or none does.
#[derive(Drop)]
pub struct Counted {
    pub wire: MemoryWire,
    pub flushes: u32,
    pub holds_back: bool,
}

impl Counted {
    /// The put of this number fails.
    pub fn new(
        alloc: Global,
        room: usize,
        fails: Option<u64>,
        holds_back: bool,
    ) -> Result<Counted, Memory> {
        let mut numbers = Fails::with_room(alloc, 1)?;
        if let Some(number) = fails {
            if numbers.push(number).is_err() {
                return Err(Memory);
            }
        }
        Ok(Counted {
            wire: MemoryWire::new(alloc, room, numbers)?,
            flushes: 0,
            holds_back,
        })
    }
}

/// How bytes come onto a counted wire; nothing is said of it.
#[derive(Drop)]
pub struct Counting;

impl WireCalls<Counted> for Counting {
    ghost can_put = { λ _. ⊤ };

    ghost can_flush = { λ _. ⊤ };

    ghost put_may = { λ _ _ _ _. ⊤ };

    ghost flush_may = { λ _ _ _. ⊤ };

    fn put(&self, counted: Counted, piece: &[u8]) -> (Counted, bool) {
        let mut counted = counted;
        if piece.is_empty() {
            return (counted, false);
        }
        let failed = counted.wire.put(piece).is_err();
        (counted, failed)
    }

    fn flush(&self, counted: Counted) -> (Counted, bool) {
        let mut counted = counted;
        counted.flushes = counted.flushes.saturating_add(1);
        let failed = counted.wire.flush().is_err() || counted.holds_back;
        (counted, failed)
    }
}

/// So many bytes, which repeat after 251.
pub fn sample(alloc: Global, len: usize) -> Result<Vec<u8>, Memory> {
    let mut bytes = Vec::new(alloc);
    for k in 0..len {
        bytes.push((k % 251) as u8)?;
    }
    Ok(bytes)
}
