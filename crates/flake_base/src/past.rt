ghost use Rattle.std.specs.Prelude.{◌≡◌, ◌++◌, List, ℕ, []};
ghost use Rattle.std.specs.Option.{option_map_or};
ghost use Rattle.std.specs.Borrow.{ftrue};

use std::marker::Model;

/// All bytes that went by, in order. Only contracts see them: they take no memory and no time.
#[derive(Debug, Drop)]
pub struct Past {
    pub ghost bytes: { List ℕ },
}

impl Model for Past {
    ghost also_owns = { λ _. ftrue };
}

// It owns nothing.
unsafe impl Send for Past {}

/// A piece that goes by, and what went by before, if anything did.
#[derive(Drop)]
struct Passing<'a, 'b> {
    before: Option<&'a Past>,
    piece: &'b [u8],
}

impl Past {
    pub fn new() -> Self
        ensures { result.bytes ≡ [] }
    {
        Past::of(&[])
    }

    /// These bytes went by, and no others.
    pub fn of(bytes: &[u8]) -> Self
        ensures { result.bytes ≡ bytes.now }
    {
        Past::with(&Passing {
            before: None,
            piece: bytes,
        })
    }

    /// These bytes go by too.
    #[inline(always)]
    pub fn add(&mut self, bytes: &[u8])
        ensures { self.new.bytes ≡ self.old.bytes ++ bytes.now }
    {
        let before = Some(&*self);
        *self = Past::with(&Passing {
            before,
            piece: bytes,
        });
    }

    // The one place where a past is made.
    #[inline(always)]
    fn with(_passing: &Passing<'_, '_>) -> Self
        ensures { result.bytes
            ≡ option_map_or (λ past. past.now.bytes) _passing.now.before [] ++ _passing.now.piece.now }
    {
        Past {}
    }
}
