ghost use Rattle.std.specs.Prelude.{◌≡◌, ◌<◌, ◌∷◌, [], length, slice_get, Some, IfSome, IsNone};
ghost use Rattle.frag_value.specs.Values.{size_of};
ghost use Rattle.frag_value.specs.Pins.{pin_key};

use crate::frag::Frag;
use pinned_pool::PoolName;
use std::marker::Model;

/// The fragments of a value in order, each under a pinned hold. Contracts see the buffer and the length of each.
#[derive(Drop)]
pub struct Pinned<N: PoolName> {
    pub(crate) frags: Vec<Frag<N>>,
    pub(crate) len: u64,
}

impl<N: PoolName> Model for Pinned<N> {
    ghost use Rattle.std.specs.Prelude.{◌≡◌, ℕ, List, map};
    ghost use Rattle.view_sums.specs.Total.{Each};
    ghost use Rattle.frag_value.specs.Values.{size_of};
    ghost use Rattle.frag_value.specs.Pins.{pin_key};

    ghost Value = { List (ℕ × ℕ) };

    ghost view = { λ p. map (λ f. (f.hold.buffer, f.len)) p.frags.items };

    ghost invariant = { λ p. Each (λ f. f.hold ≡ pin_key f.hold.buffer) p.frags.items
        × (size_of (map (λ f. (f.hold.buffer, f.len)) p.frags.items) ≡ p.len) };
}

impl<N: PoolName> Pinned<N> {
    /// How many bytes it has.
    pub fn len(&self) -> u64
        ensures { result ≡ size_of self.now }
    {
        self.len
    }

    /// How many fragments it has.
    pub fn count(&self) -> usize
        ensures { result ≡ length self.now }
    {
        self.frags.len()
    }

    /// The fragment at the place, from 0.
    pub fn frag(&self, i: usize) -> &Frag<N>
        requires { i < length self.now }
        ensures part { slice_get self.now i ≡ Some ((result.now.hold.buffer, result.now.len)) }
        ensures hold { result.now.hold ≡ pin_key result.now.hold.buffer }
    {
        &self.frags[i]
    }

    /// Takes the first fragment out, with its hold.
    pub(crate) fn next_frag(&mut self) -> Option<Frag<N>>
        ensures some { IfSome result (λ f. (self.old ≡ (f.hold.buffer, f.len) ∷ self.new)
            × (f.hold ≡ pin_key f.hold.buffer)) }
        ensures none { IsNone result → (self.old ≡ []) }
    {
        if self.frags.is_empty() {
            return None;
        }
        let frag = self.frags.remove(0);
        self.len -= u64::from(frag.len);
        Some(frag)
    }
}
