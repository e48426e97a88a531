ghost use Rattle.std.specs.Prelude.{◌≡◌, ◌<◌, ◌↔◌, [], ◌∷◌, ◌++◌, length, slice_get, IfSome, IfNone, IsNone};
ghost use Rattle.frag_value.specs.Values.{size_of, IsValue};
ghost use Rattle.pinned_pool.specs.Moves.{loose_key};

use pinned_pool::{Hold, NamesHolds, PoolName};
use std::alloc::Global;
use std::marker::Model;

/// Bytes at the beginning of a buffer.
#[derive(Drop)]
pub struct Frag<N: PoolName> {
    pub hold: Hold<N>,
    pub len: u32,
}

/// A value's fragments in order. Contracts see the buffer and the length of each.
#[derive(Drop)]
pub struct Value<N: PoolName> {
    // A value of one fragment takes no memory.
    pub(crate) first: Option<Frag<N>>,
    pub(crate) rest: Vec<Frag<N>>,
    pub(crate) len: u64,
}

impl<N: PoolName> Model for Value<N> {
    ghost use Rattle.std.specs.Prelude.{◌≡◌, ℕ, List, [], map, IsNone};
    ghost use Rattle.std.specs.List.{cons_option};
    ghost use Rattle.view_sums.specs.Total.{Each};
    ghost use Rattle.frag_value.specs.Values.{IsValueOf};
    ghost use Rattle.pinned_pool.specs.Moves.{loose_key};

    ghost Value = { List (ℕ × ℕ) };

    ghost view = { λ v. map (λ f. (f.hold.buffer, f.len)) (cons_option v.first v.rest.items) };

    ghost invariant = { λ v. Each (λ f. f.hold ≡ loose_key f.hold.buffer) (cons_option v.first v.rest.items)
        × IsValueOf N.sizes v.len (map (λ f. (f.hold.buffer, f.len)) (cons_option v.first v.rest.items))
        × (IsNone v.first → v.rest.items ≡ []) };
}

impl<N: PoolName> Value<N> {
    /// No bytes, in no fragments. It takes no memory.
    pub fn empty(alloc: Global) -> Self
        ensures { result ≡ [] }
    {
        Value {
            first: None,
            rest: Vec::new(alloc),
            len: 0,
        }
    }

    /// How many bytes it has.
    pub fn len(&self) -> u64
        ensures size { result ≡ size_of self.now }
        ensures value { IsValue N.sizes self.now }
    {
        self.len
    }

    /// How many fragments it has.
    pub fn count(&self) -> usize
        ensures { result ≡ length self.now }
    {
        usize::from(self.first.is_some()) + self.rest.len()
    }

    /// The fragment at the place, from 0.
    pub fn frag(&self, i: usize) -> &Frag<N>
        requires { i < length self.now }
        ensures part { slice_get self.now i ≡ Some ((result.now.hold.buffer, result.now.len)) }
        ensures hold { result.now.hold ≡ loose_key result.now.hold.buffer }
    {
        let Some(first) = &self.first else {
            unreachable!()
        };
        // Place 0 wraps to a place that no list has. A test of it would make LLVM peel the loops over the fragments.
        match self.rest.get(i.wrapping_sub(1)) {
            Some(frag) => frag,
            None => first,
        }
    }

    /// Takes the first fragment out, with its hold.
    pub fn next_frag(&mut self) -> Option<Frag<N>>
        ensures some { IfSome result (λ f. (self.old ≡ (f.hold.buffer, f.len) ∷ self.new)
            × (f.hold ≡ loose_key f.hold.buffer)) }
        ensures none { IsNone result ↔ (self.old ≡ []) }
        ensures rest { IfNone result (self.new ≡ self.old) }
    {
        let frag = self.first.take()?;
        if !self.rest.is_empty() {
            self.first = Some(self.rest.remove(0));
        }
        self.len -= u64::from(frag.len);
        Some(frag)
    }

    /// Takes the last fragment out, with its hold.
    pub(crate) fn last_frag(&mut self) -> Option<Frag<N>>
        ensures some { IfSome result (λ f. (self.old ≡ self.new ++ (f.hold.buffer, f.len) ∷ [])
            × (f.hold ≡ loose_key f.hold.buffer)) }
        ensures none { IsNone result → (self.old ≡ []) }
    {
        let frag = match self.rest.pop() {
            Some(frag) => frag,
            None => self.first.take()?,
        };
        self.len -= u64::from(frag.len);
        Some(frag)
    }

    /// Does nothing, and tells a proof what is true of every value.
    pub fn is_value(&self)
        ensures { IsValue N.sizes self.now }
    {
        let _ = &self.len;
    }
}

impl<'a, N: PoolName> NamesHolds for &'a Frag<N> {
    ghost use Rattle.std.specs.Prelude.{[], ◌∷◌};

    ghost keys = { λ frag. frag.now.hold ∷ [] };
}

impl<'a, N: PoolName> NamesHolds for &'a Value<N> {
    ghost use Rattle.frag_value.specs.Values.{keys_of};

    ghost keys = { λ value. keys_of value.now };
}
