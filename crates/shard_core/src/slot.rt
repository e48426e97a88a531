//! Where a map has a value.
ghost use Rattle.std.specs.Prelude.{◌≡◌};

use frag_value::Value;
use pinned_pool::PoolName;
use std::marker::Model;
use std::mem::replace;

/// A value with room behind it, so that no two values of a map are in one line of 64 bytes: threads that put values in
/// the place of two neighbours would take the line from each other. Contracts see the value.
#[derive(Drop)]
pub(crate) struct Slot<P: PoolName> {
    value: Value<P>,
    apart: [u64; 6],
}

impl<P: PoolName> Model for Slot<P> {
    ghost use Rattle.frag_value.specs.Values.{Frags};

    ghost Value = { Frags };

    ghost view = { λ s. s.value };
}

impl<P: PoolName> Slot<P> {
    pub(crate) fn new(value: Value<P>) -> Slot<P>
        ensures { result ≡ value }
    {
        Slot {
            value,
            apart: [0; 6],
        }
    }

    #[inline(always)]
    pub(crate) fn value(&self) -> &Value<P>
        ensures { result.now ≡ self.now }
    {
        &self.value
    }

    /// The value goes into the slot, and the one that it had comes out.
    #[inline(always)]
    pub(crate) fn exchange(&mut self, value: Value<P>) -> Value<P>
        ensures old { result ≡ self.old }
        ensures new { self.new ≡ value }
    {
        replace(&mut self.value, value)
    }

    #[inline(always)]
    pub(crate) fn into_value(self) -> Value<P>
        ensures { result ≡ self }
    {
        let Slot { value, apart: _ } = self;
        value
    }
}
