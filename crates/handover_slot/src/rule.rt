// The rule of a place's table, which has one word and one slot.
use atomic_table::TableRule;
use std::marker::PhantomData;

/// What is true of each value that lies in a place with a key of this type.
pub trait Fits<K> {
    ghost fits: { K → Self → Type 0 };
}

pub struct Kept<T> {
    value: PhantomData<T>,
}

impl<K, T: Fits<K>> TableRule<Option<T>, K, K> for Kept<T> {
    ghost use Rattle.handover_slot.specs.Lying.{IsKept};

    ghost holds = { λ key s. IsKept (T.fits key) s.words s.homes };

    ghost first = { λ key. key };
}

/// No value was put here yet.
pub(crate) const NEW: u64 = 0;

/// The value is lent.
pub(crate) const LENT: u64 = 1;

/// The value lies here.
pub(crate) const HOME: u64 = 2;
