ghost use Rattle.std.specs.Prelude.{◌≡◌, ◌<◌, ◌≤◌, ◌+◌, ◌↔◌, ◌++◌, [], ◌∷◌, length, slice_get, slice_index_or, Some};
ghost use Rattle.std.specs.Prelude.{IfOk, IsOk, IsNone, OnOk, OnErr, IfErr, IfSome, IfNone};

use crate::name::PoolName;
use crate::seat::PoolSeat;
use pin_core::Memory;
use std::alloc::Global;
use std::marker::Model;

/// Seats in a row. Contracts see what each of them has, and `spare`, how many more fit without want of memory.
#[derive(Drop)]
pub struct PoolSeats<N: PoolName> {
    seats: Vec<PoolSeat<N>>,
}

impl<N: PoolName> Model for PoolSeats<N> {
    ghost use Rattle.std.specs.Prelude.{◌-◌, vec_len, vec_capacity};
    ghost use Rattle.pinned_pool.specs.Seats.{SeatList};

    ghost Value = { SeatList };

    ghost view = { λ s. record { items = s.seats.items; spare = vec_capacity s.seats - vec_len s.seats } };
}

impl<N: PoolName> PoolSeats<N> {
    /// No seats, with room for `n`.
    pub fn with_room(alloc: Global, n: usize) -> Result<Self, Memory>
        ensures empty { IfOk result (λ list. list.items ≡ []) }
        ensures room { IfOk result (λ list. n ≤ list.spare) }
    {
        match Vec::with_capacity(alloc, n) {
            Ok(seats) => Ok(PoolSeats { seats }),
            Err(_) => Err(Memory),
        }
    }

    /// Puts a seat at the end, or hands it back.
    pub fn push(&mut self, seat: PoolSeat<N>) -> Result<(), (Memory, PoolSeat<N>)>
        ensures ok { OnOk result (self.new.items ≡ self.old.items ++ seat ∷ []) }
        ensures err { IfErr result (λ e. (e.1 ≡ seat) × (self.new.items ≡ self.old.items)) }

        // It takes at most one of the room, and fails only where there is none.
        ensures spare { self.old.spare ≤ self.new.spare + 1 }
        ensures sure { 0 < self.old.spare → IsOk result }
        ensures full { OnErr result (self.old.spare ≡ 0) }
    {
        match self.seats.push(seat) {
            Ok(()) => Ok(()),
            Err(failed) => Err((Memory, failed.value)),
        }
    }

    /// Takes the last seat out.
    pub fn pop(&mut self) -> Option<PoolSeat<N>>
        ensures some { IfSome result (λ seat. self.old.items ≡ self.new.items ++ seat ∷ []) }
        ensures none { IsNone result ↔ (self.old.items ≡ []) }
        ensures rest { IfNone result (self.new.items ≡ self.old.items) }
        ensures spare { self.old.spare ≤ self.new.spare }
    {
        self.seats.pop()
    }

    pub fn len(&self) -> usize
        ensures { result ≡ length self.now.items }
    {
        self.seats.len()
    }

    pub fn get(&self, i: usize) -> &PoolSeat<N>
        requires { i < length self.now.items }
        ensures item { slice_get self.now.items i ≡ Some result.now }
        ensures value { result.now ≡ slice_index_or self.now.items i result.now }
    {
        &self.seats[i]
    }
}
