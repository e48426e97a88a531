ghost use Rattle.std.specs.Prelude.{◌≡◌, ◌+◌, ◌<◌, ◌≤◌, ◌↔◌, ◌++◌, ◌∷◌, ◌==◌, [], length, slice_get, Some};
ghost use Rattle.std.specs.Prelude.{IfOk, IsOk, OnOk, OnErr, IfErr, IfSome, IfNone, IsNone};

use crate::kind::{SeatKind, Sessions, Shards};
use crate::name::BookName;
use crate::place::Place;
use crate::seat::{BookSeat, SeatRef};
use flake_base::{Memory, Sequence};
use std::alloc::Global;
use std::marker::{Model, PhantomData};

/// Seats of one kind. Contracts see what each shows, in order, and how many more fit.
#[derive(Drop)]
pub struct SeatList<K: SeatKind, N: BookName> {
    pub(crate) places: Sequence<Place>,
    pub(crate) name: PhantomData<(K, N)>,
}

impl<K: SeatKind, N: BookName> Model for SeatList<K, N> {
    ghost use Rattle.std.specs.Prelude.{map};
    ghost use Rattle.flake_base.specs.Roomy.{Roomy};
    ghost use Rattle.view_sums.specs.Total.{Each};

    ghost Value = { Roomy K };

    ghost view = { λ s. record { items = map K.shown s.places.items; spare = s.places.spare } };

    ghost invariant = { λ s. Each (K.holds N.table N.sizes) s.places.items };
}

/// Seats of shards.
pub type ShardSeats<N> = SeatList<Shards, N>;

/// Seats of sessions.
pub type SessionSeats<N> = SeatList<Sessions, N>;

impl<K: SeatKind, N: BookName> SeatList<K, N> {
    /// An empty list with room for `n` seats.
    pub fn with_room(alloc: Global, n: usize) -> Result<Self, Memory>
        ensures empty { IfOk result (λ list. list.items ≡ []) }
        ensures room { IfOk result (λ list. n ≤ list.spare) }
    {
        let places = Sequence::with_room(alloc, n)?;
        Ok(SeatList {
            places,
            name: PhantomData,
        })
    }

    /// The seat goes last, or is handed back.
    pub fn push(&mut self, seat: BookSeat<K, N>) -> Result<(), (Memory, BookSeat<K, N>)>
        ensures ok { OnOk result (self.new.items ≡ self.old.items ++ seat ∷ []) }
        ensures err { IfErr result (λ e. (e.1 ≡ seat) × (self.new.items ≡ self.old.items)) }

        // It takes at most one of the room, and fails only where there is none.
        ensures spare { self.old.spare ≤ self.new.spare + 1 }
        ensures sure { 0 < self.old.spare → IsOk result }
        ensures full { OnErr result (self.old.spare ≡ 0) }
    {
        let BookSeat { place, name } = seat;
        match self.places.push(place) {
            Ok(()) => Ok(()),
            Err((memory, place)) => Err((memory, BookSeat { place, name })),
        }
    }

    /// Takes the last seat out.
    pub fn pop(&mut self) -> Option<BookSeat<K, N>>
        ensures some { IfSome result (λ seat. self.old.items ≡ self.new.items ++ seat ∷ []) }
        ensures none { IsNone result ↔ (self.old.items ≡ []) }
        ensures rest { IfNone result (self.new.items ≡ self.old.items) }
        ensures spare { self.old.spare ≤ self.new.spare }
    {
        let place = self.places.pop()?;
        Some(BookSeat {
            place,
            name: PhantomData,
        })
    }

    pub fn len(&self) -> usize
        ensures { result ≡ length self.now.items }
    {
        self.places.len()
    }

    pub fn is_empty(&self) -> bool
        ensures { result ≡ (length self.now.items == 0) }
    {
        self.places.is_empty()
    }

    pub fn get(&self, i: usize) -> SeatRef<'_, K, N>
        requires { i < length self.now.items }
        ensures { slice_get self.now.items i ≡ Some result }
    {
        SeatRef {
            place: self.places.get(i),
            name: PhantomData,
        }
    }
}
