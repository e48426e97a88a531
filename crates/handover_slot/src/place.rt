// The place, and who has its value.
ghost use Rattle.std.specs.Prelude.{◌≡◌, IfOk, IfSome};
ghost use Rattle.handover_slot.specs.Lying.{IsLoan};

use crate::plays::{Come, Give, Take};
use crate::rule::{Fits, HOME, Kept, LENT, NEW};
use atomic_table::{Seat, Table};
use std::alloc::{AllocError, Global};
use std::marker::Model;

/// A place for one value. Contracts see it as its key.
pub struct HandoverSlot<T: Fits<K>, K> {
    table: Table<Option<T>, K, K, Kept<T>, Global>,
}

impl<T: Fits<K>, K> Model for HandoverSlot<T, K> {
    ghost Value = { K };

    ghost view = { λ place. place.table.shared.key };

    ghost invariant = { λ place. (place.table.shared.table_id.words ≡ 1) × (place.table.shared.table_id.slots ≡ 1) };
}

/// The right to give a value to a place that lent its own, or that had none yet. Contracts see it as the key of the
/// place.
pub struct Loan<'a, T: Fits<K>, K> {
    table: &'a Table<Option<T>, K, K, Kept<T>, Global>,
    seat: Seat<Option<T>, K>,
}

impl<'a, T: Fits<K>, K> Model for Loan<'a, T, K> {
    ghost Value = { K };

    ghost view = { λ loan. loan.table.now.shared.key };

    ghost invariant = { λ loan. IsLoan loan.table.now.shared.table_id loan.seat.table_id loan.seat.me };
}

impl<T: Fits<K> + Drop, K> HandoverSlot<T, K> {
    /// A place with no value.
    pub fn new(alloc: Global, key: &K) -> Result<Self, AllocError>
        ensures { IfOk result (λ place. place ≡ key.now) }
    {
        let (table, _) = Table::vacant(alloc, &[NEW], 1, key)?;
        Ok(HandoverSlot { table })
    }

    /// The right to put the first value here, which only the first call gets, before any other.
    pub fn first(&self) -> Option<Loan<'_, T, K>>
        ensures { IfSome result (λ loan. loan ≡ self.now) }
    {
        let table = &self.table;
        let (seen, mut seat) = table.shared.load_new_seat::<Come>(0);
        if seen != NEW {
            return None;
        }
        let found = table
            .shared
            .compare_exchange::<Take>(&mut seat, 0, NEW, LENT);
        if found != NEW {
            return None;
        }
        Some(Loan { table, seat })
    }

    /// Takes the value, if it is there.
    pub fn take(&self) -> Option<(T, Loan<'_, T, K>)>
        ensures { IfSome result (λ taken. T.fits self.now taken.0 × (taken.1 ≡ self.now)) }
    {
        let table = &self.table;
        let (seen, mut seat) = table.shared.load_new_seat::<Come>(0);
        if seen != HOME {
            return None;
        }
        let found = table
            .shared
            .compare_exchange::<Take>(&mut seat, 0, HOME, LENT);
        if found != HOME {
            return None;
        }
        let value = table.shared.exchange(&mut seat, 0, None).unwrap();
        Some((value, Loan { table, seat }))
    }
}

impl<'a, T: Fits<K> + Drop, K> Loan<'a, T, K> {
    /// From now on the value can be taken again.
    pub fn give(self, value: T)
        requires { T.fits self value }
    {
        let Loan { table, mut seat } = self;
        drop(table.shared.exchange(&mut seat, 0, Some(value)));
        table.shared.store::<Give>(&mut seat, 0, HOME);
    }
}

/// A loan that ends without a value leaves its place empty for ever.
impl<'a, T: Fits<K>, K> Drop for Loan<'a, T, K> {
    fn drop(self) {
        let Self { table: _, seat: _ } = self;
    }
}

impl<T: Fits<K> + Drop, K> Drop for HandoverSlot<T, K> {
    fn drop(self) {
        let Self { table } = self;
        drop(table);
    }
}
