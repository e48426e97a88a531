//! All values under pinned holds.
ghost use Rattle.std.specs.Prelude.{◌≡◌, ◌+◌, ◌≤◌, ℕ, List, [], length, vec_capacity, IfOk, OnErr};
ghost use Rattle.std.specs.FinMap as finite;
ghost use Rattle.view_sums.specs.Total.{Each};
ghost use Rattle.pin_core.specs.Buffers.{buffers};
ghost use Rattle.flake_model.specs.Store.{Store};
ghost use Rattle.flake_model.specs.Deed.{Places};
ghost use Rattle.frag_value.specs.Values.{IsFilled, unmarked_view};
ghost use Rattle.frag_value.specs.Pins.{all_frags, pairs_shown, pin_holds, pinning};
ghost use Rattle.shard_core.specs.Kept.{IsKept, Agrees, value_at};
ghost use Rattle.shard_core.specs.Rooms.{FitRooms, key_frags};

use crate::kept::{Kept, Values, entry_at};
use flake_base::Memory;
use frag_value::{PairRoom, PinnedPair};
use key_order::sort_entries;
use pinned_pool::{Pool, PoolName, PoolSeat};
use std::alloc::Global;
use std::collections::VecDeque;

// Room for each entry.
fn rooms_for<P: PoolName>(
    alloc: Global,
    values: &Values<P>,
) -> Result<VecDeque<PairRoom<P>>, Memory>
    ensures { IfOk result (λ rooms. FitRooms rooms.items values.now.entries) }
{
    let mut rooms = VecDeque::with_capacity(alloc, values.len())?;
    for i in 0..values.len() {
        let (key, value) = entry_at(values, i);
        let room = PairRoom::new(alloc, key.as_slice(), value.count())?;
        rooms.push_back_reserved(room);
    }
    Ok(rooms)
}

// Pins the value of each entry in its room.
fn pin_each<P: PoolName>(
    pool: &Pool<P>,
    own: &mut PoolSeat<P>,
    values: &Values<P>,
    taker: &mut PoolSeat<P>,
    rooms: VecDeque<PairRoom<P>>,
    room: Vec<PinnedPair<P>>,
) -> Vec<PinnedPair<P>>
    requires kept { IsKept P.sizes values.now.entries own.old }
    requires rooms { FitRooms rooms.items values.now.entries }
    requires room { (room.items ≡ []) × (length values.now.entries ≤ vec_capacity room) }
    requires credits { buffers P.sizes + 4 ≤ taker.old.credits }
    ensures pairs { result.items ≡ key_frags values.now.entries }
    ensures few { length (all_frags (key_frags values.now.entries)) ≤ buffers P.sizes }
    ensures owner { unmarked_view own.new ≡ unmarked_view own.old }
    ensures taker { taker.new
        ≡ pinning (pin_holds own.old.holds (all_frags (key_frags values.now.entries))) taker.old }
{
    own.is_seat();
    let mut rooms = rooms;
    let mut pairs = room;
    for i in 0..values.len() {
        let (_, value) = entry_at(values, i);
        let Some(room) = rooms.pop_front() else {
            unreachable!()
        };
        pairs.push_reserved(room.pin(pool, own, taker, value));
    }
    pairs
}

/// Pins all values. All memory is taken before the first pin.
pub(crate) fn pin_values<P: PoolName>(
    pool: &Pool<P>,
    kept: &mut Kept<P>,
    taker: &mut PoolSeat<P>,
) -> Result<Vec<PinnedPair<P>>, Memory>
    requires kept { IsKept P.sizes kept.old.values.entries kept.old.own }
    requires credits { buffers P.sizes + 4 ≤ taker.old.credits }
    ensures kept { IsKept P.sizes kept.new.values.entries kept.new.own }
    ensures same { (key : List ℕ) → value_at key kept.new.values.entries ≡ value_at key kept.old.values.entries }
    ensures seat { unmarked_view kept.new.own ≡ unmarked_view kept.old.own }
    ensures pins { IfOk result (λ pairs.
        taker.new ≡ pinning (pin_holds kept.old.own.holds (all_frags pairs.items)) taker.old) }
    ensures few { IfOk result (λ pairs. length (all_frags pairs.items) ≤ buffers P.sizes) }
    ensures filled { IfOk result (λ pairs. Each (IsFilled kept.old.own.holds) (all_frags pairs.items)) }
    ensures pairs { IfOk result (λ pairs. (s : Store) (p : Places)
        → Agrees P.sizes kept.old.values.entries kept.old.own.holds s p
        → pairs_shown kept.old.own.holds pairs.items ≡ finite.entries s) }
    ensures memory { OnErr result ((taker.new ≡ taker.old) × (kept.new.own ≡ kept.old.own)) }
{
    sort_entries(&mut kept.values)?;
    let rooms = rooms_for(kept.alloc, &kept.values)?;
    let room = Vec::with_capacity(kept.alloc, kept.values.len())?;
    Ok(pin_each(pool, &mut kept.own, &kept.values, taker, rooms, room))
}
