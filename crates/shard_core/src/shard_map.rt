//! One shard's values.
ghost use Rattle.std.specs.Prelude.{◌≡◌, ◌+◌, ◌<◌, ◌≤◌, ℕ, List, [], length, map, IfOk, OnErr};
ghost use Rattle.std.specs.FinMap as finite;
ghost use Rattle.std.specs.List.{IsDistinct};
ghost use Rattle.view_sums.specs.Total.{Each};
ghost use Rattle.pin_core.specs.Buffers.{buffers};
ghost use Rattle.flake_model.specs.Store.{Store};
ghost use Rattle.flake_model.specs.Deed.{Places};
ghost use Rattle.frag_value.specs.Values.{IsFilled, unmarked_view};
ghost use Rattle.frag_value.specs.Pins.{all_frags, pairs_shown, pin_holds, pinning};
ghost use Rattle.frag_value.specs.Fragments.{frags_limit};
ghost use Rattle.flake_base.specs.Limits.{value_limit};
ghost use Rattle.pinned_pool.specs.Named.{IsSeat};
ghost use Rattle.shard_core.specs.Done.{DoesPart, is_taking, is_ranged};
ghost use Rattle.shard_core.specs.Keys.{key_eq};
ghost use Rattle.shard_core.specs.Kept.{IsKept, Agrees, value_at};
ghost use Rattle.shard_core.specs.ShardMaps.{IsBare, keys_on};
ghost use Rattle.shard_core.specs.Takers.{MayTake, KeepsTaker, taking};
ghost use Rattle.shard_part.specs.Parts.{operation_of};

use crate::adding::add;
use crate::answer::PartAnswer;
use crate::kept::Kept;
use crate::pinning::pin_values;
use crate::reading::{exists, get, get_range, size};
use crate::setting::del;
use flake_base::{Memory, Segs};
use frag_value::{PinnedPair, PlaceError, Taker};
use indexmap::IndexMap;
use pinned_pool::{ClaimStart, Pool, PoolName, PoolSeat};
use shard_part::When::{Always, IfMissing, IfPresent};
use shard_part::{Part, PartOp};
use std::alloc::Global;
use std::marker::Model;

/// A shard's values, and the seat that has exactly the holds of their fragments. Contracts see both.
#[derive(Drop)]
pub struct ShardMap<P: PoolName> {
    kept: Kept<P>,
}

impl<P: PoolName> Model for ShardMap<P> {
    ghost use Rattle.shard_core.specs.Kept.{IsKept};
    ghost use Rattle.shard_core.specs.ShardMaps.{ShardMapView};

    ghost Value = { ShardMapView };

    ghost view = { λ s. record { entries = s.kept.values.entries; seat = s.kept.own } };

    ghost invariant = { λ s. IsKept P.sizes s.kept.values.entries s.kept.own };
}

impl<P: PoolName> ShardMap<P> {
    /// With no values, over a seat with one credit and no holds.
    pub fn new(alloc: Global, seat: PoolSeat<P>) -> Self
        requires { IsBare seat }
        ensures { result ≡ record { entries = []; seat = seat } }
    {
        ShardMap {
            kept: Kept {
                start: ClaimStart::FIRST,
                alloc,
                own: seat,
                values: IndexMap::new(alloc),
            },
        }
    }

    /// What its values need is claimed from here on, until another start is said.
    #[inline(always)]
    pub fn claim_from(&mut self, start: ClaimStart)
        ensures { self.new ≡ self.old }
    {
        self.kept.start = start;
    }

    /// Does a part. New values are claimed and filled on the payer's seat and then moved here, and old ones go from
    /// here once the new one stands. After a refusal nothing has changed but the payer's claims and looks.
    pub fn apply<T: Taker<P>>(
        &mut self,
        pool: &Pool<P>,
        payer: &mut PoolSeat<P>,
        part: &Part<'_>,
        taker: &mut T,
        stored: &mut Segs,
    ) -> Result<PartAnswer, PlaceError>
        requires few { length part.now.value.now ≤ value_limit }
        requires credits { 1 < payer.old.credits }
        requires spare { frags_limit ≤ stored.old.spare }
        requires taker { let op = operation_of part.now in
            MayTake (is_taking op) (is_ranged op) (taking T.Taker taker.old) }
        ensures part { DoesPart P.sizes (operation_of part.now) result
            (record { shard = self.old; payer = payer.old; stored = stored.old.items; taken = T.taken taker.old })
            (record { shard = self.new; payer = payer.new; stored = stored.new.items; taken = T.taken taker.new }) }
        ensures spare { stored.old.spare + length stored.old.items ≤ stored.new.spare + length stored.new.items }
        ensures taker { let range = is_ranged (operation_of part.now) in
            KeepsTaker range (taking T.Taker taker.old) (taking T.Taker taker.new) }
    {
        match part.op {
            PartOp::Get => {
                let found = self.kept.values.get_index_of(part.key);
                Ok(get(pool, &mut self.kept, part.key, found, taker))
            }
            PartOp::Set => self
                .kept
                .set(pool, payer, part, Always, false, taker, stored),
            PartOp::SetNx => self
                .kept
                .set(pool, payer, part, IfMissing, false, taker, stored),
            PartOp::SetXx => self
                .kept
                .set(pool, payer, part, IfPresent, false, taker, stored),
            PartOp::SetGet => self
                .kept
                .set(pool, payer, part, Always, true, taker, stored),
            PartOp::SetNxGet => self
                .kept
                .set(pool, payer, part, IfMissing, true, taker, stored),
            PartOp::SetXxGet => self
                .kept
                .set(pool, payer, part, IfPresent, true, taker, stored),
            PartOp::Append => add(pool, &mut self.kept, payer, part.key, part.value, stored),
            PartOp::Del => Ok(PartAnswer::Did(del(pool, &mut self.kept, part.key))),
            PartOp::Exists => Ok(PartAnswer::Did(exists(&self.kept, part.key))),
            PartOp::StrLen => Ok(PartAnswer::Length(size(&self.kept, part.key))),
            PartOp::GetRange { start, end } => {
                let answer = get_range(pool, &mut self.kept, part.key, start, end, taker);
                Ok(answer)
            }
        }
    }

    /// All values under pinned holds of the taker, with their keys, in ascending byte order of the keys. It takes all
    /// memory before the first pin, and after want of memory nothing has changed.
    pub fn pin_all(
        &mut self,
        pool: &Pool<P>,
        taker: &mut PoolSeat<P>,
    ) -> Result<Vec<PinnedPair<P>>, Memory>
        requires { buffers P.sizes + 4 ≤ taker.old.credits }
        ensures same { (key : List ℕ) → value_at key self.new.entries ≡ value_at key self.old.entries }
        ensures seat { unmarked_view self.new.seat ≡ unmarked_view self.old.seat }
        ensures pins { IfOk result (λ pairs.
            taker.new ≡ pinning (pin_holds self.old.seat.holds (all_frags pairs.items)) taker.old) }
        ensures few { IfOk result (λ pairs. length (all_frags pairs.items) ≤ buffers P.sizes) }
        ensures filled { IfOk result (λ pairs. Each (IsFilled self.old.seat.holds) (all_frags pairs.items)) }
        ensures pairs { IfOk result (λ pairs. (s : Store) (p : Places)
            → Agrees P.sizes self.old.entries self.old.seat.holds s p
            → pairs_shown self.old.seat.holds pairs.items ≡ finite.entries s) }
        ensures memory { OnErr result ((taker.new ≡ taker.old) × (self.new.seat ≡ self.old.seat)) }
    {
        pin_values(pool, &mut self.kept, taker)
    }

    /// Does nothing, and tells a proof what is true of every shard_map.
    pub fn is_shard_map(&self)
        ensures kept { IsKept P.sizes self.now.entries self.now.seat }
        ensures seat { IsSeat P.sizes self.now.seat }
        ensures distinct { IsDistinct key_eq (keys_on self.now.entries) }
    {
        self.kept.own.is_seat();
        let _ = self.kept.values.len();
    }

    /// The seat with all holds. The values' names of them go.
    pub fn into_seat(self) -> PoolSeat<P>
        ensures { result ≡ self.seat }
    {
        let ShardMap { kept } = self;
        let Kept {
            start: _,
            alloc: _,
            own,
            values: _,
        } = kept;
        own
    }
}
