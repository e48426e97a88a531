// The atomic steps, each a short function. The code of no other file of this crate names the part of the table that
// threads share (only ghost clauses do, where a pool is named), so what a call does to it is what these functions tell.
ghost use Rattle.std.specs.Prelude.{
  ◌≡◌,
  ℕ,
  ◌<◌,
  ◌≤◌,
  ◌==◌,
  true,
  MatchBool,
  length,
  slice_index,
};
ghost use Rattle.view_sums.specs.Total.{total};
ghost use Rattle.pin_core.specs.Buffers.{buffers, buffer_words};
ghost use Rattle.pin_core.specs.Holding.{at, sole_at};
ghost use Rattle.pinned_pool.specs.Moves.{
  meant_count,
  front_of,
  won,
  lost,
  put,
  pin,
  unpin,
  split_old,
  split_new,
  joined_views,
};
ghost use Rattle.pinned_pool.specs.Rule.{word_at};
ghost use Rattle.pinned_pool.specs.Views.{IsLoose, OneFront};

use crate::hold::Hold;
use crate::name::PoolName;
use crate::naming::NamesHolds;
use crate::plays::{
    Claim, Gift, JoinSeats, Load, Look, Meant, Pin, Place, Put, SplitSeat, TellRule, Unpin,
};
use crate::pool::Pool;
use crate::seat::PoolSeat;
use std::marker::PhantomData;

impl<N: PoolName> Pool<N> {
    // A compare-exchange of the count word.
    pub(crate) fn try_claim(&self, seat: &mut PoolSeat<N>, buffer: u32) -> bool
        requires { buffer < buffers N.sizes }
        ensures { MatchBool result ((seat.new ≡ won buffer seat.old) × (total (at buffer) seat.old.holds ≡ 0))
            ((found : ℕ) × (0 < found) × (seat.new ≡ lost buffer found seat.old)) }
    {
        let at = &mut seat.seat;
        let found = self
            .table
            .shared
            .compare_exchange::<Claim>(at, buffer as usize, 0, 1);
        found == 0
    }

    // A load of the count word, which costs far less than a compare-exchange.
    pub(crate) fn seems_free(&self, seat: &mut PoolSeat<N>, buffer: usize) -> bool
        requires { buffer < buffers N.sizes }
        ensures { MatchBool result (seat.new ≡ seat.old)
            ((found : ℕ) × (0 < found) × (seat.new ≡ lost buffer found seat.old)) }
    {
        let at = &mut seat.seat;
        let found = self.table.shared.load::<Look>(at, buffer);
        found == 0
    }

    // A fetch-and-add on the count word, under the owner's hold, for one of the owner's credits.
    pub(crate) fn add_pin(&self, owner: &mut PoolSeat<N>, hold: &Hold<N>) -> Hold<N>
        requires { (0 < meant_count hold.now owner.old.holds) × (1 < owner.old.credits) }
        ensures owner { owner.new ≡ pin hold.now.buffer owner.old }
        ensures new { result ≡ record { buffer = hold.now.buffer; pinned = true } }
    {
        let buffer = hold.buffer;
        let at = &mut owner.seat;
        self.table.shared.fetch_add::<Pin>(at, buffer as usize, 1);
        Hold {
            buffer,
            pinned: true,
            name: PhantomData,
        }
    }

    // A fetch-and-subtract on the count word. The answer is what it met.
    pub(crate) fn unpin_as<K: Meant>(&self, seat: &mut PoolSeat<N>, hold: Hold<N>) -> u64
        requires meant { K.key ≡ hold }
        requires held { 0 < meant_count hold seat.old.holds }
        ensures seat { seat.new ≡ unpin (result == 1) hold seat.old }
        ensures last { result ≡ 1 → total (at hold.buffer) seat.new.holds ≡ 0 }
    {
        let buffer = hold.buffer as usize;
        let at = &mut seat.seat;
        self.table.shared.fetch_sub::<Unpin<K>>(at, buffer, 1)
    }

    // A store to a data word of the buffer, whose first one stands at `first`.
    pub(crate) fn put_at<W: Place>(
        &self,
        seat: &mut PoolSeat<N>,
        buffer: u32,
        first: usize,
        index: usize,
        word: u64,
    )
        requires place { (W.buffer ≡ buffer) × (W.index ≡ index) }
        requires first { (buffer < buffers N.sizes) × (first ≡ word_at N.sizes buffer 0) }
        requires exclusive { 0 < total (sole_at buffer) seat.old.holds }
        requires index { (index ≤ length (front_of buffer seat.old.holds)) × (index < buffer_words N.sizes buffer) }
        ensures { seat.new ≡ put buffer index word seat.old }
    {
        let _ = buffer;
        let at = first + index;
        self.table.shared.store::<Put<W>>(&mut seat.seat, at, word);
    }

    // A load of a data word of the buffer, whose first one stands at `first`.
    pub(crate) fn load_from<W: Place>(
        &self,
        seat: &mut PoolSeat<N>,
        buffer: u32,
        first: usize,
        index: usize,
    ) -> u64
        requires place { (W.buffer ≡ buffer) × (W.index ≡ index) }
        requires first { (buffer < buffers N.sizes) × (first ≡ word_at N.sizes buffer 0) }
        requires held { 0 < total (at buffer) seat.old.holds }
        requires index { index < length (front_of buffer seat.old.holds) }
        ensures { (seat.new ≡ seat.old) × (result ≡ slice_index (front_of buffer seat.old.holds) index) }
    {
        let _ = buffer;
        seat.is_seat();
        let word = first + index;
        self.table.shared.load::<Load<W>>(&mut seat.seat, word)
    }

    pub(crate) fn cut<G: Gift, K: NamesHolds>(
        &self,
        seat: &mut PoolSeat<N>,
        holds: K,
        credits: u64,
    ) -> PoolSeat<N>
        requires gift { (G.keys ≡ K.keys holds) × (G.credits ≡ credits) }
        requires credits { (0 < credits) × (credits < seat.old.credits) }
        ensures old { seat.new ≡ split_old (K.keys holds) credits seat.old }
        ensures new { result ≡ split_new (K.keys holds) credits seat.old }
    {
        let _ = holds;
        let _ = credits;
        let new = self.table.shared.split_seat::<SplitSeat<G>>(&mut seat.seat);
        PoolSeat {
            seat: new,
            name: PhantomData,
        }
    }

    // The seat that is left learns by a load what the rule says of the holds that it has then.
    pub(crate) fn glue(&self, into: &mut PoolSeat<N>, from: PoolSeat<N>)
        ensures joined { into.new ≡ joined_views into.old from }
        ensures loose { IsLoose into.new }
        ensures fronts { OneFront into.new }
    {
        let PoolSeat { seat, name: _ } = from;
        self.table
            .shared
            .join_seat::<JoinSeats>(&mut into.seat, seat);
        self.table.shared.load::<TellRule>(&mut into.seat, 0);
    }
}
