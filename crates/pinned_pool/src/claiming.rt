//! Buffers that are claimed, and claims that are given back.
ghost use Rattle.std.specs.Prelude.{
  ◌≡◌,
  ◌+◌,
  ◌^◌,
  ◌<◌,
  ◌≤◌,
  List,
  length,
  vec_len,
  vec_capacity,
  IfNone,
  IfSome,
  IfOk,
  IfErr,
  OnOk,
  MatchBool,
  ℕ,
  [],
};
ghost use Rattle.view_sums.specs.Total.{total, Each};
ghost use Rattle.pin_core.specs.Buffers.{buffers};
ghost use Rattle.pin_core.specs.Holding.{Holding, Key, at};
ghost use Rattle.pinned_pool.specs.Moves.{won, lost, loose_key};
ghost use Rattle.pinned_pool.specs.Claims.{Passed, Wins, WinsIn, class_start, count_of};
ghost use Rattle.pinned_pool.specs.Claimed.{with_claimed, ClaimsMore, NoneFree, GivesBack};
ghost use Rattle.pinned_pool.specs.Classes.{just};
ghost use Rattle.pinned_pool.specs.Starts.{tried_last, ClaimsNone, ClaimsOne, WinsAround};
ghost use Rattle.pinned_pool.specs.Sought.{Sought, missing};

use crate::hold::Hold;
use crate::name::PoolName;
use crate::pool::{NoBuffer, Pool};
use crate::seat::PoolSeat;
use crate::start::ClaimStart;
use pin_core::Class;
use std::marker::PhantomData;

impl<N: PoolName> Pool<N> {
    // A buffer that a look finds held is a lost claim, and only one that seems free is stepped for.
    fn win(&self, seat: &mut PoolSeat<N>, buffer: u32) -> bool
        requires { buffer < buffers N.sizes }
        ensures { MatchBool result ((seat.new ≡ won buffer seat.old) × (total (at buffer) seat.old.holds ≡ 0))
            ((found : ℕ) × (0 < found) × (seat.new ≡ lost buffer found seat.old)) }
    {
        if self.seems_free(seat, buffer as usize) {
            self.try_claim(seat, buffer)
        } else {
            false
        }
    }

    // The first buffer of the class, and how many there are.
    fn range(&self, class: Class) -> (u32, u32)
        ensures range { (result.0 ≡ class_start N.sizes class) × (result.1 ≡ count_of N.sizes class)
            × (result.0 + result.1 ≤ buffers N.sizes) }
        ensures fits { buffers N.sizes < 2 ^ 32 }
    {
        match class {
            Class::Small => (0, self.small),
            Class::Large => (self.small, self.large),
        }
    }

    // How many of sixteen buffers are found held in front of one that seems free. Their number is fixed, so that the
    // compiler lays the looks out one after another, each at a distance from the first that it knows.
    fn pass_stretch(&self, seat: &mut PoolSeat<N>, first: u32) -> u32
        requires { first + 16 ≤ buffers N.sizes }
        ensures passed { Passed first result seat.old seat.new }
        ensures few { result ≤ 16 }
    {
        let first = first as usize;
        for k in 0..16 {
            if self.seems_free(seat, first + k) {
                return k as u32;
            }
        }
        16
    }

    // How many of so many buffers are found held, stretch by stretch, in front of one that seems free. The last fifteen
    // at most are not looked at.
    fn pass_held(&self, seat: &mut PoolSeat<N>, first: u32, count: u32) -> u32
        requires { first + count ≤ buffers N.sizes }
        ensures passed { Passed first result seat.old seat.new }
        ensures few { result ≤ count }
    {
        let mut passed = 0;
        while count - passed >= 16 {
            let more = self.pass_stretch(seat, first + passed);
            passed += more;
            if more < 16 {
                return passed;
            }
        }
        passed
    }

    // Goes over a stretch of buffers in ascending order, and takes the first one that it finds free.
    fn scan(&self, seat: &mut PoolSeat<N>, first: u32, count: u32) -> Option<Hold<N>>
        requires { first + count ≤ buffers N.sizes }
        ensures won { IfSome result (λ h. WinsIn first count h seat.old seat.new) }
        ensures none { IfNone result (Passed first count seat.old seat.new) }
    {
        let passed = self.pass_held(seat, first, count);
        for k in passed..count {
            let buffer = first + k;
            if self.win(seat, buffer) {
                return Some(Hold {
                    buffer,
                    pinned: false,
                    name: PhantomData,
                });
            }
        }
        None
    }

    /// Takes the first buffer of the class that it finds free, in ascending order. The hold is exclusive, and its front
    /// is empty.
    pub fn claim(&self, seat: &mut PoolSeat<N>, class: Class) -> Result<Hold<N>, NoBuffer>
        ensures won { IfOk result (λ h. Wins N.sizes class h seat.old seat.new) }
        ensures none { IfErr result (λ e. (e.class ≡ class) × (e.looked ≡ count_of N.sizes class)
            × Passed (class_start N.sizes class) e.looked seat.old seat.new) }
        ensures sought { Sought N.sizes (just class 1) (missing result) seat.old seat.new }
    {
        let (first, count) = self.range(class);
        match self.scan(seat, first, count) {
            Some(hold) => Ok(hold),
            None => Err(NoBuffer {
                class,
                looked: count,
            }),
        }
    }

    /// Takes a buffer of the class like `claim`, but begins at the start, and tries those in front of it last. Where
    /// the start is behind them all it begins at the first.
    pub fn claim_from(
        &self,
        seat: &mut PoolSeat<N>,
        class: Class,
        start: ClaimStart,
    ) -> Result<Hold<N>, NoBuffer>
        ensures won { IfOk result
            (λ h. WinsAround N.sizes class (tried_last N.sizes class start) h seat.old seat.new) }
        ensures claims { IfOk result (λ h. ClaimsOne N.sizes class h seat.old seat.new) }
        ensures none { IfErr result (λ e. ClaimsNone N.sizes class e seat.old seat.new) }
        ensures sought { Sought N.sizes (just class 1) (missing result) seat.old seat.new }
    {
        let (first, count) = self.range(class);
        let last = start.last_of(class, count);
        if let Some(hold) = self.scan(seat, first + last, count - last) {
            return Ok(hold);
        }
        match self.scan(seat, first, last) {
            Some(hold) => Ok(hold),
            None => Err(NoBuffer {
                class,
                looked: count,
            }),
        }
    }

    /// Claims so many buffers of the class, each from the start on. Their holds go to the end of the list, also after a
    /// refusal.
    pub fn claim_each(
        &self,
        seat: &mut PoolSeat<N>,
        class: Class,
        count: usize,
        start: ClaimStart,
        holds: &mut Vec<Hold<N>>,
    ) -> Result<(), NoBuffer>
        requires room { vec_len holds.old + count ≤ vec_capacity holds.old }
        ensures claims { ClaimsMore N.sizes class count holds.old.items holds.new.items seat.old seat.new }
        ensures all { OnOk result (length holds.new.items ≡ length holds.old.items + count) }
        ensures none { IfErr result (λ e. (e.class ≡ class) × (length holds.new.items < length holds.old.items + count)
            × NoneFree N.sizes e seat.old seat.new) }
        ensures sought { Sought N.sizes (just class count) (missing result) seat.old seat.new }
        ensures capacity { vec_capacity holds.new ≡ vec_capacity holds.old }
    {
        let all = holds.len() + count;
        while holds.len() < all {
            let hold = self.claim_from(seat, class, start)?;
            holds.push_reserved(hold);
        }
        Ok(())
    }

    /// Gives back what was claimed, the last one first, so that the seat's holds are those from before the claims.
    pub fn unclaim(&self, seat: &mut PoolSeat<N>, holds: &mut Vec<Hold<N>>)
        requires loose { Each (λ (k : Key). k ≡ loose_key k.buffer) holds.old.items }
        requires claimed { (hs : List Holding) × (seat.old.holds ≡ with_claimed holds.old.items hs) }
        ensures holds { (hs : List Holding) → seat.old.holds ≡ with_claimed holds.old.items hs → seat.new.holds ≡ hs }
        ensures same { GivesBack seat.old seat.new }
        ensures none { holds.new.items ≡ [] }
    {
        while let Some(hold) = holds.pop() {
            self.unpin(seat, hold);
        }
    }
}
