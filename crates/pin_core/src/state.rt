ghost use Rattle.std.specs.Prelude.{◌≡◌, ◌≢◌, ◌+◌, ◌<◌, ◌≤◌, ◌^◌, ◌==◌, length, position, count_by, MatchOption, IfOk};
ghost use Rattle.std.specs.Prelude.{IfErr, OnErr, IsOkUnless};
ghost use Rattle.pin_core.specs.declared.holder.Holder.{Holder};
ghost use Rattle.pin_core.specs.Buffers.{buffers, IsWithin};
ghost use Rattle.pin_core.specs.Pins.{weigh, count_at};
ghost use Rattle.pin_core.specs.PinStep.{IsNear, PinStep, HasStep};
ghost use Rattle.pin_core.specs.Sound.{IsSound};
ghost use Rattle.pin_core.specs.Answers.{event_of, refusal_of, change_of};
ghost use Rattle.pin_core.specs.State.{opened_by, IsAnswer};
ghost use Rattle.pin_core.specs.HeldCount.{held_in};
ghost use Rattle.pin_core.specs.Raw.{is_raw_at, is_raw_key};

use crate::class::Held;
use crate::credits::Credits;
use crate::event::{Change, PinEvent};
use crate::holder::Holder;
use crate::refused::{Memory, Refused};
use crate::sizes::Sizes;
use std::alloc::Global;
use std::marker::Model;

// A hold, whose front is the first `length` data words of its buffer.
#[derive(Clone, Copy)]
struct Hold {
    holder: Holder,
    buffer: u32,
    length: u32,
    exclusive: bool,
    pinned: bool,
}

/// All holds of a pool as a plain list, with the data words of its buffers and the credits of each holder.
///
/// Contracts see the sizes and, as `pins`, the list of holds with their fronts, the data words, and the credits.
#[derive(Drop)]
pub struct PinState {
    sizes: Sizes,
    holds: Vec<Hold>,
    words: Vec<u64>,
    credits: Credits,
}

impl Model for PinState {
    ghost use Rattle.pin_core.specs.State.{SizedPins, pins_shown, IsPoolState};

    ghost Value = { SizedPins };

    ghost view = { λ s. pins_shown s.sizes s.holds.items s.words.items s.credits };

    ghost invariant = { λ s. IsPoolState s.sizes s.holds.items s.words.items s.credits };
}

fn find_hold(holds: &[Hold], holder: Holder, buffer: u32) -> Option<usize>
    ensures { result ≡ position (is_raw_at holder buffer) holds.now }
{
    holds
        .iter()
        .position(|h| h.holder == holder && h.buffer == buffer)
}

fn find_key(holds: &[Hold], holder: Holder, buffer: u32, pinned: bool) -> Option<usize>
    ensures { result ≡ position (is_raw_key holder buffer pinned) holds.now }
{
    holds.iter().position(|h| h.holder == holder && h.buffer == buffer && h.pinned == pinned)
}

fn count_holds(holds: &[Hold], buffer: u32) -> usize
    ensures { result ≡ count_by (λ h. h.buffer == buffer) holds.now }
{
    holds.iter().filter(|h| h.buffer == buffer).count()
}

impl PinState {
    /// A pool without holds, all of whose credits `Session(0)` has.
    pub fn open(alloc: Global, small: u32, large: u32, credits: u64) -> Result<PinState, Memory>
        requires { IsWithin (record { small = small; large = large; credits = credits }) }
        ensures { IfOk result (λ s. s ≡ opened_by (record { small = small; large = large; credits = credits })
            (Holder.Session 0)) }
    {
        let sizes = Sizes {
            small,
            large,
            credits,
        };
        let Ok(words) = vec![in alloc; 0u64; sizes.word_count()] else {
            return Err(Memory);
        };
        let credits = Credits::open(alloc, Holder::Session(0), credits)?;
        Ok(PinState {
            sizes,
            holds: Vec::new(alloc),
            words,
            credits,
        })
    }

    /// Makes the event's step, or says why there is none.
    pub fn step(&mut self, event: PinEvent) -> Result<Change, Refused>
        requires { IsNear self.old.sizes (event_of event) }

        // A refusal other than want of memory is that of the first test that fails, and comes exactly where one fails.
        ensures refused { MatchOption (refusal_of self.old.sizes self.old.pins event) (IsOkUnless result Refused.Memory)
            (λ r. result ≡ Err r) }
        ensures stepped { IfOk result (λ _. PinStep self.old.sizes self.old.pins (event_of event) self.new.pins) }
        ensures tells { IfOk result (λ change. change ≡ change_of self.old.pins event) }
        ensures err { OnErr result (self.new ≡ self.old) }

        // Only want of memory keeps a step of the definition from being made.
        ensures only { IfErr result (λ r. r ≢ Refused.Memory
            → ¬ (HasStep self.old.sizes self.old.pins (event_of event))) }
        ensures sizes { self.new.sizes ≡ self.old.sizes }
        ensures sound { IsSound self.new.sizes self.new.pins }
    {
        match event {
            PinEvent::Claim { buffer, holder } => self.claim(buffer, holder),
            PinEvent::Put {
                buffer,
                holder,
                index,
                word,
            } => self.put(buffer, holder, index, word),
            PinEvent::Load {
                buffer,
                holder,
                index,
            } => self.load(buffer, holder, index),
            PinEvent::Pin { buffer, from, to } => self.pin(buffer, from, to),
            PinEvent::Unpin {
                buffer,
                holder,
                pinned,
            } => self.unpin(buffer, holder, pinned),
            PinEvent::Move {
                buffer,
                pinned,
                from,
                to,
            } => self.rename(buffer, pinned, from, to),
            PinEvent::Give { from, to, credits } => self.give(from, to, credits),
        }
    }

    /// How many holds the buffer has.
    pub fn holders_of(&self, buffer: u32) -> u32
        ensures { result ≡ count_at buffer self.now.pins.holds }
    {
        count_holds(&self.holds, buffer) as u32
    }

    /// How many buffers of each class have a hold.
    pub fn held(&self) -> Held
        ensures small { result.small ≡ held_in (weigh self.now.pins.holds) 0 self.now.sizes.small }
        ensures large { result.large ≡ held_in (weigh self.now.pins.holds) self.now.sizes.small self.now.sizes.large }
    {
        Held {
            small: self.held_in(0, self.sizes.small),
            large: self.held_in(self.sizes.small, self.sizes.large),
        }
    }

    // How many of `count` buffers from `first` on have a hold.
    fn held_in(&self, first: u32, count: u32) -> u32
        requires { first + count < 2 ^ 32 }
        ensures { result ≡ held_in (weigh self.now.pins.holds) first count }
    {
        let mut held = 0;
        for k in 0..count {
            if self.holders_of(first + k) != 0 {
                held += 1;
            }
        }
        held
    }

    fn claim(&mut self, buffer: u32, holder: Holder) -> Result<Change, Refused>
        requires { buffer < buffers self.old.sizes }
        ensures { IsAnswer self.old (PinEvent.Claim buffer holder) result self.new }
    {
        let holds = self.holders_of(buffer);
        if holds != 0 {
            return Err(Refused::NotFree { holds });
        }
        let hold = Hold {
            holder,
            buffer,
            length: 0,
            exclusive: true,
            pinned: false,
        };
        match self.holds.push(hold) {
            Ok(()) => Ok(Change::Claimed),
            Err(_) => Err(Refused::Memory),
        }
    }

    fn put(&mut self, buffer: u32, holder: Holder, index: u32, word: u64) -> Result<Change, Refused>
        requires { buffer < buffers self.old.sizes }
        ensures { IsAnswer self.old (PinEvent.Put buffer holder index word) result self.new }
    {
        let Some(k) = find_hold(&self.holds, holder, buffer) else {
            return Err(Refused::NotHeld);
        };
        let Hold {
            length,
            exclusive,
            ..
        } = self.holds[k];
        if !exclusive {
            return Err(Refused::NotOwned);
        }
        if index > length || index >= self.sizes.room(buffer) {
            return Err(Refused::OutOfFront { length });
        }
        let place = self.sizes.start(buffer) + index as usize;
        self.words[place] = word;
        self.holds[k].length = index + 1;
        Ok(Change::Put)
    }

    fn load(&self, buffer: u32, holder: Holder, index: u32) -> Result<Change, Refused>
        requires { buffer < buffers self.now.sizes }
        ensures { IsAnswer self.now (PinEvent.Load buffer holder index) result self.now }
    {
        let Some(k) = find_hold(&self.holds, holder, buffer) else {
            return Err(Refused::NotHeld);
        };
        let length = self.holds[k].length;
        if index >= length {
            return Err(Refused::OutOfFront { length });
        }
        let place = self.sizes.start(buffer) + index as usize;
        Ok(Change::Loaded(self.words[place]))
    }

    fn pin(&mut self, buffer: u32, from: Holder, to: Holder) -> Result<Change, Refused>
        requires { buffer < buffers self.old.sizes }
        ensures { IsAnswer self.old (PinEvent.Pin buffer from to) result self.new }
    {
        let Some(k) = find_hold(&self.holds, from, buffer) else {
            return Err(Refused::NotHeld);
        };
        if self.credits.of(to) == 0 {
            return Err(Refused::NoCredit);
        }
        let copy = Hold {
            holder: to,
            exclusive: false,
            pinned: true,
            ..self.holds[k]
        };
        if self.holds.push(copy).is_err() {
            return Err(Refused::Memory);
        }
        self.holds[k].exclusive = false;
        self.credits.take(to, 1);
        Ok(Change::Pinned)
    }

    fn unpin(&mut self, buffer: u32, holder: Holder, pinned: bool) -> Result<Change, Refused>
        requires { buffer < buffers self.old.sizes }
        ensures { IsAnswer self.old (PinEvent.Unpin buffer holder pinned) result self.new }
    {
        let Some(k) = find_key(&self.holds, holder, buffer, pinned) else {
            return Err(Refused::NotHeld);
        };
        let last = self.holders_of(buffer) == 1;
        if self.credits.add(holder, u64::from(pinned)).is_err() {
            return Err(Refused::Memory);
        }
        let _ = self.holds.remove(k);
        Ok(Change::Unpinned { last })
    }

    fn rename(
        &mut self,
        buffer: u32,
        pinned: bool,
        from: Holder,
        to: Holder,
    ) -> Result<Change, Refused>
        requires { buffer < buffers self.old.sizes }
        ensures { IsAnswer self.old (PinEvent.Move buffer pinned from to) result self.new }
    {
        let Some(k) = find_key(&self.holds, from, buffer, pinned) else {
            return Err(Refused::NotHeld);
        };
        self.holds[k].holder = to;
        Ok(Change::Moved)
    }

    fn give(&mut self, from: Holder, to: Holder, credits: u64) -> Result<Change, Refused>
        ensures { IsAnswer self.old (PinEvent.Give from to credits) result self.new }
    {
        if credits > self.credits.of(from) {
            return Err(Refused::NoCredit);
        }
        if self.credits.add(to, credits).is_err() {
            return Err(Refused::Memory);
        }
        self.credits.take(from, credits);
        Ok(Change::Given)
    }
}
