// What each step tells, and how seats are split and joined.
use crate::view::View;
use atomic_table::{Join, Play, Split};
use std::marker::{Brand, PhantomData};

pub(crate) struct Claim;

impl Play<(), View> for Claim {
    ghost use Rattle.pinned_pool.specs.Plays.{claim_tells};

    ghost then = { claim_tells };
}

pub(crate) struct Look;

impl Play<(), View> for Look {
    ghost use Rattle.pinned_pool.specs.Plays.{look_tells};

    ghost then = { look_tells };
}

pub(crate) struct Pin;

impl Play<(), View> for Pin {
    ghost use Rattle.pinned_pool.specs.Plays.{pin_tells};

    ghost then = { pin_tells };
}

pub(crate) struct TellRule;

impl Play<(), View> for TellRule {
    ghost use Rattle.pinned_pool.specs.Plays.{rule_tells};

    ghost then = { rule_tells };
}

/// The hold that a step is about.
pub(crate) trait Meant {
    ghost use Rattle.pin_core.specs.Holding.{Key};

    ghost key: { Key };
}

impl Meant for Brand {
    ghost use Rattle.std.specs.Prelude.{false};

    ghost key = { record { buffer = 0; pinned = false } };
}

pub(crate) struct Unpin<K>(PhantomData<K>);

impl<K: Meant> Play<(), View> for Unpin<K> {
    ghost use Rattle.pinned_pool.specs.Plays.{unpin_tells};

    ghost then = { unpin_tells K.key.pinned };
}

/// The data word that a step is about.
pub(crate) trait Place {
    ghost use Rattle.std.specs.Prelude.{ℕ};

    ghost buffer: { ℕ };

    ghost index: { ℕ };
}

impl Place for Brand {
    ghost buffer = { 0 };

    ghost index = { 0 };
}

pub(crate) struct Put<W>(PhantomData<W>);

impl<W: Place> Play<(), View> for Put<W> {
    ghost use Rattle.pinned_pool.specs.Plays.{put_tells};

    ghost then = { put_tells W.buffer W.index };
}

pub(crate) struct Load<W>(PhantomData<W>);

impl<W: Place> Play<(), View> for Load<W> {
    ghost use Rattle.pinned_pool.specs.Plays.{load_tells};

    ghost then = { load_tells W.buffer W.index };
}

/// What a new seat is given.
pub(crate) trait Gift {
    ghost use Rattle.std.specs.Prelude.{ℕ, List};
    ghost use Rattle.pin_core.specs.Holding.{Key};

    ghost keys: { List Key };

    ghost credits: { ℕ };
}

impl Gift for Brand {
    ghost use Rattle.std.specs.Prelude.{[]};

    ghost keys = { [] };

    ghost credits = { 0 };
}

pub(crate) struct SplitSeat<G>(PhantomData<G>);

impl<G: Gift> Split<View> for SplitSeat<G> {
    ghost use Rattle.pinned_pool.specs.Moves.{split_old, split_new};

    ghost left = { split_old G.keys G.credits };

    ghost right = { split_new G.keys G.credits };
}

pub(crate) struct JoinSeats;

impl Join<View> for JoinSeats {
    ghost use Rattle.pinned_pool.specs.Moves.{joined_views};
    ghost use Rattle.pinned_pool.specs.Views.{nobody};

    ghost both = { joined_views };

    ghost spent = { nobody };
}
