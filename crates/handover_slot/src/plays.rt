// What each step tells.
use crate::rule::Fits;
use atomic_table::Play;

/// A load that makes a new seat.
pub(crate) struct Come;

impl<K, T> Play<Option<T>, K> for Come {
    ghost use Rattle.std.specs.Prelude.{◌≡◌};

    ghost then = { λ _ before _ after. after ≡ before };
}

/// A compare-exchange that takes the slot.
pub(crate) struct Take;

impl<K, T: Fits<K>> Play<Option<T>, K> for Take {
    ghost use Rattle.handover_slot.specs.Lying.{Takes};

    ghost then = { λ step before found after. Takes (T.fits before.0) step.first found after };
}

/// A store that gives the slot back.
pub(crate) struct Give;

impl<K, T> Play<Option<T>, K> for Give {
    ghost use Rattle.std.specs.Prelude.{⊤};

    ghost then = { λ _ _ _ _. ⊤ };
}
