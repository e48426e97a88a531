use crate::hold::Hold;
use crate::name::PoolName;

/// Names holds of a seat: a hold, several, or whatever is kept under holds. `()` names none.
pub trait NamesHolds: Copy {
    ghost use Rattle.std.specs.Prelude.{List};
    ghost use Rattle.pin_core.specs.Holding.{Key};

    // The holds that it names, in order and with repeats.
    ghost keys: { Self → List Key };
}

impl NamesHolds for () {
    ghost use Rattle.std.specs.Prelude.{[]};

    ghost keys = { λ _. [] };
}

impl<'a, N: PoolName> NamesHolds for &'a Hold<N> {
    ghost use Rattle.std.specs.Prelude.{[], ◌∷◌};

    ghost keys = { λ hold. hold.now ∷ [] };
}

impl<'a, N: PoolName> NamesHolds for &'a [Hold<N>] {
    ghost keys = { λ holds. holds.now };
}
