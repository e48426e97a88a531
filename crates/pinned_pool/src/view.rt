ghost use Rattle.std.specs.Prelude.{ℕ, List};
ghost use Rattle.std.specs.Borrow.{ftrue};
ghost use Rattle.pin_core.specs.Holding.{Holding};

use std::marker::Model;

/// What a seat holds, owns and has seen. No value of it is made.
pub struct View {
    pub ghost holds: { List Holding },
    pub ghost credits: { ℕ },
    // The buffers that it ever won.
    pub ghost claims: { List ℕ },
    // The buffers that it found held, each with the number that was found.
    pub ghost looks: { List (ℕ × ℕ) },
    // How many pinned holds it gave back.
    pub ghost returns: { ℕ },
    // The buffers whose last hold it gave back.
    pub ghost lasts: { List ℕ },
}

impl Model for View {
    ghost also_owns = { λ _. ftrue };
}
