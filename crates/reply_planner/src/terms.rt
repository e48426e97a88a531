ghost use Rattle.std.specs.Prelude.{ℕ, List};
ghost use Rattle.std.specs.Borrow.{ftrue};

use std::marker::Model;

/// What a plan's start fixed. No value of it is made.
pub struct Terms {
    pub ghost descriptors: { ℕ },
    // The staging buffers that it was lent.
    pub ghost stage: { List ℕ },
    // A run of at least so many bytes stays where it lies.
    pub ghost threshold: { ℕ },
}

impl Model for Terms {
    ghost also_owns = { λ _. ftrue };
}
