ghost use Rattle.std.specs.Prelude.{◌≡◌, ◌<◌};
ghost use Rattle.pin_core.specs.Buffers.{buffers};

use crate::name::PoolName;
use std::marker::{Model, PhantomData};

/// Names a hold of a seat: one of this buffer, pinned or not.
#[derive(Drop)]
pub struct Hold<N: PoolName> {
    pub(crate) buffer: u32,
    pub(crate) pinned: bool,
    pub(crate) name: PhantomData<N>,
}

impl<N: PoolName> Model for Hold<N> {
    ghost use Rattle.std.specs.Prelude.{◌<◌};
    ghost use Rattle.pin_core.specs.Buffers.{buffers};
    ghost use Rattle.pin_core.specs.Holding.{Key};

    ghost Value = { Key };

    ghost view = { λ h. record { buffer = h.buffer; pinned = h.pinned } };

    ghost invariant = { λ h. h.buffer < buffers N.sizes };
}

impl<N: PoolName> Hold<N> {
    /// The small buffers are numbered first, from 0 on.
    pub fn buffer(&self) -> u32
        ensures buffer { result ≡ self.now.buffer }
        ensures near { result < buffers N.sizes }
    {
        self.buffer
    }

    pub fn pinned(&self) -> bool
        ensures { result ≡ self.now.pinned }
    {
        self.pinned
    }
}
