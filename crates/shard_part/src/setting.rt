ghost use Rattle.std.specs.Prelude.{◌≡◌, List, ℕ, Option, is_some};
ghost use Rattle.flake_model.specs.Store.{stores};
ghost use Rattle.shard_part.specs.Settings.{when_of, set_part};

use crate::PartOp;

/// On which keys a set stores.
#[derive(Clone, Copy, Debug, PartialEq, Eq)]
pub enum When {
    Always,
    IfMissing,
    IfPresent,
}

impl When {
    /// Whether a key is stored to, by whether it is there.
    pub fn stores(self, is_there: bool) -> bool
        ensures { (old : Option (List ℕ)) → is_there ≡ is_some old → result ≡ stores (when_of self) old }
    {
        match self {
            When::Always => true,
            When::IfMissing => !is_there,
            When::IfPresent => is_there,
        }
    }
}

/// How a key is set: when, and whether what it had is the answer.
#[derive(Clone, Copy, Debug, PartialEq, Eq)]
pub struct Setting {
    pub when: When,
    pub asks: bool,
}

impl Setting {
    /// The part that sets so.
    pub fn part_op(self) -> PartOp
        ensures { result ≡ set_part self.when self.asks }
    {
        match (self.when, self.asks) {
            (When::Always, false) => PartOp::Set,
            (When::IfMissing, false) => PartOp::SetNx,
            (When::IfPresent, false) => PartOp::SetXx,
            (When::Always, true) => PartOp::SetGet,
            (When::IfMissing, true) => PartOp::SetNxGet,
            (When::IfPresent, true) => PartOp::SetXxGet,
        }
    }
}
