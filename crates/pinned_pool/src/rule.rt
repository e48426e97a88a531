// The rule of a pool's table.

use crate::view::View;
use atomic_table::TableRule;
use pin_core::Sizes;

pub struct Sound;

impl TableRule<(), View, Sizes> for Sound {
    ghost use Rattle.pinned_pool.specs.Plays.{KeepsRule};
    ghost use Rattle.pinned_pool.specs.Views.{opener};

    ghost holds = { KeepsRule };

    ghost first = { λ sizes. opener sizes.credits };
}
