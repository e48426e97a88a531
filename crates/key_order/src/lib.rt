//! Maps by byte strings, in ascending order of their keys.
#![tactic(auto)]

ghost use Rattle.std.specs.Prelude.{◌≡◌, List, ℕ, OnOk, OnErr};
ghost use Rattle.std.specs.List.Sorted.{IsPermutation};
ghost use Rattle.key_order.specs.Ascending.{IsAscending, value_for};

use indexmap::IndexMap;
use std::alloc::AllocError;

/// Puts the entries in ascending byte order of their keys. It fails only where memory runs out.
pub fn sort_entries<X>(values: &mut IndexMap<Vec<u8>, X>) -> Result<(), AllocError>
    ensures kept { (key : List ℕ) → value_for key values.new.entries ≡ value_for key values.old.entries }
    ensures permuted { IsPermutation values.old.entries values.new.entries }
    ensures ordered { OnOk result (IsAscending values.new.entries) }
    ensures refused { OnErr result (values.new.entries ≡ values.old.entries) }
{
    values.sort_keys()
}
