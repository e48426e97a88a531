// Results at the places of their jobs.
ghost use Rattle.std.specs.Prelude.{
  ◌≡◌,
  ◌<◌,
  ◌≤◌,
  [],
  All,
  None,
  Some,
  IsSome,
  IfOk,
  length,
  map,
  replicate,
  slice_set,
  vec_len,
  vec_capacity,
};
ghost use Rattle.work_queue.specs.Slots.{filled_slots};

use crate::hand::Done;
use std::alloc::{AllocError, Global};

/// A row of empty slots.
pub(crate) fn empty_slots<X: Drop>(alloc: Global, n: usize) -> Result<Vec<Option<X>>, AllocError>
    ensures { IfOk result (λ slots. slots.items ≡ replicate n None) }
{
    let mut slots = Vec::with_capacity(alloc, n)?;
    for i in 0..n {
        let _place = i;
        slots.push(None)?;
    }
    Ok(slots)
}

/// Puts each result into the slot of its number.
pub(crate) fn place<X: Drop>(slots: &mut [Option<X>], done: Vec<Done<X>>)
    requires { All (λ d. d.number < length slots.old) done.items }
    ensures { slots.new ≡ filled_slots slots.old done.items }
{
    for Done { number, result } in done {
        fill(slots, number, result);
    }
}

fn fill<X: Drop>(slots: &mut [Option<X>], number: usize, x: X)
    requires { number < length slots.old }
    ensures { slots.new ≡ slice_set slots.old number (Some x) }
{
    slots[number] = Some(x);
}

/// What the slots hold, all of which are full.
pub(crate) fn emptied<X: Drop>(slots: Vec<Option<X>>, out: Vec<X>) -> Vec<X>
    requires room { (out.items ≡ []) × (vec_len slots ≤ vec_capacity out) }
    requires full { All (λ slot. IsSome slot) slots.items }
    ensures { map (λ x. Some x) result.items ≡ slots.items }
{
    let mut out = out;
    for slot in slots {
        let Some(x) = slot else { unreachable!() };
        out.push_reserved(x);
    }
    out
}
