ghost use Rattle.std.specs.Prelude.{◌≤◌};

use handover_slot::{Fits, HandoverSlot};
use std::test::Fail;

#[derive(Drop)]
struct Small(u64);

impl Fits<u64> for Small {
    ghost fits = { λ most small. small.0 ≤ most };
}

// What is left of a value, which is given back.
fn taken(place: &HandoverSlot<Small, u64>) -> Option<u64> {
    let (Small(n), loan) = place.take()?;
    loan.give(Small(n / 2));
    Some(n)
}

fn filled(place: &HandoverSlot<Small, u64>) -> bool
    requires { 7 ≤ place.now }
{
    match place.first() {
        Some(loan) => {
            loan.give(Small(7));
            true
        }
        None => false,
    }
}

// Whether nothing else is to be had while the value is lent. It is given back as 1.
fn lends(place: &HandoverSlot<Small, u64>) -> bool
    requires { 7 ≤ place.now }
{
    let Some((_, loan)) = place.take() else {
        return false;
    };
    let nothing = taken(place).is_none() && !filled(place);
    loan.give(Small(1));
    nothing
}

#[test]
fn a_value_is_lent_and_given_back(rt: HostRuntime) -> Result<(), Fail> {
    let place: HandoverSlot<Small, u64> = HandoverSlot::new(rt.alloc(), &9)?;
    assert!(rt; taken(&place).is_none());
    assert!(rt; filled(&place) && !filled(&place));
    assert!(rt; taken(&place) == Some(7) && taken(&place) == Some(3));
    assert!(rt; lends(&place) && taken(&place) == Some(1));
    Ok(())
}
