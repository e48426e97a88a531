ghost use Rattle.std.specs.Prelude.{◌≡◌, IfSome, IfNone};
ghost use Rattle.replay_check.specs.Differs.{IsFirstPlace};

/// The first place where two texts differ: in a byte, or by the end of one of them.
pub fn first_difference(expected: &[u8], found: &[u8]) -> Option<usize>
    ensures some { IfSome result (IsFirstPlace expected.now found.now) }
    ensures none { IfNone result (expected.now ≡ found.now) }
{
    let both = expected.len().min(found.len());
    for place in 0..both {
        if expected[place] != found[place] {
            return Some(place);
        }
    }
    if expected.len() == found.len() {
        None
    } else {
        Some(both)
    }
}
