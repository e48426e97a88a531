// What one request may claim.
ghost use Rattle.std.specs.Prelude.{◌≡◌, ◌≤◌, ◌<◌, ◌+◌, ◌*◌, ◌^◌};
ghost use Rattle.pin_core.specs.declared.class.Class.TheVariants.{Small, Large};
ghost use Rattle.frag_value.specs.Counts.{class_buffers_for};
ghost use Rattle.request_gen.specs.Requests.{IsRequest};
ghost use Rattle.serve_generated.specs.Rows.{request_row};

use request_gen::DrawnRequest;

/// The most bytes of a fragment, and of one in a small buffer.
const FRAGMENT: u16 = 4096;

const SMALL: u16 = 512;

/// So many buffers of each class.
#[derive(Clone, Copy, Debug, PartialEq, Eq)]
pub struct Demand {
    pub small: u32,
    pub large: u32,
}

impl Demand {
    pub(crate) fn plus(self, other: Demand) -> Demand
        requires small { self.small + other.small < 2 ^ 32 }
        requires large { self.large + other.large < 2 ^ 32 }
        ensures small { result.small ≡ self.small + other.small }
        ensures large { result.large ≡ self.large + other.large }
    {
        Demand {
            small: self.small + other.small,
            large: self.large + other.large,
        }
    }
}

/// The buffers that a session's request may claim.
pub(crate) fn request_demand(request: DrawnRequest) -> Demand
    requires { IsRequest request }
    ensures small { result.small ≡ request_row Small request }
    ensures large { result.large ≡ request_row Large request }
    ensures few { (result.small ≤ 1) × (result.large ≤ 3) }
{
    match request {
        DrawnRequest::Set(_, len) => value_demand(len),
        // A partial fragment of up to 4,095 bytes is written anew, with 100 more.
        DrawnRequest::Append(_) => Demand { small: 1, large: 2 },
        DrawnRequest::Get(_) | DrawnRequest::GetFour(_) | DrawnRequest::Del(_) => Demand {
            small: 0,
            large: 0,
        },
    }
}

// A value takes a large buffer for each full fragment, and one of either class for the bytes behind these.
fn value_demand(len: u16) -> Demand
    requires { len ≤ 9050 }
    ensures small { result.small ≡ class_buffers_for Small len }
    ensures large { result.large ≡ class_buffers_for Large len }
    ensures few { (result.small ≤ 1) × (result.large ≤ 3) }
{
    let full = u32::from(len / FRAGMENT);
    match len % FRAGMENT {
        0 => Demand {
            small: 0,
            large: full,
        },
        1..=SMALL => Demand {
            small: 1,
            large: full,
        },
        _ => Demand {
            small: 0,
            large: full + 1,
        },
    }
}
