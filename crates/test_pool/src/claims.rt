//! Claims that begin at the first buffer of a class, or at any place of it.
ghost use Rattle.std.specs.Prelude.{◌≡◌};

use flake_base::Memory;
use pinned_pool::{ClaimStart, Class, Held, NoBuffer, Pool, PoolBlank, PoolName, PoolSeat};
use std::alloc::Global;
use std::marker::Brand;
use std::process::Abort;
use std::test::Fail;

/// The buffer that was won.
pub type Claim = Result<u32, NoBuffer>;

pub fn claim_number<N: PoolName>(pool: &Pool<N>, seat: &mut PoolSeat<N>, class: Class) -> Claim
    ensures { seat.new.credits ≡ seat.old.credits }
{
    match pool.claim(seat, class) {
        Ok(hold) => Ok(hold.buffer()),
        Err(none) => Err(none),
    }
}

fn claim_number_from<N: PoolName>(
    pool: &Pool<N>,
    seat: &mut PoolSeat<N>,
    class: Class,
    start: ClaimStart,
) -> Claim
    ensures { seat.new.credits ≡ seat.old.credits }
{
    match pool.claim_from(seat, class, start) {
        Ok(hold) => Ok(hold.buffer()),
        Err(none) => Err(none),
    }
}

/// Where a claim begins, if not at the class's first buffer.
#[derive(Clone, Copy)]
enum Want {
    Any(Class),
    From(Class, ClaimStart),
}

fn claim_one<N: PoolName>(pool: &Pool<N>, seat: &mut PoolSeat<N>, want: Want) -> Claim
    ensures { seat.new.credits ≡ seat.old.credits }
{
    match want {
        Want::Any(class) => claim_number(pool, seat, class),
        Want::From(class, start) => claim_number_from(pool, seat, class, start),
    }
}

// Claims in turn, and says what each won and how many buffers are held then.
fn claim_each<N: PoolName>(
    alloc: Global,
    blank: PoolBlank,
    wants: &[Want],
) -> Result<(Vec<Claim>, Held), Memory>
    requires { (blank.table ≡ N.table) × (blank.sizes ≡ N.sizes) }
{
    let (pool, mut seat) = blank.name::<N>();
    let mut claims = Vec::new(alloc);
    for want in wants {
        claims.push(claim_one(&pool, &mut seat, *want))?;
    }
    Ok((claims, pool.close(seat).held()))
}

/// A pool of so many buffers and credits, what is claimed in turn, and what that wins.
#[derive(Clone, Copy)]
struct Row<'a> {
    name: &'a str,
    sizes: (u32, u32, u64),
    wants: &'a [Want],
    claims: &'a [Claim],
    held: Held,
}

fn check(rt: &impl Abort, alloc: Global, row: Row<'_>) -> Result<(), Fail> {
    let (small, large, credits) = row.sizes;
    assert!(rt; small <= 64 && large <= 64 && 0 < small + large);
    assert!(rt; 0 < credits && credits <= 64);
    let blank = PoolBlank::open(alloc, small, large, credits)?;
    let (claims, held) = claim_each::<Brand>(alloc, blank, row.wants)?;
    assert!(rt; claims.as_slice() == row.claims, "{}", row.name);
    assert!(rt; held == row.held, "{}", row.name);
    Ok(())
}

const SMALL: Want = Want::Any(Class::Small);

const LARGE: Want = Want::Any(Class::Large);

const START: ClaimStart = ClaimStart { small: 1, large: 2 };

const ENDED: ClaimStart = ClaimStart { small: 3, large: 3 };

const BEHIND: ClaimStart = ClaimStart {
    small: u32::MAX,
    large: 7,
};

// All buffers of the class were looked at, so many.
const NONE_OF_NO_SMALL: Claim = Err(NoBuffer {
    class: Class::Small,
    looked: 0,
});

const NONE_OF_THREE_SMALL: Claim = Err(NoBuffer {
    class: Class::Small,
    looked: 3,
});

const NONE_OF_NO_LARGE: Claim = Err(NoBuffer {
    class: Class::Large,
    looked: 0,
});

const NONE_OF_ONE_LARGE: Claim = Err(NoBuffer {
    class: Class::Large,
    looked: 1,
});

const NONE_OF_TWO_LARGE: Claim = Err(NoBuffer {
    class: Class::Large,
    looked: 2,
});

const NONE_OF_THREE_LARGE: Claim = Err(NoBuffer {
    class: Class::Large,
    looked: 3,
});

static ROWS: [Row<'static>; 7] = [
    Row {
        name: "claims_go_in_ascending_order",
        sizes: (1, 2, 4),
        wants: &[LARGE, LARGE, LARGE, SMALL],
        claims: &[Ok(1), Ok(2), NONE_OF_TWO_LARGE, Ok(0)],
        held: Held { small: 1, large: 2 },
    },
    Row {
        name: "opens_with_one_buffer, a small one",
        sizes: (1, 0, 1),
        wants: &[LARGE, LARGE, LARGE, SMALL],
        claims: &[NONE_OF_NO_LARGE, NONE_OF_NO_LARGE, NONE_OF_NO_LARGE, Ok(0)],
        held: Held { small: 1, large: 0 },
    },
    Row {
        name: "opens_with_one_buffer, a large one",
        sizes: (0, 1, 1),
        wants: &[LARGE, LARGE, LARGE, SMALL],
        claims: &[
            Ok(0),
            NONE_OF_ONE_LARGE,
            NONE_OF_ONE_LARGE,
            NONE_OF_NO_SMALL,
        ],
        held: Held { small: 0, large: 1 },
    },
    Row {
        name: "small_claims_from_a_start",
        sizes: (3, 3, 4),
        wants: &[Want::From(Class::Small, START); 4],
        claims: &[Ok(1), Ok(2), Ok(0), NONE_OF_THREE_SMALL],
        held: Held { small: 3, large: 0 },
    },
    Row {
        name: "large_claims_from_a_start",
        sizes: (3, 3, 4),
        wants: &[Want::From(Class::Large, START); 4],
        claims: &[Ok(5), Ok(3), Ok(4), NONE_OF_THREE_LARGE],
        held: Held { small: 0, large: 3 },
    },
    // A start at or behind the last buffer's end is the first place.
    Row {
        name: "a_start_behind_all_buffers, at the end",
        sizes: (3, 3, 4),
        wants: &[Want::From(Class::Small, ENDED); 4],
        claims: &[Ok(0), Ok(1), Ok(2), NONE_OF_THREE_SMALL],
        held: Held { small: 3, large: 0 },
    },
    Row {
        name: "a_start_behind_all_buffers, behind the end",
        sizes: (3, 3, 4),
        wants: &[Want::From(Class::Large, BEHIND); 4],
        claims: &[Ok(3), Ok(4), Ok(5), NONE_OF_THREE_LARGE],
        held: Held { small: 0, large: 3 },
    },
];

#[test]
fn claims_win_the_first_free_buffer(rt: HostRuntime) -> Result<(), Fail> {
    for row in &ROWS {
        check(&rt, rt.alloc(), *row)?;
    }
    Ok(())
}

#[test]
fn the_last_free_buffer_is_found(rt: HostRuntime) -> Result<(), Fail> {
    let mut claims = Vec::new(rt.alloc());
    for buffer in 0..64u32 {
        claims.push(Ok(buffer))?;
    }
    claims.push(Err(NoBuffer {
        class: Class::Small,
        looked: 64,
    }))?;
    let row = Row {
        name: "the_last_free_buffer_is_found",
        sizes: (64, 1, 1),
        wants: &[SMALL; 65],
        claims: &claims,
        held: Held {
            small: 64,
            large: 0,
        },
    };
    check(&rt, rt.alloc(), row)
}
