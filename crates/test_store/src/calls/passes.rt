//! Passes that are opened and closed.
ghost use Rattle.std.specs.Prelude.{◌≡◌, ◌<◌};

use crate::checks::equal;
use command_exec::Pass;
use flake_base::Memory;
use order_book::{BookBlank, BookName};
use pinned_pool::{Class, Held, NoBuffer, PoolBlank, PoolName};
use reply_planner::{OpenError, STAGE_SIZE};
use std::alloc::Global;
use std::marker::Brand;
use std::process::Abort;
use std::test::Fail;

/// How an opening went: how many staging buffers are free, or why there are none. What the pool holds after the end.
#[derive(Drop)]
struct Opened {
    free: Result<u32, OpenError>,
    session: u16,
    held: Held,
}

fn open_named<N: BookName, P: PoolName>(
    alloc: Global,
    pool: PoolBlank,
    book: BookBlank,
) -> Result<Opened, Memory>
    requires pool { (pool.table ≡ P.table) × (pool.sizes ≡ P.sizes) }
    requires book { (book.table ≡ N.table) × (book.sizes ≡ N.sizes) }
{
    let (pool, seat) = pool.name::<P>();
    let (_, _, mut sessions) = book.name::<N>();
    let Some(mine) = sessions.pop() else {
        return Err(Memory);
    };
    let (free, seat, mine) = match Pass::open(alloc, &pool, seat, mine, 512) {
        Ok(pass) => {
            let free = pass.free();
            if free as usize != STAGE_SIZE {
                return Err(Memory);
            }
            let (seat, mine) = pass.close(&pool);
            (Ok(free), seat, mine)
        }
        Err((error, seat, mine)) => (Err(error), seat, mine),
    };
    Ok(Opened {
        free,
        session: mine.session(),
        held: pool.close(seat).held(),
    })
}

fn open_in(alloc: Global, pool: PoolBlank, book: BookBlank) -> Result<Opened, Memory> {
    open_named::<Brand, Brand>(alloc, pool, book)
}

// The last of two sessions opens its pass over so many small buffers.
fn check(
    rt: &impl Abort,
    alloc: Global,
    small: u32,
    free: Result<u32, OpenError>,
) -> Result<(), Fail>
    requires { small < 1000 }
{
    let pool = PoolBlank::open(alloc, small, 1, 1)?;
    let book = BookBlank::open(alloc, 1, 2)?;
    let opened = open_in(alloc, pool, book)?;
    equal(rt, "free staging buffers", opened.free, free);
    equal(rt, "the session", opened.session, 1);
    equal(rt, "what is held", opened.held, Held { small: 0, large: 0 });
    Ok(())
}

#[test]
fn passes_open_and_close(rt: HostRuntime) -> Result<(), Fail> {
    check(&rt, rt.alloc(), 128, Ok(128))?;
    check(&rt, rt.alloc(), 300, Ok(128))?;
    for small in [0, 1, 127] {
        let none = NoBuffer {
            class: Class::Small,
            looked: small,
        };
        check(&rt, rt.alloc(), small, Err(OpenError::NoBuffer(none)))?;
    }
    Ok(())
}
