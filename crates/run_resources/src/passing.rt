// The passes of a new pool's sessions.
ghost use Rattle.std.specs.Prelude.{◌≡◌, ◌+◌, ◌*◌, ◌<◌, ◌≤◌, [], All, length, map, reverse, vec_capacity};
ghost use Rattle.std.specs.Prelude.{IfOk, IfErr, IfSome};
ghost use Rattle.pinned_pool.specs.Views.{opener};
ghost use Rattle.reply_planner.specs.Stages.{NoneInBoth, StagesAreApart};
ghost use Rattle.serve_model.specs.Seats.{IsSpare};
ghost use Rattle.run_resources.specs.Opened.{session_credits, IsNewPass};
ghost use Rattle.run_resources.specs.Passing.{IsNewList, SeatRefused, AreRefused, HasStages};

use crate::spread::ClaimSpread;
use command_exec::Pass;
use flake_base::Memory;
use order_book::{BookName, SessionSeat, SessionSeats};
use pinned_pool::{Pool, PoolName, PoolSeat};
use reply_planner::OpenError;
use serve_model::laws::no_stage_refused;
use std::alloc::Global;

/// The credits of a session's seat, with which any command can be executed.
pub const SESSION_CREDITS: u64 = 8192;

/// A new pool, the rest of its first seat, and a pass for each session.
#[derive(Drop)]
pub(crate) struct Passed<N: BookName, P: PoolName> {
    pub(crate) pool: Pool<P>,
    pub(crate) main: PoolSeat<P>,
    pub(crate) passes: Vec<Pass<N, P>>,
}

// A pass, or the seat that found no buffer for its stage; `None` is want of memory.
fn open_pass<N: BookName, P: PoolName>(
    alloc: Global,
    pool: &Pool<P>,
    main: &mut PoolSeat<P>,
    mine: SessionSeat<N>,
    threshold: u32,
    spread: ClaimSpread,
) -> Result<Pass<N, P>, Option<PoolSeat<P>>>
    requires main { IsSpare main.old }
    requires credits { session_credits < main.old.credits }
    requires list { IsNewList mine }
    requires threshold { (0 < threshold) × (threshold ≤ 512) }
    ensures main { IsSpare main.new × (main.new.credits + session_credits ≡ main.old.credits) }
    ensures pass { IfOk result (λ pass. IsNewPass P.sizes pass × (pass.threshold ≡ threshold)) }
    ensures list { IfOk result (λ pass. pass.list ≡ mine) }
    ensures refused { IfErr result (λ e. IfSome e (SeatRefused P.sizes)) }
{
    let seat = pool.split(main, (), SESSION_CREDITS);
    let start = spread.start(mine.session());
    match Pass::open(alloc, pool, seat, mine, threshold) {
        Ok(pass) => Ok(pass.claiming_from(start)),
        Err((OpenError::Memory, _, _)) => Err(None),
        Err((OpenError::NoBuffer(_), seat, _)) => Err(Some(seat)),
    }
}

// Tells a proof that a pass's stage is apart from those of other passes.
fn compare_with<N: BookName, P: PoolName>(
    pool: &Pool<P>,
    pass: &mut Pass<N, P>,
    others: &mut Vec<Pass<N, P>>,
)
    requires pass { IsNewPass P.sizes pass.old }
    requires others { All (IsNewPass P.sizes) others.old.items }
    ensures pass { IsNewPass P.sizes pass.new × (pass.new.stage ≡ pass.old.stage) × (pass.new.list ≡ pass.old.list)
        × (pass.new.threshold ≡ pass.old.threshold) }
    ensures others { others.new.items ≡ others.old.items }
    ensures room { vec_capacity others.new ≡ vec_capacity others.old }
    ensures apart { All (λ p. NoneInBoth pass.old.stage p.stage) others.old.items }
{
    for i in 0..others.len() {
        pass.compare(pool, &mut others[i]);
    }
}

// The same lists, the last one first.
fn turned<N: BookName>(alloc: Global, lists: SessionSeats<N>) -> Result<SessionSeats<N>, Memory>
    requires { All IsNewList lists.items }
    ensures lists { IfOk result (λ turned. reverse turned.items ≡ lists.items) }
    ensures count { IfOk result (λ turned. length turned.items ≡ length lists.items) }
    ensures new { IfOk result (λ turned. All IsNewList turned.items) }
{
    let mut lists = lists;
    let mut turned = SessionSeats::with_room(alloc, lists.len())?;
    while let Some(mine) = lists.pop() {
        let Ok(()) = turned.push(mine) else {
            unreachable!()
        };
    }
    Ok(turned)
}

// The last list's pass first. Where a seat finds no buffer, it comes back with the passes that were opened before.
fn open_all<N: BookName, P: PoolName>(
    alloc: Global,
    pool: &Pool<P>,
    main: &mut PoolSeat<P>,
    lists: SessionSeats<N>,
    threshold: u32,
    spread: ClaimSpread,
    passes: Vec<Pass<N, P>>,
) -> Result<Vec<Pass<N, P>>, Option<(PoolSeat<P>, Vec<Pass<N, P>>)>>
    requires main { IsSpare main.old }
    requires credits { session_credits * length lists.items < main.old.credits }
    requires lists { All IsNewList lists.items }
    requires threshold { (0 < threshold) × (threshold ≤ 512) }
    requires room { (passes.items ≡ []) × (length lists.items ≤ vec_capacity passes) }
    ensures main { IsSpare main.new }
    ensures credits { IfOk result (λ _. main.new.credits + session_credits * length lists.items ≡ main.old.credits) }
    ensures passes { IfOk result (λ passes. All (λ p. IsNewPass P.sizes p × (p.threshold ≡ threshold)) passes.items) }
    ensures apart { IfOk result (λ passes. StagesAreApart (map (λ p. p.stage) passes.items)) }
    ensures lists { IfOk result (λ passes. map (λ p. p.list) passes.items ≡ reverse lists.items) }
    ensures refused { IfErr result (λ e. IfSome e (λ r. AreRefused P.sizes (length lists.items) main.old main.new r.0
        r.1.items)) }
{
    let mut lists = lists;
    let mut passes = passes;
    while let Some(mine) = lists.pop() {
        match open_pass(alloc, pool, main, mine, threshold, spread) {
            Ok(mut pass) => {
                compare_with(pool, &mut pass, &mut passes);
                passes.push_reserved(pass);
            }
            Err(refused) => {
                let Some(seat) = refused else {
                    return Err(None);
                };
                return Err(Some((seat, passes)));
            }
        }
    }
    Ok(passes)
}

// The seats of passes that made no call go into one.
fn join_all<N: BookName, P: PoolName>(
    pool: &Pool<P>,
    into: &mut PoolSeat<P>,
    passes: Vec<Pass<N, P>>,
)
    requires { All (IsNewPass P.sizes) passes.items }
    ensures { HasStages P.sizes (length passes.items) into.old into.new }
{
    for pass in passes {
        let (seat, _) = pass.close(pool);
        pool.join(into, seat);
    }
}

/// While `main` has all other credits a pass is opened for each list, in the lists' order, so that the first session's
/// stage has the least addresses; each claims where the spread says. That a stage finds no buffer can't be: a pool that
/// is closed says that each buffer which was found held was claimed, and nobody has claimed any but the stages.
pub(crate) fn open_passes<N: BookName, P: PoolName>(
    alloc: Global,
    pool: Pool<P>,
    main: PoolSeat<P>,
    lists: SessionSeats<N>,
    threshold: u32,
    spread: ClaimSpread,
    passes: Vec<Pass<N, P>>,
) -> Result<Passed<N, P>, Memory>
    requires main { main ≡ opener P.sizes.credits }
    requires credits { session_credits * length lists.items < P.sizes.credits }
    requires buffers { 128 * length lists.items ≤ P.sizes.small }
    requires lists { All IsNewList lists.items }
    requires threshold { (0 < threshold) × (threshold ≤ 512) }
    requires room { (passes.items ≡ []) × (length lists.items ≤ vec_capacity passes) }
    ensures main { IfOk result (λ r. IsSpare r.main
        × (r.main.credits + session_credits * length lists.items ≡ P.sizes.credits)) }
    ensures passes { IfOk result (λ r. All (λ p. IsNewPass P.sizes p × (p.threshold ≡ threshold)) r.passes.items) }
    ensures apart { IfOk result (λ r. StagesAreApart (map (λ p. p.stage) r.passes.items)) }
    ensures lists { IfOk result (λ r. map (λ p. p.list) r.passes.items ≡ lists.items) }
{
    let mut main = main;
    // A list is taken from the end.
    let lists = turned(alloc, lists)?;
    match open_all(alloc, &pool, &mut main, lists, threshold, spread, passes) {
        Ok(passes) => Ok(Passed { pool, main, passes }),
        Err(refused) => {
            let Some((seat, passes)) = refused else {
                return Err(Memory);
            };
            pool.join(&mut main, seat);
            join_all(&pool, &mut main, passes);
            pool.close(main);
            no_stage_refused();
            unreachable!()
        }
    }
}
