// A schedule is followed in what was opened.
ghost use Rattle.std.specs.Prelude.{◌≡◌, ◌+◌, ◌<◌, ◌≤◌, [], All, length, map, vec_capacity};
ghost use Rattle.std.specs.List.{range_with_len};
ghost use Rattle.schedule_text.specs.Text.{line_session};
ghost use Rattle.reply_planner.specs.Stages.{StagesAreApart};
ghost use Rattle.serve_model.specs.Seats.{IsSpare};
ghost use Rattle.flake_base.specs.Histories.{histories};
ghost use Rattle.tx_ring.specs.Shown.{ring_size};
ghost use Rattle.drive_script.specs.Says.{text_room};
ghost use Rattle.run_resources.specs.Opened.{IsPool, IsBook, IsSessionSlot, dump_credits, pool_sizes};
ghost use Rattle.session_serve.specs.Ran.{AreReads};
ghost use Rattle.drive_inputs.specs.Drove.{DroveInputs};

use crate::pairing::pair_up;
use crate::results::{Results, bring_in};
use crate::space::Space;
use any_wire::WireCalls;
use command_exec::Shop;
use drive_script::{DrivenAccount, Driving, drive};
use drive_told::laws::driven_together;
use flake_base::{Ends, Host, Journal, Source};
use order_book::BookName;
use pinned_pool::{PoolEnd, PoolName};
use run_resources::{Closed, RunResources, RunSizes, close_all};
use schedule_text::Line;
use std::sync::Wait;

/// Room for a run.
pub(crate) type Room<N, P, S, W> = Space<Driving<N, P, S, W>, DrivenAccount<N, P, S, W>, N, S, W>;

/// What a run leaves. Ends, sources and wires stand at their sources' places.
#[derive(Drop)]
pub struct DrivenRun<S, W> {
    pub ends: Ends,
    pub journal: Journal,
    pub pool: PoolEnd,
    pub sources: Vec<S>,
    pub wires: Vec<W>,
    /// Whether a say failed.
    pub failed: bool,
}

/// Does each line of the schedule, gathers and gives back what is left, and closes all.
pub(crate) fn drive_opened<
    R: Wait,
    N: BookName,
    P: PoolName + Send,
    S: Source + Drop,
    H: Host,
    W: Drop,
    C: WireCalls<W>,
>(
    rt: &R,
    sizes: &RunSizes,
    schedule: &[Line],
    resources: RunResources<N, P>,
    space: Room<N, P, S, W>,
    sources: Vec<S>,
    wires: Vec<W>,
    host: &mut H,
    calls: &C,
) -> DrivenRun<S, W>
    requires calls { C.can_put calls.now × C.can_flush calls.now }
    requires pool { IsPool (length sources.items) sizes.now P.sizes }
    requires book { IsBook (length sources.items) sizes.now N.sizes }
    requires wires { length sources.items ≤ length wires.items }
    requires there { All (λ line. line_session line < length sources.items) schedule.now }
    requires unread { All (λ s. S.given s ≡ []) sources.items }
    requires main { IsSpare resources.main × (resources.main.credits ≡ 1 + dump_credits sizes.now) }
    requires slots { All (λ d. IsSessionSlot P.sizes d.session d.device.end d.device.failed) resources.slots.items }
    requires numbers { map (λ d. d.session.pass.list.number) resources.slots.items
        ≡ range_with_len 0 (length sources.items) }
    requires apart { StagesAreApart (map (λ d. d.session.pass.stage) resources.slots.items) }
    requires ring { All (λ d. ring_size d.session.ring ≡ sizes.now.ring) resources.slots.items }
    requires threshold { All (λ d. d.session.pass.threshold ≡ sizes.now.threshold) resources.slots.items }
    requires drivings { (space.drivings.items ≡ []) × (length sources.items ≤ vec_capacity space.drivings) }
    requires accounts { (space.accounts.items ≡ []) × (length sources.items ≤ vec_capacity space.accounts) }
    requires line { text_room ≤ vec_capacity space.line.text }
    requires ends { (space.results.ends.items ≡ []) × (length sources.items ≤ space.results.ends.spare) }
    requires lists { (space.results.lists.items ≡ []) × (length sources.items ≤ space.results.lists.spare) }
    requires room { (space.results.sources.items ≡ []) × (length sources.items ≤ vec_capacity space.results.sources) }
    requires wire_room { (space.results.wires.items ≡ []) × (length wires.items ≤ vec_capacity space.results.wires) }
    ensures drove { DroveInputs (C.put_may calls.now) (C.flush_may calls.now)
        (pool_sizes (length sources.items) sizes.now) sizes.now.ring sizes.now.threshold schedule.now result.failed
        (map (λ s. S.given s) result.sources.items) (map (λ s. S.ended s) result.sources.items) result.ends.items
        (histories result.journal.items) result.pool wires.items result.wires.items (H.host_told host.old)
        (H.host_told host.new) }
    ensures names { map (λ s. S.name s) result.sources.items ≡ map (λ s. S.name s) sources.items }
    ensures wholes { map (λ s. S.whole s) result.sources.items ≡ map (λ s. S.whole s) sources.items }
    ensures shards { length result.journal.items ≡ sizes.now.shards }
    ensures reads { AreReads result.ends.items (map (λ s. S.read_faults s) sources.items)
        (map (λ s. S.read_faults s) result.sources.items) }
{
    let RunResources {
        pool,
        book,
        store,
        mut main,
        slots,
    } = resources;
    let Space {
        alloc,
        drivings,
        accounts,
        line,
        results,
    } = space;
    let (drivings, past) = pair_up(alloc, slots, sources, wires, drivings);
    let shop = Shop {
        pool: &pool,
        book: &book,
        store: &store,
    };
    let drive_script::Driven { accounts, failed } = drive(
        rt, &shop, schedule, drivings, line, accounts, host, calls,
    );
    let parts = store.into_parts(&pool);
    let Results {
        ends,
        lists,
        sources,
        wires,
    } = bring_in(&pool, &mut main, accounts, past, results);
    let Closed { journal, end: pool } = close_all(pool, book, parts, main, lists);
    driven_together::<W, C>(calls);
    let _ = sizes;
    DrivenRun {
        ends,
        journal,
        pool,
        sources,
        wires,
        failed,
    }
}
