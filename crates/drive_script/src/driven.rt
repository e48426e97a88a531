// A whole schedule.
ghost use Rattle.std.specs.Prelude.{◌≡◌, ◌≤◌, ◌<◌, [], All, List, length, map, vec_capacity};
ghost use Rattle.std.specs.List.{AllZip};
ghost use Rattle.schedule_text.specs.Text.{line_session};
ghost use Rattle.session_pass.specs.Fresh.{IsFresh};
ghost use Rattle.transcript_model.specs.Lines.{LineEvent};
ghost use Rattle.drive_script.specs.Driven.{leaving_of, DroveAll};
ghost use Rattle.drive_script.specs.Driving.{Driving as Shown, driving_of, IsNew, IsUnderWay};
ghost use Rattle.drive_script.specs.Connections.{sends_by};
ghost use Rattle.drive_script.specs.Left.{IsGoing, HasLeft};
ghost use Rattle.drive_script.specs.Ran.{HasDriven};
ghost use Rattle.drive_script.specs.Says.{text_room};

use crate::driving::Driving;
use crate::leaving::DrivenAccount;
use crate::lines::drive_lines;
use crate::saying::LineRoom;
use any_wire::WireCalls;
use command_exec::Shop;
use flake_base::{Host, Source};
use order_book::BookName;
use pinned_pool::PoolName;
use schedule_text::Line;
use std::sync::Wait;

/// What a schedule leaves: of each session, in order; and whether a say failed.
#[derive(Drop)]
pub struct Driven<N: BookName, P: PoolName, S: Source, W> {
    pub accounts: Vec<DrivenAccount<N, P, S, W>>,
    pub failed: bool,
}

/// Does each line of a schedule and says what happened, until a say fails; then gathers and gives back what is left,
/// session by session, without lines. All room but that of the calls is the caller's, who can so take it before a
/// source is handed on.
pub fn drive<
    R: Wait,
    N: BookName,
    P: PoolName + Send,
    S: Source + Drop,
    W: Drop,
    H: Host,
    C: WireCalls<W>,
>(
    rt: &R,
    shop: &Shop<'_, N, P>,
    schedule: &[Line],
    sessions: Vec<Driving<N, P, S, W>>,
    room: LineRoom,
    accounts: Vec<DrivenAccount<N, P, S, W>>,
    host: &mut H,
    calls: &C,
) -> Driven<N, P, S, W>
    requires calls { C.can_put calls.now × C.can_flush calls.now }
    requires there { All (λ line. line_session line < length sessions.items) schedule.now }
    requires fresh { All (λ d. IsNew P.sizes (driving_of d.connection.session d.connection.device.failed
        d.connection.device.end d.asking.kept d.asking.end d.asking.pump d.wire) × IsFresh P.sizes d.connection.session
        d.asking.pump) sessions.items }
    requires line { text_room ≤ vec_capacity room.text }
    requires room { (accounts.items ≡ []) × (length sessions.items ≤ vec_capacity accounts) }
    ensures driven { DroveAll (C.put_may calls.now) (C.flush_may calls.now) P.sizes
        N.sizes.shards (map (λ d. driving_of d.connection.session d.connection.device.failed d.connection.device.end
        d.asking.kept d.asking.end d.asking.pump d.wire) sessions.items) schedule.now
        (map (λ a. leaving_of a.end a.mine a.seat a.pump a.wire) result.accounts.items) result.failed
        (H.host_told host.old) (H.host_told host.new) }
{
    let mut sessions = sessions;
    let mut room = room;
    let failed = drive_lines(rt, shop, schedule, &mut sessions, &mut room, host, calls);
    let accounts = leave_all(shop, sessions, accounts, calls);
    Driven { accounts, failed }
}

// One after another.
fn leave_all<N: BookName, P: PoolName + Send, S: Source + Drop, W: Drop, C: WireCalls<W>>(
    shop: &Shop<'_, N, P>,
    sessions: Vec<Driving<N, P, S, W>>,
    accounts: Vec<DrivenAccount<N, P, S, W>>,
    calls: &C,
) -> Vec<DrivenAccount<N, P, S, W>>
    requires calls { C.can_put calls.now × C.can_flush calls.now }
    requires going { All (λ d. IsGoing (sends_by (C.put_may calls.now) (C.flush_may calls.now))
        P.sizes N.sizes.shards (driving_of d.connection.session d.connection.device.failed d.connection.device.end
        d.asking.kept d.asking.end d.asking.pump d.wire)) sessions.items }
    requires room { (accounts.items ≡ []) × (length sessions.items ≤ vec_capacity accounts) }
    ensures { AllZip (λ d a. (first : Shown W) (events : List LineEvent)
        → IsUnderWay (sends_by (C.put_may calls.now) (C.flush_may calls.now))
        P.sizes N.sizes.shards first events (driving_of d.connection.session d.connection.device.failed
        d.connection.device.end d.asking.kept d.asking.end d.asking.pump d.wire)
        → HasLeft (sends_by (C.put_may calls.now) (C.flush_may calls.now)) P.sizes first
        events a.end a.mine a.pump a.wire
        × HasDriven (C.put_may calls.now) (C.flush_may calls.now) P.sizes N.sizes.shards first
        events a.end a.mine a.seat a.pump a.wire) sessions.items result.items }
{
    let mut accounts = accounts;
    for session in sessions {
        accounts.push_reserved(session.leave(shop, calls));
    }
    accounts
}
