// The lines of a schedule, one after another.
ghost use Rattle.std.specs.Prelude.{◌<◌, ◌≤◌, All, length, map, vec_capacity};
ghost use Rattle.schedule_text.specs.Text.{line_session};
ghost use Rattle.drive_script.specs.Driving.{driving_of, AreFresh, WereDriven};
ghost use Rattle.drive_script.specs.Connections.{sends_by};
ghost use Rattle.drive_script.specs.Says.{text_room};

use crate::driving::Driving;
use crate::saying::{LineRoom, say_line};
use any_wire::WireCalls;
use command_exec::Shop;
use flake_base::{Host, Source};
use order_book::BookName;
use pinned_pool::PoolName;
use schedule_text::Line;
use std::sync::Wait;

/// Does each line, and says what happened; after a say that failed nothing more is said. Answers whether one failed.
pub fn drive_lines<
    R: Wait,
    N: BookName,
    P: PoolName + Send,
    S: Source,
    W: Drop,
    H: Host,
    C: WireCalls<W>,
>(
    rt: &R,
    shop: &Shop<'_, N, P>,
    schedule: &[Line],
    sessions: &mut Vec<Driving<N, P, S, W>>,
    room: &mut LineRoom,
    host: &mut H,
    calls: &C,
) -> bool
    requires calls { C.can_put calls.now × C.can_flush calls.now }
    requires there { All (λ line. line_session line < length sessions.old.items) schedule.now }
    requires room { text_room ≤ vec_capacity room.old.text }
    requires fresh { AreFresh (sends_by (C.put_may calls.now) (C.flush_may calls.now))
        P.sizes N.sizes.shards (map (λ d. driving_of d.connection.session d.connection.device.failed
        d.connection.device.end d.asking.kept
        d.asking.end d.asking.pump d.wire) sessions.old.items) }
    ensures driven { WereDriven (sends_by (C.put_may calls.now) (C.flush_may calls.now))
        P.sizes N.sizes.shards (map (λ d. driving_of d.connection.session d.connection.device.failed
        d.connection.device.end d.asking.kept
        d.asking.end d.asking.pump d.wire) sessions.old.items) schedule.now (map (λ d. driving_of d.connection.session
        d.connection.device.failed d.connection.device.end d.asking.kept d.asking.end d.asking.pump d.wire)
        sessions.new.items)
        result
        (H.host_told host.old) (H.host_told host.new) }
{
    let mut failed = false;
    for line in schedule {
        let session = line.session();
        let happened = sessions[usize::from(session)].act(
            rt,
            shop,
            *line,
            &mut room.sent,
            &mut room.stored,
            calls,
        );
        failed = say_line(host, failed, room, session, happened);
    }
    failed
}
