// The sessions with their sources and wires.
ghost use Rattle.std.specs.Prelude.{◌≡◌, ◌<◌, ◌≤◌, ◌++◌, [], All, Some, length, map, vec_capacity};
ghost use Rattle.std.specs.Vec.Iter.{into_iter_items};
ghost use Rattle.command_pump.specs.Pump.{origin_of};
ghost use Rattle.session_pass.specs.Fresh.{IsFresh};
ghost use Rattle.drive_script.specs.Driving.{driving_of, IsNew};
ghost use Rattle.run_resources.specs.Opened.{IsSessionSlot};

use command_pump::Pump;
use drive_script::{Asking, Connection, Driving};
use flake_base::Source;
use order_book::BookName;
use pinned_pool::PoolName;
use run_resources::SessionSlot;
use std::alloc::Global;
use std::vec::IntoIter;

/// Each session slot gets the source and the wire at its place. Wires past them are left.
pub(crate) fn pair_up<N: BookName, P: PoolName + Send, S: Source + Drop, W: Drop>(
    alloc: Global,
    slots: Vec<SessionSlot<N, P>>,
    sources: Vec<S>,
    wires: Vec<W>,
    drivings: Vec<Driving<N, P, S, W>>,
) -> (Vec<Driving<N, P, S, W>>, IntoIter<W>)
    requires slots { All (λ d. IsSessionSlot P.sizes d.session d.device.end d.device.failed) slots.items }
    requires sources { length sources.items ≡ length slots.items }
    requires unread { All (λ s. S.given s ≡ []) sources.items }
    requires wires { length slots.items ≤ length wires.items }
    requires room { (drivings.items ≡ []) × (length slots.items ≤ vec_capacity drivings) }
    ensures fresh { All (λ d. IsNew P.sizes (driving_of d.connection.session d.connection.device.failed
        d.connection.device.end d.asking.kept d.asking.end d.asking.pump d.wire) × IsFresh P.sizes d.connection.session
        d.asking.pump) result.0.items }
    ensures sessions { map (λ d. d.connection.session) result.0.items ≡ map (λ d. d.session) slots.items }
    ensures origins { map (λ d. d.asking.pump.origin) result.0.items
        ≡ map (λ s. origin_of (S.name s) (S.whole s)) sources.items }
    ensures faults { map (λ d. d.asking.pump.faults) result.0.items ≡ map (λ s. S.read_faults s) sources.items }
    ensures wires { map (λ d. d.wire) result.0.items ++ map Some (into_iter_items result.1) ≡ map Some wires.items }
{
    let mut drivings = drivings;
    let mut more_sources = sources.into_iter();
    let mut more_wires = wires.into_iter();
    for slot in slots {
        let Some(source) = more_sources.next() else {
            unreachable!()
        };
        let Some(wire) = more_wires.next() else {
            unreachable!()
        };
        let SessionSlot { session, device } = slot;
        let pump = Pump::new(alloc, source);
        let connection = Connection { session, device };
        let asking = Asking {
            pump,
            kept: None,
            end: None,
        };
        drivings.push_reserved(Driving {
            connection,
            asking,
            wire: Some(wire),
        });
    }
    (drivings, more_wires)
}
