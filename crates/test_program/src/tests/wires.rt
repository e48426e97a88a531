// Wires that keep back what is put until they are flushed.
use super::{check_over, written_out};
use flake_base::{Failed, Past, Wire};
use session_pass::NoGate;
use std::alloc::Global;
use std::process::Abort;
use std::sync::Wait;
use std::test::Fail;
use std::thread::Threads;

/// Keeps all back that is put, until it is flushed; its flushes fail if they are to.
#[derive(Drop)]
struct KeepingWire {
    put: Past,
    kept: u64,
    faults: u64,
    flush_fails: bool,
}

impl Wire for KeepingWire {
    ghost wire_told = { λ w. record {
      put = w.put.bytes;
      kept = w.kept;
      put_faults = 0;
      flush_faults = w.faults;
    } };

    fn put(&mut self, piece: &[u8]) -> Result<(), Failed> {
        self.put.add(piece);
        self.kept = self.kept.saturating_add(piece.len() as u64);
        Ok(())
    }

    fn flush(&mut self) -> Result<(), Failed> {
        if self.flush_fails {
            self.faults = self.faults.saturating_add(1);
            return Err(Failed);
        }
        self.kept = 0;
        Ok(())
    }

    fn shown(&self) -> Option<&[u8]> {
        None
    }
}

// A case over one wire that keeps back what is put.
fn check_kept<R: Abort + Threads + Wait + Sync>(
    rt: &R,
    alloc: Global,
    case: &str,
    flush_fails: bool,
) -> Result<(), Fail> {
    let case = written_out(alloc, case)?;
    let wire = KeepingWire {
        put: Past::new(),
        kept: 0,
        faults: 0,
        flush_fails,
    };
    let mut wires: Vec<Box<dyn Wire>> = Vec::with_capacity(alloc, 1)?;
    wires.push(Box::new(alloc, wire)?)?;
    check_over(rt, alloc, case.as_str(), None, &[], wires, &NoGate)?;
    Ok(())
}

const SERVED: &str = "\
case a session whose wire is flushed at the end
words serve in.resp
file in.resp
ask SET a 1
ask GET a
told status 0
both session 0 clean taken 47 replies 2 wire whole
both held 1 0
told shards 8
*2 told 4 0 {0+1} 0
told file 0, 1 wires, 1 opens";

const SERVED_IN_VAIN: &str = "\
case a session whose wire fails at its flush
words serve in.resp
file in.resp
ask SET a 1
ask GET a
told status 5
both session 0 clean taken 47 replies 2 wire failed
both held 1 0
told shards 8
*2 told 4 0 {0+1} 0
told file 0, 1 wires, 1 opens";

#[test]
fn a_wire_is_flushed_at_the_end(rt: HostRuntime) -> Result<(), Fail> {
    check_kept(&rt, rt.alloc(), SERVED, false)?;
    check_kept(&rt, rt.alloc(), SERVED_IN_VAIN, true)
}

const JOINED: &str = "\
case frames that are put together on a wire that is flushed
words join 64 2 f
file f
frame 0 0 1 +OK~
frame 1 0 1 $-1~
told status 0
told held 0 0 no pool
told file 0, 1 wires, 1 opens";

const JOINED_IN_VAIN: &str = "\
case frames that are put together on a wire that fails at its flush
words join 64 2 f
file f
frame 0 0 1 +OK~
frame 1 0 1 $-1~
told status 5
told held 0 0 no pool
told file 0, 1 wires, 1 opens";

#[test]
fn a_wire_is_flushed_behind_a_join(rt: HostRuntime) -> Result<(), Fail> {
    check_kept(&rt, rt.alloc(), JOINED, false)?;
    check_kept(&rt, rt.alloc(), JOINED_IN_VAIN, true)
}
