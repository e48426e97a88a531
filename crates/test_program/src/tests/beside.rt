//! Sessions at once, and each beside its device: gates and wires that wait for one another.
use super::pools::WHILE_HELD;
use super::{check_over, memory_wire, numbers_of, written_out};
use flake_base::{Failed, Fails, MemoryWire, Wire};
use session_pass::Gate;
use std::alloc::Global;
use std::process::Abort;
use std::sync::atomic::{AtomicU64, Ordering};
use std::sync::{Arc, Wait};
use std::test::Fail;
use std::thread;
use std::thread::Threads;

/// The most turns of a wait. A wait that comes so far has found nothing.
const MOST_TURNS: u32 = 20_000_000;

/// A count that gates and wires share.
type Shared = Arc<AtomicU64>;

fn shared(alloc: Global) -> Result<Shared, Fail> {
    Ok(Arc::new(alloc, AtomicU64::new(0))?)
}

// Waits until the count is at least so many. Answers whether it got there.
fn waits_for(count: &AtomicU64, least: u64) -> bool {
    for _ in 0..MOST_TURNS {
        if count.load(Ordering::SeqCst) >= least {
            return true;
        }
        thread::yield_now();
    }
    false
}

/// Before its first put it waits until `until` is at least `least`; then each put is counted in `puts`.
#[derive(Drop)]
struct WaitingWire<W: Wire> {
    inner: W,
    until: Shared,
    least: u64,
    puts: Shared,
    // How many waits found nothing.
    limits: Shared,
}

impl<W: Wire> Wire for WaitingWire<W> {
    ghost wire_told = { λ w. W.wire_told w.inner };

    fn put(&mut self, piece: &[u8]) -> Result<(), Failed> {
        if !waits_for(&self.until, self.least) {
            self.limits.fetch_add(1, Ordering::SeqCst);
        }
        let done = self.inner.put(piece);
        self.puts.fetch_add(1, Ordering::SeqCst);
        done
    }

    fn flush(&mut self) -> Result<(), Failed> {
        self.inner.flush()
    }

    fn shown(&self) -> Option<&[u8]> {
        self.inner.shown()
    }
}

fn waiting_wire(
    alloc: Global,
    until: &Shared,
    least: u64,
    puts: &Shared,
    limits: &Shared,
) -> Result<WaitingWire<MemoryWire>, Fail> {
    Ok(WaitingWire {
        inner: MemoryWire::new(alloc, 4096, Fails::new(alloc))?,
        until: Arc::try_clone(until)?,
        least,
        puts: Arc::try_clone(puts)?,
        limits: Arc::try_clone(limits)?,
    })
}

/// Holds call 0 of the session `first` until the other's wire got a put, and call 1 of the other one until that of
/// `first` got one.
#[derive(Drop)]
struct CrossedGate {
    first: u16,
    firsts_puts: Shared,
    others_puts: Shared,
    limits: Shared,
}

impl Gate for CrossedGate {
    fn before<R: Wait>(&self, _rt: &R, session: u16, call: u32) {
        let came = if session == self.first {
            call != 0 || waits_for(&self.others_puts, 1)
        } else {
            call != 1 || waits_for(&self.firsts_puts, 1)
        };
        if !came {
            self.limits.fetch_add(1, Ordering::SeqCst);
        }
    }
}

/// The puts on the wire of the session that is held first, those on the other one's, and the waits that found nothing.
#[derive(Drop)]
struct Crossing {
    firsts_puts: Shared,
    others_puts: Shared,
    limits: Shared,
}

fn make_crossing(alloc: Global) -> Result<Crossing, Fail> {
    Ok(Crossing {
        firsts_puts: shared(alloc)?,
        others_puts: shared(alloc)?,
        limits: shared(alloc)?,
    })
}

fn crossed_gate(crossing: &Crossing, first: u16) -> Result<CrossedGate, Fail> {
    Ok(CrossedGate {
        first,
        firsts_puts: Arc::try_clone(&crossing.firsts_puts)?,
        others_puts: Arc::try_clone(&crossing.others_puts)?,
        limits: Arc::try_clone(&crossing.limits)?,
    })
}

fn add_wire(
    alloc: Global,
    wires: &mut Vec<Box<dyn Wire>>,
    wire: WaitingWire<MemoryWire>,
) -> Result<(), Fail> {
    wires.push(Box::new(alloc, wire)?)?;
    Ok(())
}

fn crossed_wires(
    alloc: Global,
    crossing: &Crossing,
    first: u16,
) -> Result<Vec<Box<dyn Wire>>, Fail> {
    let (mine, others) = (&crossing.firsts_puts, &crossing.others_puts);
    let (zero, one) = if first == 0 {
        (mine, others)
    } else {
        (others, mine)
    };
    let mut wires: Vec<Box<dyn Wire>> = Vec::with_capacity(alloc, 2)?;
    for puts in [zero, one] {
        let wire = waiting_wire(alloc, puts, 0, puts, &crossing.limits)?;
        add_wire(alloc, &mut wires, wire)?;
    }
    Ok(wires)
}

fn expect_crossed(rt: &impl Abort, crossing: &Crossing) {
    assert_eq!(rt;
        crossing.limits.load(Ordering::SeqCst),
        0,
        "a wait found nothing"
    );
}

/// A case of two sessions, of which `first` is held at its first call. Each further wire keeps what is put.
pub(super) fn check_crossed<R: Abort + Threads + Wait + Sync>(
    rt: &R,
    alloc: Global,
    case: &str,
    first: u16,
) -> Result<(), Fail> {
    let case = written_out(alloc, case)?;
    let crossing = make_crossing(alloc)?;
    let gate = crossed_gate(&crossing, first)?;
    let mut wires = crossed_wires(alloc, &crossing, first)?;
    for _ in 2..numbers_of(alloc, case.as_str(), "wires ")?
        .pop()
        .unwrap_or(2)
    {
        wires.push(memory_wire(alloc, Fails::new(alloc))?)?;
    }
    check_over(rt, alloc, case.as_str(), None, &[], wires, &gate)?;
    expect_crossed(rt, &crossing);
    Ok(())
}

const TWO_PINGS: &str = "\
case two sessions that wait for one another
words serve in0.resp in1.resp --workers 2
file in0.resp
*2 ask PING
file in1.resp
*2 ask PING
wire 0
text +PONG~+PONG~
wire 1
text +PONG~+PONG~
told status 0
both session 0 clean taken 28 replies 2 wire whole
both session 1 clean taken 28 replies 2 wire whole
both held 0 0
told shards 8
told file 0, file 1, 2 wires, 2 opens";

// Each of two sessions waits for a put of the other, so they run at once, and each puts a reply before its next call.
#[test]
fn sessions_that_wait_for_one_another(rt: HostRuntime) -> Result<(), Fail> {
    for first in [0, 1] {
        check_crossed(&rt, rt.alloc(), TWO_PINGS, first)?;
    }
    Ok(())
}

/// Counts the calls, and those behind number 128 that came before the first put was done.
#[derive(Drop)]
struct CountingGate {
    calls: Shared,
    puts: Shared,
    early: Shared,
}

impl Gate for CountingGate {
    fn before<R: Wait>(&self, _rt: &R, _session: u16, call: u32) {
        self.calls.fetch_add(1, Ordering::SeqCst);
        if call > 128 && self.puts.load(Ordering::SeqCst) == 0 {
            self.early.fetch_add(1, Ordering::SeqCst);
        }
    }
}

/// What is counted while a device waits.
#[derive(Drop)]
struct Counts {
    calls: Shared,
    puts: Shared,
    limits: Shared,
    early: Shared,
}

fn make_counts(alloc: Global) -> Result<Counts, Fail> {
    Ok(Counts {
        calls: shared(alloc)?,
        puts: shared(alloc)?,
        limits: shared(alloc)?,
        early: shared(alloc)?,
    })
}

fn counting_gate(counts: &Counts) -> Result<CountingGate, Fail> {
    Ok(CountingGate {
        calls: Arc::try_clone(&counts.calls)?,
        puts: Arc::try_clone(&counts.puts)?,
        early: Arc::try_clone(&counts.early)?,
    })
}

// Its first put waits until the gate was called for the 129th time, before call 128.
fn counted_wires(alloc: Global, counts: &Counts) -> Result<Vec<Box<dyn Wire>>, Fail> {
    let mut wires: Vec<Box<dyn Wire>> = Vec::with_capacity(alloc, 1)?;
    let wire = waiting_wire(alloc, &counts.calls, 129, &counts.puts, &counts.limits)?;
    add_wire(alloc, &mut wires, wire)?;
    Ok(wires)
}

fn expect_counts(rt: &impl Abort, counts: &Counts) {
    assert_eq!(rt;
        counts.limits.load(Ordering::SeqCst),
        0,
        "the wire waited in vain"
    );
    assert_eq!(rt;
        counts.early.load(Ordering::SeqCst),
        0,
        "a call came too early"
    );
    assert_eq!(rt; counts.calls.load(Ordering::SeqCst), 131);
}

// The session goes on while its device waits, until it needs what that holds: 128 replies use up the stage, so call 128
// gets its buffers from the first one, which must be put before.
#[test]
fn a_session_goes_on_while_its_device_waits(rt: HostRuntime) -> Result<(), Fail> {
    let alloc = rt.alloc();
    let counts = make_counts(alloc)?;
    let gate = counting_gate(&counts)?;
    let wires = counted_wires(alloc, &counts)?;
    let case = written_out(alloc, WHILE_HELD)?;
    check_over(&rt, alloc, case.as_str(), None, &[], wires, &gate)?;
    expect_counts(&rt, &counts);
    Ok(())
}
