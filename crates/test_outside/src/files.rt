//! The host's own files.
use crate::checks::{equal, holds};
use crate::faulty::{Disk, FaultyHost};
use crate::outside::{flush, open, put, read, say};
use file_outside::{FileHost, FileSource, FileWire};
use flake_base::{Failed, Host, Memory, Source, Wire};
use std::alloc::{AllocError, Global};
use std::fs;
use std::process::Abort;
use std::rt::Files;
use std::test::Fail;

// Bytes that differ where they were shifted.
fn pattern(alloc: Global, len: usize) -> Result<Vec<u8>, AllocError> {
    let mut bytes = Vec::with_capacity(alloc, len)?;
    let mut next = 0u8;
    for _ in 0..len {
        bytes.push(next)?;
        next = next.wrapping_add(1) % 251;
    }
    Ok(bytes)
}

fn part<'a>(rt: &impl Abort, bytes: &'a [u8], from: usize, to: usize) -> &'a [u8] {
    bytes.get(from..to).expect(rt, "a part of the bytes")
}

fn wire<R: Files + Drop>(alloc: Global, rt: R, name: &str) -> Result<FileWire<R>, Memory> {
    let name = String::from_str(alloc, name)?;
    FileWire::new(rt, alloc, name)
}

fn expect_file(rt: &(impl Abort + Files + Alloc), name: &str, want: &[u8]) -> Result<(), Fail> {
    let found = fs::read(rt, name)?;
    holds(rt, name, found.as_slice() == want);
    Ok(())
}

/// A call of a wire with its answer, or what is seen then.
#[derive(Clone, Copy)]
enum Step<'a> {
    Put(&'a [u8], Result<(), Failed>),
    Flush(Result<(), Failed>),
    /// The file isn't there.
    Missing,
    /// The file's bytes.
    Holds(&'a [u8]),
}

fn check_step(
    rt: &(impl Abort + Files + Alloc),
    wire: &mut impl Wire,
    name: &str,
    step: Step<'_>,
) -> Result<(), Fail> {
    match step {
        Step::Put(piece, want) => equal(rt, "a put", put(wire, piece), want),
        Step::Flush(want) => equal(rt, "a flush", flush(wire), want),
        Step::Missing => holds(rt, "no file", fs::open(rt, name).is_err()),
        Step::Holds(want) => expect_file(rt, name, want)?,
    }
    Ok(())
}

// Each step in turn, with a wire to a file of this name.
fn check_steps(
    rt: &(impl Abort + Files + Alloc),
    wire: &mut impl Wire,
    name: &str,
    steps: &[Step<'_>],
) -> Result<(), Fail> {
    for step in steps {
        check_step(rt, wire, name, *step)?;
    }
    Ok(())
}

// How many puts and how many flushes failed. It has no clauses, so that no assertion carries those of the methods.
fn faults<R: Files + Drop>(wire: &FileWire<R>) -> (u64, u64) {
    (wire.put_faults(), wire.flush_faults())
}

#[test]
fn a_wire_makes_its_file_at_the_first_put(rt: HostRuntime) -> Result<(), Fail> {
    let mut wire = wire(rt.alloc(), rt.clone()?, "first_put.test")?;
    let steps = [
        Step::Flush(Ok(())),
        Step::Missing,
        Step::Put(b"+OK\r\n", Ok(())),
        Step::Holds(b""),
        Step::Put(b"$-1\r\n", Ok(())),
        Step::Flush(Ok(())),
        Step::Flush(Ok(())),
        Step::Holds(b"+OK\r\n$-1\r\n"),
    ];
    check_steps(&rt, &mut wire, "first_put.test", &steps)?;
    equal(&rt, "faults", faults(&wire), (0, 0));
    Ok(())
}

// The second piece doesn't fit beside the first, and the third is longer than the room.
#[test]
fn a_wire_writes_when_its_room_is_full(rt: HostRuntime) -> Result<(), Fail> {
    let bytes = pattern(rt.alloc(), 600_000)?;
    let bytes = bytes.as_slice();
    let mut wire = wire(rt.alloc(), rt.clone()?, "full_room.test")?;
    let steps = [
        Step::Put(part(&rt, bytes, 0, 40_000), Ok(())),
        Step::Holds(b""),
        Step::Put(part(&rt, bytes, 40_000, 302_144), Ok(())),
        Step::Holds(part(&rt, bytes, 0, 40_000)),
        Step::Put(part(&rt, bytes, 302_144, 600_000), Ok(())),
        Step::Holds(bytes),
        Step::Flush(Ok(())),
        Step::Holds(bytes),
    ];
    check_steps(&rt, &mut wire, "full_room.test", &steps)
}

#[test]
fn a_wire_to_no_folder_fails_at_its_put(rt: HostRuntime) -> Result<(), Fail> {
    let mut nowhere = wire(rt.alloc(), rt.clone()?, "no_such_folder/nowhere.test")?;
    let steps = [Step::Put(b"+OK\r\n", Err(Failed)), Step::Flush(Ok(()))];
    check_steps(&rt, &mut nowhere, "", &steps)?;
    equal(&rt, "faults", faults(&nowhere), (1, 0));
    Ok(())
}

// A disk that is full takes no byte: what waits fails at the flush, and what doesn't fit at the put.
#[test]
fn a_full_disk_is_a_fault(rt: HostRuntime) -> Result<(), Fail> {
    let bytes = pattern(rt.alloc(), 262_144)?;
    let mut full = wire(rt.alloc(), rt.clone()?, "/dev/full")?;
    let steps = [
        (Step::Put(b"+OK\r\n", Ok(())), (0, 0)),
        (Step::Flush(Err(Failed)), (0, 1)),
        (Step::Put(bytes.as_slice(), Err(Failed)), (1, 1)),
        (Step::Flush(Err(Failed)), (1, 2)),
    ];
    for (step, counts) in steps {
        check_step(&rt, &mut full, "", step)?;
        equal(&rt, "faults", faults(&full), counts);
    }
    Ok(())
}

// A flush fails after so many bytes, and again; once there is room, the next goes on where it stopped, and then nothing
// waits.
fn check_goes_on(
    rt: &(impl Abort + Files + Alloc),
    disk: &Disk,
    wire: &mut impl Wire,
    name: &str,
    bytes: &[u8],
) -> Result<(), Fail> {
    let front = part(rt, bytes, 0, disk.left());
    equal(rt, "a put", put(wire, bytes), Ok(()));
    for _ in 0..2 {
        equal(rt, "a flush", flush(wire), Err(Failed));
        expect_file(rt, name, front)?;
    }
    for left in [65_536, 0] {
        disk.set_left(left);
        equal(rt, "a flush", flush(wire), Ok(()));
        expect_file(rt, name, bytes)?;
    }
    Ok(())
}

// The host, on this disk.
fn on_disk<'a, R: Clone>(rt: &R, disk: &'a Disk) -> Result<FaultyHost<'a, R>, AllocError> {
    Ok(FaultyHost {
        rt: rt.clone()?,
        disk,
    })
}

#[test]
fn a_flush_goes_on_where_it_failed(rt: HostRuntime) -> Result<(), Fail> {
    let bytes = pattern(rt.alloc(), 65_536)?;
    for (left, name) in [
        (1024, "left_1024.test"),
        (2048, "left_2048.test"),
        (65_535, "left_65535.test"),
    ] {
        let disk = Disk::new(left);
        let mut wire = wire(rt.alloc(), on_disk(&rt, &disk)?, name)?;
        check_goes_on(&rt, &disk, &mut wire, name, bytes.as_slice())?;
    }
    Ok(())
}

// 65,536 bytes at once, then 4,464, and then a failure, each behind an interrupted read.
fn check_ahead(
    rt: &impl Abort,
    alloc: Global,
    disk: &Disk,
    source: &mut impl Source,
    bytes: &[u8],
) -> Result<(), Fail> {
    let mut room = vec![in alloc; 0; 8192]?;
    let mut given = Vec::with_capacity(alloc, 70_000)?;
    for turn in 0..18 {
        let count = if turn < 17 { 4096 } else { 368 };
        equal(rt, "a read", read(source, room.as_mut_slice()), Ok(count));
        given.extend_from_slice(part(rt, room.as_slice(), 0, count))?;
        equal(
            rt,
            "reads of the disk",
            disk.reads(),
            if turn < 16 { 2 } else { 4 },
        );
    }
    holds(rt, "what was read", given.as_slice() == bytes);
    equal(rt, "a read", read(source, room.as_mut_slice()), Err(Failed));
    Ok(())
}

// Opens a file that is there.
fn source_of<H: Host>(rt: &impl Abort, host: &mut H, name: &str) -> H::In {
    open(host, name).expect(rt, "the file is there")
}

#[test]
fn reads_ahead_and_tries_again(rt: HostRuntime) -> Result<(), Fail> {
    let alloc = rt.alloc();
    let bytes = pattern(alloc, 70_000)?;
    fs::write(&rt, "read_ahead.test", bytes.as_slice())?;
    let disk = Disk::new(0);
    let mut host = FileHost::new(on_disk(&rt, &disk)?, alloc, 1)?;
    let mut source = source_of(&rt, &mut host, "read_ahead.test");
    check_ahead(&rt, alloc, &disk, &mut source, bytes.as_slice())
}

// How often a host opened, and how often an open and a say failed. It has no clauses, so that no assertion carries
// those of the three methods.
fn counts<R: Drop>(host: &FileHost<R>) -> (u64, u64, u64) {
    (host.opens(), host.open_faults(), host.say_faults())
}

#[test]
fn a_host_opens_files_and_says(rt: HostRuntime) -> Result<(), Fail> {
    let mut host = FileHost::new(rt.clone()?, rt.alloc(), 1)?;
    holds(
        &rt,
        "no file",
        open(&mut host, "a_missing_file.test").is_none(),
    );
    equal(
        &rt,
        "opens, their faults and those of says",
        counts(&host),
        (1, 1, 0),
    );
    equal(&rt, "a say", say(&mut host, b"said\n"), Ok(()));
    equal(
        &rt,
        "opens, their faults and those of says",
        counts(&host),
        (1, 1, 0),
    );
    Ok(())
}

// The next bytes of a source are these.
fn expect_read(rt: &impl Abort, source: &mut impl Source, room: &mut [u8], want: &[u8]) {
    equal(rt, "a read", read(source, room), Ok(want.len()));
    holds(rt, "what was read", part(rt, room, 0, want.len()) == want);
}

fn read_faults<F>(source: &FileSource<F>) -> u64 {
    source.faults()
}

#[test]
fn a_source_gives_its_file_and_then_nothing(rt: HostRuntime) -> Result<(), Fail> {
    let bytes = pattern(rt.alloc(), 5000)?;
    fs::write(&rt, "a_source.test", bytes.as_slice())?;
    let mut host = FileHost::new(rt.clone()?, rt.alloc(), 2)?;
    let mut room = vec![in rt.alloc(); 0; 8192]?;
    for _ in 0..2 {
        let mut source = source_of(&rt, &mut host, "a_source.test");
        for (from, to) in [(0, 4096), (4096, 5000), (5000, 5000)] {
            let want = part(&rt, bytes.as_slice(), from, to);
            expect_read(&rt, &mut source, room.as_mut_slice(), want);
        }
        equal(&rt, "faults", read_faults(&source), 0);
    }
    Ok(())
}

// Opens as many sources of a file as a host was made for; a file that isn't there takes none.
fn open_all<H: Host>(
    rt: &impl Abort,
    alloc: Global,
    host: &mut H,
    count: usize,
) -> Result<Vec<H::In>, AllocError> {
    let mut sources = Vec::with_capacity(alloc, count)?;
    for _ in 0..count {
        holds(rt, "no file", open(host, "a_missing_file.test").is_none());
        sources.push(source_of(rt, host, "one_of_many.test"))?;
    }
    holds(rt, "no room", open(host, "one_of_many.test").is_none());
    Ok(sources)
}

// All three are open at once, each with room of its own.
#[test]
fn a_host_opens_as_many_files_as_it_was_made_for(rt: HostRuntime) -> Result<(), Fail> {
    let bytes = pattern(rt.alloc(), 6000)?;
    fs::write(&rt, "one_of_many.test", bytes.as_slice())?;
    let mut host = FileHost::new(rt.clone()?, rt.alloc(), 3)?;
    let mut sources = open_all(&rt, rt.alloc(), &mut host, 3)?;
    equal(
        &rt,
        "opens, their faults and those of says",
        counts(&host),
        (7, 4, 0),
    );
    for (from, to) in [(0, 4096), (4096, 6000)] {
        let want = part(&rt, bytes.as_slice(), from, to);
        for source in sources.as_mut_slice() {
            let mut room = [0; 4096];
            expect_read(&rt, source, &mut room, want);
        }
    }
    Ok(())
}
