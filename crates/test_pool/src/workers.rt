//! What no clause says: each job is done once, by workers at the same time, and want of memory comes before the first.
ghost use Rattle.std.specs.Prelude.{◌<◌, ◌≤◌};

use std::alloc::{AllocError, Global};
use std::sync::Wait;
use std::sync::atomic::{AtomicU64, Ordering};
use std::thread::{Threads, yield_now};
use work_queue::in_workers;

fn numbers(alloc: Global, n: u64) -> Result<Vec<u64>, AllocError> {
    let mut jobs = Vec::new(alloc);
    for i in 0..n {
        jobs.push(i)?;
    }
    Ok(jobs)
}

// So many jobs are called: the sum of their counts, of which each has 3 bits, and what they answered.
fn worked<R: Threads + Wait + Sync>(
    rt: &R,
    alloc: Global,
    workers: u16,
    n: u64,
) -> Result<(u64, Vec<u64>), AllocError>
    requires { (0 < workers) × (workers ≤ 16) }
{
    let calls = AtomicU64::new(0);
    let Ok(results) = in_workers(
        rt,
        alloc,
        numbers(alloc, n)?,
        workers,
        &|job: u64| {
            calls.fetch_add(1u64.wrapping_shl((job % 20 * 3) as u32), Ordering::SeqCst);
            job ^ 85
        },
    ) else {
        return Err(AllocError);
    };
    Ok((calls.load(Ordering::SeqCst), results))
}

// So many counts of 1.
fn all_once(n: u64) -> u64 {
    let mut once = 0u64;
    for _ in 0..n {
        once = once.wrapping_mul(8).wrapping_add(1);
    }
    once
}

// Whether there are so many results, each that of its job.
fn are_done(results: &[u64], n: u64) -> bool {
    for i in 0..results.len() {
        if results[i] != i as u64 ^ 85 {
            return false;
        }
    }
    results.len() as u64 == n
}

// Each job is called once: its own count is 1 in the sum of counts.
#[test]
fn each_job_is_done_once(rt: HostRuntime) -> Result<(), AllocError> {
    for workers in 1u16..17 {
        for n in 0u64..20 {
            let (calls, results) = worked(&rt, rt.alloc(), workers, n)?;
            assert!(rt;
                calls == all_once(n) && are_done(&results, n),
                "{workers} and {n}"
            );
        }
    }
    Ok(())
}

#[derive(Drop)]
struct Letter {
    words: Vec<u64>,
}

#[derive(Clone, Copy, PartialEq, Eq, Drop)]
enum Weight {
    Empty,
    Words(usize),
}

// Jobs that are moved and results of another kind.
#[test]
fn letters_are_weighed(rt: HostRuntime) -> Result<(), AllocError> {
    let alloc = rt.alloc();
    let mut letters = Vec::new(alloc);
    for n in 0u64..7 {
        letters.push(Letter {
            words: numbers(alloc, n % 3)?,
        })?;
    }
    let weigh = |letter: Letter| match letter.words.len() {
        0 => Weight::Empty,
        n => Weight::Words(n),
    };
    let Ok(weights) = in_workers(&rt, alloc, letters, 3, &weigh) else {
        return Err(AllocError);
    };
    let wanted = [
        Weight::Empty,
        Weight::Words(1),
        Weight::Words(2),
        Weight::Empty,
        Weight::Words(1),
        Weight::Words(2),
        Weight::Empty,
    ];
    assert!(rt; weights.as_slice() == wanted.as_slice());
    Ok(())
}

// Whether so many have arrived before the patience ends.
fn are_there(arrived: &AtomicU64, wanted: u64) -> bool {
    for _ in 0..4_000_000u32 {
        if arrived.load(Ordering::SeqCst) >= wanted {
            return true;
        }
        yield_now();
    }
    false
}

// As many jobs as workers, which wait for each other: whether each met all.
fn met<R: Threads + Wait + Sync>(
    rt: &R,
    alloc: Global,
    workers: u16,
) -> Result<Vec<bool>, AllocError>
    requires { (0 < workers) × (workers ≤ 16) }
{
    let arrived = AtomicU64::new(0);
    let jobs = numbers(alloc, workers as u64)?;
    let answers = in_workers(
        rt,
        alloc,
        jobs,
        workers,
        &|_job: u64| {
            arrived.fetch_add(1, Ordering::SeqCst);
            are_there(&arrived, workers as u64)
        },
    );
    match answers {
        Ok(met) => Ok(met),
        Err(_) => Err(AllocError),
    }
}

fn are_all(together: &[bool], count: usize) -> bool {
    for met in together {
        if !*met {
            return false;
        }
    }
    together.len() == count
}

#[test]
fn workers_work_at_the_same_time(rt: HostRuntime) -> Result<(), AllocError> {
    for workers in 2u16..5 {
        let together = met(&rt, rt.alloc(), workers)?;
        assert!(rt; are_all(&together, workers as usize), "{workers}");
    }
    Ok(())
}

// All jobs are done, or none was begun and they are back as they were.
#[test]
fn nothing_is_begun_without_memory(rt: HostRuntime) -> Result<(), AllocError> {
    let alloc = rt.alloc();
    let calls = AtomicU64::new(0);
    let jobs = numbers(alloc, 5)?;
    let (items, wanted) = match in_workers(
        &rt,
        alloc,
        jobs,
        3,
        &|job: u64| {
            calls.fetch_add(1, Ordering::SeqCst);
            job
        },
    ) {
        Ok(results) => (results, 5),
        Err(jobs) => (jobs, 0),
    };
    assert_eq!(rt; items.as_slice(), [0, 1, 2, 3, 4].as_slice());
    assert_eq!(rt; calls.load(Ordering::SeqCst), wanted);
    Ok(())
}
