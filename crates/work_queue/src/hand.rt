// The rule of a queue of jobs.
use crossbeam_queue::RuledArrayQueue;
use crossbeam_queue::protocol::{Join, Lesson, Outcome, Protocol, Split};
use std::collections::LinkedList;
use std::marker::PhantomData;

/// A job with its place among all.
#[derive(Drop)]
pub struct Numbered<T> {
    pub number: usize,
    pub job: T,
}

/// What a job gave, with the job's place.
#[derive(Drop)]
pub struct Done<X> {
    pub number: usize,
    pub result: X,
}

/// What a pass knows: its parts of the right to the whole, the jobs that were pushed, and the numbers of those that it
/// took. No value of it is made.
pub struct Hand<T> {
    pub parts: u64,
    pub all: LinkedList<T>,
    pub taken: LinkedList<u64>,
}

pub struct Dealing<T> {
    jobs: PhantomData<T>,
}

impl<T: Send + Drop> Protocol<Numbered<T>, Hand<T>> for Dealing<T> {
    ghost use Rattle.work_queue.specs.Dealt.{Dealt, opener};

    ghost holds = { Dealt };

    ghost first = { opener };
}

pub struct Puts;

impl<T: Send + Drop> Outcome<Numbered<T>, Hand<T>> for Puts {
    ghost use Rattle.work_queue.specs.Dealt.{puts};

    ghost then = { puts };
}

impl<T: Send + Drop> Lesson<Numbered<T>, Hand<T>> for Puts {
    ghost use Rattle.work_queue.specs.Dealt.{Fits};

    ghost fact = { Fits };
}

pub struct Takes;

impl<T: Send + Drop> Outcome<Numbered<T>, Hand<T>> for Takes {
    ghost use Rattle.work_queue.specs.Dealt.{takes};

    ghost then = { takes };
}

impl<T: Send + Drop> Lesson<Numbered<T>, Hand<T>> for Takes {
    ghost use Rattle.work_queue.specs.Dealt.{AllTaken};

    ghost fact = { AllTaken };
}

pub struct Cut;

impl<T: Send + Drop> Split<Hand<T>> for Cut {
    ghost use Rattle.work_queue.specs.Dealt.{lent, lender};

    ghost left = { lender };

    ghost right = { lent };
}

impl<T: Send + Drop> Join<Hand<T>> for Cut {
    ghost use Rattle.work_queue.specs.Dealt.{joined, nobody};

    ghost both = { joined };

    ghost spent = { nobody };
}

pub type Jobs<T> = RuledArrayQueue<Numbered<T>, Hand<T>, Dealing<T>>;
