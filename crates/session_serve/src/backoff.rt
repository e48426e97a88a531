// Waiting between looks.
use std::sync::Wait;
use std::sync::atomic::AtomicU64;
use std::thread;
use std::time::Duration;

// The first look behind one that found nothing follows at once, if nobody helps: the thread only lets others run.
const YIELDS: u32 = 1;

// So many looks more come after a short sleep each.
const SHORT_WAITS: u32 = 100;

/// What a thread does that found nothing to do.
#[derive(Drop)]
pub(crate) struct Backoff {
    looks: u32,
    yields: u32,
    // How many microseconds a short sleep takes.
    short: u32,
    // Nobody writes it, so a sleep on it ends by its time.
    still: AtomicU64,
}

impl Backoff {
    /// Of one that nobody helps.
    pub fn new() -> Self {
        Backoff::of(YIELDS, 20)
    }

    /// Of one that is seldom missed.
    pub fn long() -> Self {
        Backoff::of(0, 100)
    }

    fn of(yields: u32, short: u32) -> Self {
        Backoff {
            looks: 0,
            yields,
            short,
            still: AtomicU64::new(0),
        }
    }

    /// Something was found.
    pub fn found(&mut self) {
        self.looks = 0;
    }

    /// Waits before the next look: the longer, the more looks found nothing.
    pub fn wait<R: Wait>(&mut self, rt: &R) {
        if self.looks < self.yields {
            thread::yield_now();
        } else if self.looks - self.yields < SHORT_WAITS {
            let short = Duration::from_micros(self.short as u64);
            self.still.park_timeout(rt, 0, short);
        } else {
            self.still.park_timeout(rt, 0, Duration::from_micros(500));
        }
        self.looks = self.looks.saturating_add(1);
    }
}
