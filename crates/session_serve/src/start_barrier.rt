// Whether a device has come to run beside its session.
use std::sync::Wait;
use std::sync::atomic::{AtomicU64, Ordering};
use std::time::Duration;

const OPEN: u64 = 0;

const MET: u64 = 1;

const LEFT: u64 = 2;

// So often a session looks for its device, each time for a millisecond at most.
const LOOKS: u32 = 1000;

/// Where a session waits for its device before the first command. Either both go on, or neither does.
#[derive(Drop)]
pub(crate) struct StartBarrier {
    state: AtomicU64,
}

impl StartBarrier {
    pub fn new() -> Self {
        StartBarrier {
            state: AtomicU64::new(OPEN),
        }
    }

    /// The device has come. Answers whether its session is still there.
    pub fn come(&self) -> bool {
        let met = self
            .state
            .compare_exchange(OPEN, MET, Ordering::SeqCst, Ordering::SeqCst)
            .is_ok();
        self.state.wake_one();
        met
    }

    /// The session waits for its device. Answers whether it has come; it may be that no thread could be started for it.
    pub fn wait<R: Wait>(&self, rt: &R) -> bool {
        for _ in 0..LOOKS {
            if self.state.load(Ordering::SeqCst) == MET {
                return true;
            }
            self.state
                .park_timeout(rt, OPEN as u32, Duration::from_millis(1));
        }
        self.state
            .compare_exchange(OPEN, LEFT, Ordering::SeqCst, Ordering::SeqCst)
            .is_err()
    }
}
