// Who is asked before each call.
use std::sync::Wait;

/// Is called before each call of a session, and may wait.
pub trait Gate: Sync {
    fn before<R: Wait>(&self, rt: &R, session: u16, call: u32);
}

/// Lets every call through.
#[derive(Clone, Copy, Debug)]
pub struct NoGate;

impl Gate for NoGate {
    #[inline(always)]
    fn before<R: Wait>(&self, _rt: &R, _session: u16, _call: u32) {}
}
