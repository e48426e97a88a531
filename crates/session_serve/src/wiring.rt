// How a session's replies come onto its wire.
ghost use Rattle.std.specs.Prelude.{ℕ, List, Bool};
ghost use Rattle.std.specs.Borrow.{Bor};

use any_wire::WireCalls;

/// The wire's calls, and how replies are put by them.
pub(crate) struct Wiring<'a, C> {
    pub calls: &'a C,
    /// Replies are put as frames of at most so many bytes, if there is a bound.
    pub mtu: Option<u16>,
}

// By calls of a type of its own, what the device's side does is compiled for it alone.
impl<'a, W, C: WireCalls<W>> WireCalls<W> for Wiring<'a, C> {
    ghost can_put = { λ wiring. C.can_put wiring.calls.now };

    ghost can_flush = { λ wiring. C.can_flush wiring.calls.now };

    ghost put_may = { λ wiring w p r. C.put_may wiring.calls.now w p r };

    ghost flush_may = { λ wiring w r. C.flush_may wiring.calls.now w r };

    #[inline(always)]
    fn put(&self, wire: W, piece: &[u8]) -> (W, bool)
        requires { C.can_put self.now.calls.now }
        ensures { C.put_may self.now.calls.now wire piece.entry result }
    {
        self.calls.put(wire, piece)
    }

    #[inline(always)]
    fn flush(&self, wire: W) -> (W, bool)
        requires { C.can_flush self.now.calls.now }
        ensures { C.flush_may self.now.calls.now wire result }
    {
        self.calls.flush(wire)
    }
}

impl<'a, C> Drop for Wiring<'a, C> {
    fn drop(self) {
        let Self { calls: _, mtu: _ } = self;
    }
}
