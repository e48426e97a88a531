// What bytes are put on a wire with, whichever side has it.
ghost use Rattle.std.specs.Prelude.{ℕ, List, Bool};
ghost use Rattle.std.specs.Borrow.{Bor};

/// How bytes come onto a wire of this type: one call that puts a piece and one that flushes. Each answers whether it
/// failed.
pub trait WireCalls<W> {
    ghost can_put: { Self → Type 0 };

    ghost can_flush: { Self → Type 0 };

    ghost put_may: { Self → W → Bor (List ℕ) → (W × Bool) → Type 0 };

    ghost flush_may: { Self → W → (W × Bool) → Type 0 };

    fn put(&self, wire: W, piece: &[u8]) -> (W, bool)
        requires { can_put self.now }
        ensures { put_may self.now wire piece.entry result };

    fn flush(&self, wire: W) -> (W, bool)
        requires { can_flush self.now }
        ensures { flush_may self.now wire result };
}

/// By one function that puts and one that flushes.
#[derive(Drop)]
pub struct Calls<P, F> {
    pub put: P,
    pub flush: F,
}

impl<W, P: Fn(W, &[u8]) -> (W, bool), F: Fn(W) -> (W, bool)> WireCalls<W> for Calls<P, F> {
    ghost can_put = { λ calls. P.IsAlwaysCallable calls.put };

    ghost can_flush = { λ calls. F.IsAlwaysCallable calls.flush };

    ghost put_may = { λ calls w p r. P.post calls.put w p r };

    ghost flush_may = { λ calls w r. F.post calls.flush w r };

    fn put(&self, wire: W, piece: &[u8]) -> (W, bool)
        requires { P.IsAlwaysCallable self.now.put }
        ensures { P.post self.now.put wire piece.entry result }
    {
        (self.put)(wire, piece)
    }

    fn flush(&self, wire: W) -> (W, bool)
        requires { F.IsAlwaysCallable self.now.flush }
        ensures { F.post self.now.flush wire result }
    {
        (self.flush)(wire)
    }
}
