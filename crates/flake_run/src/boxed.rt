// How bytes come onto a boxed wire.
ghost use Rattle.std.specs.Prelude.{◌<◌, length, ⊤};
ghost use Rattle.any_wire.specs.Sent.{PutIs, FlushIs};

use any_wire::WireCalls;
use flake_base::Wire;

// By the wire's own calls; a piece without bytes isn't put.
#[derive(Drop)]
pub(crate) struct Boxed;

impl WireCalls<Box<dyn Wire>> for Boxed {
    ghost can_put = { λ _. ⊤ };

    ghost can_flush = { λ _. ⊤ };

    ghost put_may = { λ _ w p r. 0 < length p.now
        → PutIs r.1 p.now ((Wire-box w).wire_told w.value) ((Wire-box r.0).wire_told r.0.value) };

    ghost flush_may = { λ _ w r. FlushIs r.1 ((Wire-box w).wire_told w.value) ((Wire-box r.0).wire_told r.0.value) };

    fn put(&self, wire: Box<dyn Wire>, piece: &[u8]) -> (Box<dyn Wire>, bool)
        ensures { 0 < length piece.now → PutIs result.1 piece.now (wire_told wire) (wire_told result.0) }
    {
        let mut wire = wire;
        if piece.is_empty() {
            return (wire, false);
        }
        let failed = wire.put(piece).is_err();
        (wire, failed)
    }

    fn flush(&self, wire: Box<dyn Wire>) -> (Box<dyn Wire>, bool)
        ensures { FlushIs result.1 (wire_told wire) (wire_told result.0) }
    {
        let mut wire = wire;
        let failed = wire.flush().is_err();
        (wire, failed)
    }
}
