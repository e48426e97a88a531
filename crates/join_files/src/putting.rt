// Replies that are put on a wire.
ghost use Rattle.std.specs.Prelude.{not};
ghost use Rattle.flake_model.specs.Wire.{KeptIs};
ghost use Rattle.mtu_frames.specs.Joining.{IsWhole, replies};
ghost use Rattle.any_wire.specs.Sent.{FlushIs, WasSent};

use flake_base::{Failed, Wire};
use mtu_frames::Joiner;

// Flushes; answers whether that did not fail.
fn flush(wire: &mut dyn Wire) -> bool
    ensures { FlushIs (not result) (wire_told wire.old) (wire_told wire.new) }
{
    match wire.flush() {
        Ok(()) => true,
        Err(Failed) => false,
    }
}

/// Puts the replies in call order, and flushes where no put failed; answers whether nothing failed. It takes no memory.
pub fn put_joined(joiner: &Joiner, wire: &mut dyn Wire) -> bool
    requires { IsWhole joiner.now.frames joiner.now.calls }
    ensures sent { WasSent (not result) (replies joiner.now.frames joiner.now.calls) (wire_told wire.old)
        (wire_told wire.new) }
    ensures flushed { KeptIs (not result) (wire_told wire.old).kept (wire_told wire.new).kept }
{
    if !joiner.put_all(wire) {
        return false;
    }
    flush(wire)
}
