// What a ring asks of the frames that it carries.
ghost use Rattle.std.specs.Prelude.{◌≡◌, ◌<◌, List, Some, length, slice_get};

use flake_base::Seg;

/// A frame is sent as the bytes of its segments, in their order.
pub trait Framed: Send + Drop {
    ghost use Rattle.std.specs.Prelude.{List};
    ghost use Rattle.flake_base.specs.declared.segment.Seg.{Seg};

    ghost segs: { Self → List Seg };

    /// How many segments the frame has, each of which takes one descriptor.
    fn count(&self) -> usize
        ensures { result ≡ length (Self.segs self.now) };

    fn seg(&self, i: usize) -> Seg
        requires { i < length (Self.segs self.now) }
        ensures { slice_get (Self.segs self.now) i ≡ Some result };
}
