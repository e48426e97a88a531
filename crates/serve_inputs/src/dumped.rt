// What comes of the dump that a run is asked for.
ghost use Rattle.std.specs.Prelude.{◌≡◌};
ghost use Rattle.serve_inputs.specs.Dumped.{dump_told, no_dump};

use std::alloc::Global;

/// What came of a dump. Where none was taken there are no points and no bytes.
#[derive(Drop)]
pub struct DumpEnd {
    /// How many entries of each shard's history it stands behind.
    pub points: Vec<u64>,
    pub taken: bool,
    /// How long its text is.
    pub bytes: u64,
    /// A put of it or its flush failed.
    pub failed: bool,
}

impl DumpEnd {
    /// Of none.
    pub fn none(alloc: Global) -> Self
        ensures { dump_told result ≡ no_dump }
    {
        DumpEnd {
            points: Vec::new(alloc),
            taken: false,
            bytes: 0,
            failed: false,
        }
    }
}
