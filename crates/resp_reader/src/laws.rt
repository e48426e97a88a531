//! What the contracts of the reader imply.
ghost use Rattle.std.specs.Prelude.{◌≡◌, ◌++◌, List, ℕ, None};
ghost use Rattle.flake_model.specs.Resp.{Words};
ghost use Rattle.resp_reader.specs.Reader.{Progress, ReadsRequests};

/// Two readers that were fed the same bytes, in whatever pieces, give the same requests and errors, and hold the
/// same back.
pub fn any_cutting()
    ensures { (bytes : List ℕ) (given others : List Words) (a b : Progress) → ReadsRequests bytes given a
        → ReadsRequests bytes others b
        → (given ++ a.requests ≡ others ++ b.requests) × (a.closed ≡ b.closed)
        × (a.closed ≡ None → (a.front ≡ b.front) × (a.place ≡ b.place)) }
{}
