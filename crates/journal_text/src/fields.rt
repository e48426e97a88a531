// What the lines of a journal's text have.
ghost use Rattle.std.specs.Prelude.{◌≡◌, ◌≢◌, ◌^◌, ◌<◌, ◌≤◌, ◌++◌, ◌∷◌, ℕ, List, IfSome, IsNone};
ghost use Rattle.std.specs.Fmt.{decimal};
ghost use Rattle.journal_text.specs.Text.{ShardEntry, head_line, entry_line, IsEntryPlaced};

use crate::numbers::number;
use flake_base::Entry;
use memchr::memchr;

/// The number of shards that a first line tells, from 1 to 16.
pub fn shards_of(line: &[u8]) -> Option<usize>
    ensures some { IfSome result (λ shards. line.now ≡ head_line shards) }
    ensures range { IfSome result (λ shards. (1 ≤ shards) × (shards ≤ 16)) }
    ensures none { IsNone result → (shards : ℕ) → 1 ≤ shards → shards ≤ 16 → line.now ≢ head_line shards }
{
    let shards = number(line.strip_prefix(b"shards ")?, 17)?;
    if shards == 0 {
        return None;
    }
    Some(shards as usize)
}

/// The entry that a line tells, with the number of its shard, which is below 16.
pub fn entry_of(line: &[u8]) -> Option<(usize, Entry)>
    ensures some { IfSome result (λ placed. line.now ≡ entry_line placed) }
    ensures range { IfSome result (IsEntryPlaced 16) }
    ensures none { IsNone result → (placed : ShardEntry) → IsEntryPlaced 16 placed → line.now ≢ entry_line placed }
{
    let (shard, line) = field(line, 16)?;
    let (session, line) = field(line, 16)?;
    let (call, line) = field(line, 1 << 32)?;
    let part = number(line, 64)?;
    let entry = Entry {
        session: session as u16,
        call: call as u32,
        part: part as u16,
    };
    Some((shard as usize, entry))
}

// The number below a limit that stands before the first blank, and the bytes behind that.
fn field(line: &[u8], limit: u64) -> Option<(u64, &[u8])>
    requires { limit ≤ 2 ^ 32 }
    ensures some { IfSome result (λ found. line.now ≡ decimal found.0 ++ 32 ∷ found.1.now) }
    ensures below { IfSome result (λ found. found.0 < limit) }
    ensures none { IsNone result → (n : ℕ) (rest : List ℕ) → n < limit → line.now ≢ decimal n ++ 32 ∷ rest }
{
    let end = memchr(b' ', line)?;
    let n = number(&line[..end], limit)?;
    Some((n, &line[end + 1..]))
}
