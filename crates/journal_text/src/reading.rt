ghost use Rattle.std.specs.Prelude.{◌≡◌, ◌+◌, ◌^◌, ◌<◌, ◌≤◌, ◌++◌, ◌∷◌, [], List, length, replicate, IfOk, IfErr};
ghost use Rattle.std.specs.Prelude.{OnOk, vec_len, slice_set, slice_index_or};
ghost use Rattle.flake_base.specs.declared.journal.Entry.{Entry};
ghost use Rattle.flake_base.specs.Histories.{histories};
ghost use Rattle.journal_text.specs.Lines.{lines_of};
ghost use Rattle.journal_text.specs.Text.{head_line};
ghost use Rattle.journal_text.specs.Reading.{AreJournalLines, IsJournalFault};

use crate::JournalError;
use crate::fields::{entry_of, shards_of};
use crate::lines::first_line;
use flake_base::{Entry, Journal, Memory, Sequence};
use std::alloc::Global;

/// The journal whose text it is; the last line may lack its LF.
pub fn read_journal(alloc: Global, text: &[u8]) -> Result<Journal, JournalError>
    ensures ok { IfOk result (λ journal. AreJournalLines (lines_of text.now) (histories journal.items)) }
    ensures err { IfErr result (IsJournalFault (lines_of text.now)) }
{
    let Some((head, entries)) = first_line(text) else {
        return Err(JournalError::BadLine { line: 1 });
    };
    let Some(shards) = shards_of(head) else {
        return Err(JournalError::BadLine { line: 1 });
    };
    let lists = no_entries(alloc, shards)?;
    read_entries(lists, entries)
}

// So many histories without an entry.
fn no_entries(alloc: Global, shards: usize) -> Result<Vec<Sequence<Entry>>, Memory>
    ensures { IfOk result (λ lists. histories lists.items ≡ replicate shards []) }
{
    let mut lists = Vec::with_capacity(alloc, shards)?;
    for _shard in 0..shards {
        lists.push(Sequence::new(alloc))?;
    }
    Ok(lists)
}

// Reads the lines behind the first one, which told the number of shards.
fn read_entries(lists: Vec<Sequence<Entry>>, entries: &[u8]) -> Result<Journal, JournalError>
    requires some { 1 ≤ vec_len lists }
    requires few { vec_len lists ≤ 16 }
    requires empty { histories lists.items ≡ replicate (vec_len lists) [] }
    requires room { length entries.now + 1 < 2 ^ 64 }
    ensures ok { IfOk result (λ journal.
        AreJournalLines (head_line (vec_len lists) ∷ lines_of entries.now) (histories journal.items)) }
    ensures err { IfErr result (IsJournalFault (head_line (vec_len lists) ∷ lines_of entries.now)) }
{
    let mut lists = lists;
    let mut rest = entries;
    let mut line = 1;
    let mut reached = 0;
    while let Some((text, behind)) = first_line(rest) {
        line += 1;
        match entry_of(text) {
            Some((shard, entry)) if reached <= shard && shard < lists.len() => {
                put(&mut lists, shard, entry)?;
                reached = shard;
            }
            _ => return Err(JournalError::BadLine { line }),
        }
        rest = behind;
    }
    Ok(Sequence::from_vec(lists))
}

// Puts an entry at the end of a shard's history.
fn put(lists: &mut Vec<Sequence<Entry>>, shard: usize, entry: Entry) -> Result<(), Memory>
    requires { shard < vec_len lists.old }
    ensures entered { OnOk result (histories lists.new.items ≡ slice_set (histories lists.old.items) shard
        (slice_index_or (histories lists.old.items) shard [] ++ entry ∷ [])) }
    ensures len { vec_len lists.new ≡ vec_len lists.old }
{
    lists[shard].push(entry)?;
    Ok(())
}
