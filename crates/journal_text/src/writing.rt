ghost use Rattle.std.specs.Prelude.{◌≡◌, ◌++◌, ◌∷◌, [], map, IfOk, OnOk};
ghost use Rattle.std.specs.Fmt.{decimal};
ghost use Rattle.flake_base.specs.Histories.{histories};
ghost use Rattle.journal_text.specs.Lines.{joined_lines};
ghost use Rattle.journal_text.specs.Text.{entry_line, journal_text_of};

use flake_base::{Bytes, Entry, Journal, Memory};
use itoa::Buffer;
use std::alloc::Global;

/// The text of a journal.
pub fn journal_text(alloc: Global, journal: &Journal) -> Result<Bytes, Memory>
    ensures { IfOk result (λ text. text.items ≡ journal_text_of (histories journal.now.items)) }
{
    let mut text = Bytes::new(alloc);
    text.append(b"shards ")?;
    put_number(&mut text, journal.len() as u64, b'\n')?;
    for shard in 0..journal.len() {
        put_history(&mut text, shard as u64, journal.get(shard).as_slice())?;
    }
    Ok(text)
}

// Puts the lines of a shard's entries behind what stands there.
fn put_history(text: &mut Bytes, shard: u64, history: &[Entry]) -> Result<(), Memory>
    ensures { OnOk result (text.new.items
        ≡ text.old.items ++ joined_lines (map entry_line (map (λ entry. (shard, entry)) history.now))) }
{
    for entry in history {
        put_entry(text, shard, entry)?;
    }
    Ok(())
}

fn put_entry(text: &mut Bytes, shard: u64, entry: &Entry) -> Result<(), Memory>
    ensures { OnOk result (text.new.items ≡ text.old.items ++ (entry_line (shard, entry.now) ++ 10 ∷ [])) }
{
    put_number(text, shard, b' ')?;
    put_number(text, u64::from(entry.session), b' ')?;
    put_number(text, u64::from(entry.call), b' ')?;
    put_number(text, u64::from(entry.part), b'\n')
}

// Puts a number, and the byte that ends it, behind what stands there.
fn put_number(text: &mut Bytes, n: u64, end: u8) -> Result<(), Memory>
    ensures { OnOk result (text.new.items ≡ text.old.items ++ (decimal n ++ end ∷ [])) }
{
    let mut buffer = Buffer::new();
    text.append(buffer.format(n).as_bytes())?;
    text.append(&[end])
}
