// The text of a journal, in pieces.
ghost use Rattle.std.specs.Prelude.{◌≡◌, ◌+◌, ◌<◌, ◌≤◌, ◌++◌, ◌∷◌, [], length, map, vec_capacity, vec_len, OnOk, OnErr};
ghost use Rattle.std.specs.Prelude.{true, false};
ghost use Rattle.flake_base.specs.Causes.{HasCause};
ghost use Rattle.flake_base.specs.Growth.{Grew};
ghost use Rattle.flake_base.specs.Histories.{histories};
ghost use Rattle.journal_text.specs.Lines.{joined_lines};
ghost use Rattle.journal_text.specs.Text.{entry_line, head_line, journal_text_of};
ghost use Rattle.report_text.specs.Pieces.{KeepsFiles, SaidBut};
ghost use Rattle.report_text.specs.Report.{report_room};

use crate::put::{REPORT_ROOM, put, put_field};
use flake_base::{Entry, Failed, Host, Journal};

// The most bytes of a line.
const LINE_ROOM: usize = 84;

// Says what stands ready where a line more may not fit.
fn make_room<H: Host>(host: &mut H, text: &mut Vec<u8>) -> Result<(), Failed>
    requires { report_room ≤ vec_capacity text.old }
    ensures ok { OnOk result (SaidBut text.new.items text.old.items (H.host_told host.old).said
        (H.host_told host.new).said) }
    ensures room { OnOk result (vec_len text.new + 84 ≤ report_room) }
    ensures failed { OnErr result (Grew true text.old.items (H.host_told host.old).said (H.host_told host.new).said) }
    ensures capacity { report_room ≤ vec_capacity text.new }
    ensures files { KeepsFiles (H.host_told host.old) (H.host_told host.new) }
    ensures cause { HasCause (H.host_told host.old).say_faults (H.host_told host.new).say_faults result }
{
    if text.len() <= REPORT_ROOM - LINE_ROOM {
        return Ok(());
    }
    host.say(text.as_slice())?;
    text.clear();
    Ok(())
}

// Puts an entry's line behind what stands ready.
fn put_entry(text: &mut Vec<u8>, shard: u64, entry: &Entry)
    requires { vec_len text.old + 84 ≤ vec_capacity text.old }
    ensures items { text.new.items ≡ text.old.items ++ (entry_line (shard, entry.now) ++ 10 ∷ []) }
    ensures some { 1 ≤ vec_len text.new }
    ensures capacity { vec_capacity text.old ≤ vec_capacity text.new }
{
    put_field(text, shard, b' ');
    put_field(text, u64::from(entry.session), b' ');
    put_field(text, u64::from(entry.call), b' ');
    put_field(text, u64::from(entry.part), b'\n');
}

// Says an entry's line behind what stands ready, or has it ready.
fn say_entry<H: Host>(
    host: &mut H,
    text: &mut Vec<u8>,
    shard: u64,
    entry: &Entry,
) -> Result<(), Failed>
    requires { report_room ≤ vec_capacity text.old }
    ensures ok { OnOk result (SaidBut text.new.items (text.old.items ++ (entry_line (shard, entry.now) ++ 10 ∷ []))
        (H.host_told host.old).said (H.host_told host.new).said) }
    ensures some { OnOk result (1 ≤ vec_len text.new) }
    ensures failed { OnErr result (Grew true text.old.items (H.host_told host.old).said (H.host_told host.new).said) }
    ensures capacity { report_room ≤ vec_capacity text.new }
    ensures files { KeepsFiles (H.host_told host.old) (H.host_told host.new) }
    ensures cause { HasCause (H.host_told host.old).say_faults (H.host_told host.new).say_faults result }
{
    make_room(host, text)?;
    put_entry(text, shard, entry);
    Ok(())
}

// Says the lines of a shard's entries behind what stands ready, or has them ready.
fn say_history<H: Host>(
    host: &mut H,
    text: &mut Vec<u8>,
    shard: u64,
    history: &[Entry],
) -> Result<(), Failed>
    requires room { report_room ≤ vec_capacity text.old }
    requires some { 1 ≤ vec_len text.old }
    ensures ok { OnOk result (SaidBut text.new.items
        (text.old.items ++ joined_lines (map entry_line (map (λ entry. (shard, entry)) history.now)))
        (H.host_told host.old).said (H.host_told host.new).said) }
    ensures some { OnOk result (1 ≤ vec_len text.new) }
    ensures failed { OnErr result (Grew true
        (text.old.items ++ joined_lines (map entry_line (map (λ entry. (shard, entry)) history.now)))
        (H.host_told host.old).said (H.host_told host.new).said) }
    ensures capacity { report_room ≤ vec_capacity text.new }
    ensures files { KeepsFiles (H.host_told host.old) (H.host_told host.new) }
    ensures cause { HasCause (H.host_told host.old).say_faults (H.host_told host.new).say_faults result }
{
    for entry in history {
        say_entry(host, text, shard, entry)?;
    }
    Ok(())
}

// The first line, in the place of what stands there.
fn put_head(text: &mut Vec<u8>, shards: u64)
    requires { report_room ≤ vec_capacity text.old }
    ensures items { text.new.items ≡ head_line shards ++ 10 ∷ [] }
    ensures some { 1 ≤ vec_len text.new }
    ensures capacity { report_room ≤ vec_capacity text.new }
{
    text.clear();
    put(text, b"shards ");
    put_field(text, shards, b'\n');
}

/// Says the text of a journal, in pieces that the room holds, until a say fails.
pub fn say_journal<H: Host>(
    host: &mut H,
    text: &mut Vec<u8>,
    journal: &Journal,
) -> Result<(), Failed>
    requires { report_room ≤ vec_capacity text.old }
    ensures ok { OnOk result (Grew false (journal_text_of (histories journal.now.items)) (H.host_told host.old).said
        (H.host_told host.new).said) }
    ensures failed { OnErr result (Grew true (journal_text_of (histories journal.now.items)) (H.host_told host.old).said
        (H.host_told host.new).said) }
    ensures files { KeepsFiles (H.host_told host.old) (H.host_told host.new) }
    ensures cause { HasCause (H.host_told host.old).say_faults (H.host_told host.new).say_faults result }
{
    put_head(text, journal.len() as u64);
    for shard in 0..journal.len() {
        say_history(host, text, shard as u64, journal.get(shard).as_slice())?;
    }
    host.say(text.as_slice())
}
