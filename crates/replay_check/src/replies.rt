// The replies to commands, by the answers to their parts.
ghost use Rattle.std.specs.Prelude.{◌≡◌, List, ℕ, IfOk, length, map, count_by};
ghost use Rattle.std.specs.List.{flat_map};
ghost use Rattle.flake_base.specs.declared.journal.Entry.{Entry as ModelEntry};
ghost use Rattle.flake_model.specs.Store.{Answer};
ghost use Rattle.flake_model.specs.Command.{parts};
ghost use Rattle.flake_model.specs.Reply.{reply_of, reply_text, reply_to, only, item_of, is_yes as yes};
ghost use Rattle.flake_model.specs.Journal.{replies_from};
ghost use Rattle.resp_text.specs.Meaning.{meaning, item_meaning};
ghost use Rattle.replay_check.specs.Inputs.{contents};
ghost use Rattle.replay_check.specs.Places.{told};
ghost use Rattle.replay_check.specs.Noted.{slot_meant, slots_meant, answers_by, AreNoted, AreTexts};

use crate::session::Session;
use crate::slots::Slots;
use byte_store::ByteAnswer;
use command_parts::{Command, Op};
use flake_base::{Bytes, ErrorKind, Memory, Texts};
use resp_text::{Items, Reply, put_text};
use std::alloc::Global;

// The reply that one part's answer makes; a part without one found no buffer.
fn answer_reply(alloc: Global, answer: &Option<ByteAnswer>) -> Result<Reply, Memory>
    ensures { IfOk result (λ reply. meaning reply ≡ reply_to (slot_meant answer.now)) }
{
    let reply = match answer {
        Some(ByteAnswer::Bulk(bytes)) => Reply::Bulk(Bytes::from_slice(alloc, bytes.as_slice())?),
        Some(ByteAnswer::Null) => Reply::Null,
        Some(ByteAnswer::Done) => Reply::Ok,
        Some(ByteAnswer::Length(length)) => Reply::Int(*length),
        Some(ByteAnswer::Did(happened)) => Reply::Int(u64::from(*happened)),
        Some(ByteAnswer::TooLong) => Reply::Error(ErrorKind::ValueTooLong),
        None => Reply::Error(ErrorKind::NoBuffer),
    };
    Ok(reply)
}

// The reply that the only part's answer makes.
fn only_reply(alloc: Global, answers: &[Option<ByteAnswer>]) -> Result<Reply, Memory>
    ensures { IfOk result (λ reply. meaning reply ≡ reply_to (only (slots_meant answers.now))) }
{
    match answers {
        [answer, ..] => answer_reply(alloc, answer),
        [] => Ok(Reply::Error(ErrorKind::NoBuffer)),
    }
}

// A copy of a value that was found.
fn item(alloc: Global, answer: &Option<ByteAnswer>) -> Result<Option<Bytes>, Memory>
    ensures { IfOk result (λ item. item_meaning item ≡ item_of (slot_meant answer.now)) }
{
    match answer {
        Some(ByteAnswer::Bulk(bytes)) => Ok(Some(Bytes::from_slice(alloc, bytes.as_slice())?)),
        _ => Ok(None),
    }
}

// Copies of the values that were found.
fn items(alloc: Global, answers: &[Option<ByteAnswer>]) -> Result<Items, Memory>
    ensures { IfOk result (λ items. map item_meaning items.items ≡ map item_of (slots_meant answers.now)) }
{
    let mut items = Items::with_room(alloc, answers.len())?;
    for answer in answers {
        items.push(item(alloc, answer)?)?;
    }
    Ok(items)
}

// Whether the key was there.
fn is_yes(answer: &Option<ByteAnswer>) -> bool
    ensures { result ≡ yes (slot_meant answer.now) }
{
    match answer {
        Some(ByteAnswer::Did(happened)) => *happened,
        _ => false,
    }
}

// How many keys were there.
fn yes_count(answers: &[Option<ByteAnswer>]) -> usize
    ensures { result ≡ count_by (λ answer. yes (slot_meant answer)) answers.now }
{
    answers.iter().filter(|answer| is_yes(*answer)).count()
}

// The reply to a command, by the answers to its parts.
fn reply(alloc: Global, command: &Command, answers: &[Option<ByteAnswer>]) -> Result<Reply, Memory>
    ensures { IfOk result (λ reply. meaning reply ≡ reply_of command.now (slots_meant answers.now)) }
{
    match command.op() {
        Op::Ping => Ok(Reply::Pong),
        Op::PingWith => Ok(Reply::Bulk(Bytes::from_slice(alloc, command.argument())?)),
        Op::One(_) => only_reply(alloc, answers),
        Op::MGet => Ok(Reply::Array(items(alloc, answers)?)),
        Op::Del | Op::Exists => Ok(Reply::Int(yes_count(answers) as u64)),
        Op::Fault(kind) => Ok(Reply::Error(kind)),
    }
}

// The texts of the replies to a session's commands, by the answers to their parts.
fn session_text(
    alloc: Global,
    commands: &[Command],
    answers: &[Option<ByteAnswer>],
) -> Result<Bytes, Memory>
    requires { length answers.now ≡ length (flat_map parts commands.now) }
    ensures { (found : List (ModelEntry × Answer)) (session : ℕ)
        → slots_meant answers.now ≡ answers_by found session commands.now
        → IfOk result (λ text. text.items ≡ flat_map reply_text (replies_from found session 0 commands.now)) }
{
    let mut text = Bytes::new(alloc);
    let mut rest = answers;
    for command in commands {
        let count = command.count();
        let (own, behind) = rest.split_at(count);
        let reply = reply(alloc, command, own)?;
        put_text(&mut text, &reply)?;
        rest = behind;
    }
    Ok(text)
}

/// The texts of the replies to the commands of each session, by the answers to their parts.
pub fn texts_of(alloc: Global, sessions: &[Session], slots: &[Slots]) -> Result<Texts, Memory>
    requires { (found : List (ModelEntry × Answer)) × AreNoted (told sessions.now) found slots.now }
    ensures { (found : List (ModelEntry × Answer)) → AreNoted (told sessions.now) found slots.now
        → IfOk result (λ texts. AreTexts found (told sessions.now) (contents texts.items)) }
{
    let mut texts = Texts::with_room(alloc, sessions.len())?;
    for number in 0..sessions.len() {
        let commands = sessions[number].commands.as_slice();
        texts.push(session_text(alloc, commands, slots[number].as_slice())?)?;
    }
    Ok(texts)
}
