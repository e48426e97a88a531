// The table of commands.
ghost use Rattle.std.specs.Prelude.{◌≡◌, ◌<◌, Some, OnSome, IfSome, length};
ghost use Rattle.flake_model.specs.Command.{command_of};
ghost use Rattle.command_parts.specs.Table.{command_named, HasWords};

use crate::Op;
use resp_reader::Request;
use shard_part::PartOp;

/// A row of the table: what a request of its name asks for. Which words are keys, and which may be long, goes by that.
#[derive(Clone, Copy, Debug)]
pub(crate) struct Row {
    /// Whether so many words fit, the name among them.
    pub fits: bool,
    /// What is asked for, before SET's options and GETRANGE's places are read.
    pub op: Op,
}

// A row.
fn some_row(fits: bool, op: Op) -> Option<Row>
    ensures { result ≡ Some (record { fits = fits; op = op }) }
{
    Some(Row { fits, op })
}

/// The row of the name that a request begins with, without regard to ASCII case.
pub(crate) fn named_row(request: &Request) -> Option<Row>
    ensures command { command_of request.now ≡ command_named result request.now }
    ensures some { OnSome result (0 < length request.now) }
    ensures words { IfSome result (λ row. HasWords row request.now) }
{
    let count = request.len();
    if count == 0 {
        return None;
    }
    let word = request.word(0);
    if word.eq_ignore_ascii_case(b"GET") {
        some_row(count == 2, Op::One(PartOp::Get))
    } else if word.eq_ignore_ascii_case(b"SET") {
        some_row(count >= 3, Op::One(PartOp::Set))
    } else if word.eq_ignore_ascii_case(b"MGET") {
        some_row(count >= 2, Op::MGet)
    } else if word.eq_ignore_ascii_case(b"DEL") {
        some_row(count >= 2, Op::Del)
    } else if word.eq_ignore_ascii_case(b"EXISTS") {
        some_row(count >= 2, Op::Exists)
    } else if word.eq_ignore_ascii_case(b"APPEND") {
        some_row(count == 3, Op::One(PartOp::Append))
    } else if word.eq_ignore_ascii_case(b"STRLEN") {
        some_row(count == 2, Op::One(PartOp::StrLen))
    } else if word.eq_ignore_ascii_case(b"GETRANGE") {
        some_row(count == 4, Op::One(PartOp::GetRange { start: 0, end: 0 }))
    } else if !word.eq_ignore_ascii_case(b"PING") {
        None
    } else if count == 1 {
        some_row(count <= 2, Op::Ping)
    } else {
        some_row(count <= 2, Op::PingWith)
    }
}
