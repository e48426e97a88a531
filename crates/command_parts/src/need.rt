// What a command can need of the ring and of the stage.
ghost use Rattle.std.specs.Prelude.{◌≡◌, List, ℕ};
ghost use Rattle.flake_model.specs.Command.{alone};
ghost use Rattle.reply_layout.specs.Need.{need_of, IsModest};
ghost use Rattle.shard_part.specs.Parts.{operation_by};

use crate::{Command, Op};
use reply_layout::Need;
use resp_text::line_size;
use shard_part::PartOp;

impl Command {
    /// What the command can need, whatever its parts answer.
    #[inline(always)]
    pub fn need(&self) -> Need
        ensures need { result ≡ need_of self.now }
        ensures modest { IsModest result }
    {
        match (self.op, &self.request) {
            (Op::One(op), _) => need_alone(op),
            (Op::MGet, Some(request)) => {
                let keys = request.len() - 1;
                Need::values(keys, line_size(keys as u64))
            }
            (Op::PingWith, Some(request)) => {
                let len = request.word(1).len();
                Need::copied(line_size(len as u64) + len + 2)
            }
            _ => Need::line(),
        }
    }
}

// What a command can need that does this to its only key.
#[inline(always)]
fn need_alone(op: PartOp) -> Need
    ensures need { (key value : List ℕ) → result ≡ need_of (alone (operation_by op key value)) }
    ensures modest { IsModest result }
{
    match op {
        PartOp::Get | PartOp::SetGet | PartOp::SetNxGet | PartOp::SetXxGet => Need::values(1, 0),
        PartOp::GetRange { .. } => Need::range(),
        _ => Need::line(),
    }
}
