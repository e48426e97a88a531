//! Replies of one line, which a plan copies.
ghost use Rattle.std.specs.Prelude.{◌≡◌, ◌+◌, ◌≤◌, ◌∷◌, ◌++◌, [], None, length};
ghost use Rattle.flake_model.specs.Resp.{crlf};
ghost use Rattle.frag_value.specs.Taken.{copied};
ghost use Rattle.reply_planner.specs.Laid.{head_text};
ghost use Rattle.reply_planner.specs.Planned.{planned, left_of, slots_of};
ghost use Rattle.command_exec.specs.Lines.{number_line, error_line, line_for, HasLine};

use flake_base::ErrorKind;
use pinned_pool::PoolName;
use reply_planner::Plan;
use resp_text::{error_text, line};
use shard_store::PartAnswer;

/// A missing value.
pub(crate) const NULL: &[u8] = b"$-1\r\n";

/// Copies a mark, a number and the line end.
pub(crate) fn copy_line<P: PoolName>(plan: &mut Plan<'_, P>, mark: u8, n: u64)
    requires none { plan.old.begun ≡ None }
    requires fits { 24 ≤ left_of plan.old }
    ensures plan { plan.new ≡ planned plan.old.base (plan.old.taken ++ copied (number_line mark n) ∷ []) None }
    ensures left { left_of plan.old ≡ left_of plan.new + length (number_line mark n) }
    ensures slots { slots_of plan.new ≡ slots_of plan.old }
{
    let mut room = [0u8; 24];
    let end = line(&mut room, mark, n);
    plan.copy(&room[..end]);
}

/// Copies an error.
pub(crate) fn copy_error<P: PoolName>(plan: &mut Plan<'_, P>, kind: ErrorKind)
    requires none { plan.old.begun ≡ None }
    requires fits { 64 ≤ left_of plan.old }
    ensures plan { plan.new ≡ planned plan.old.base (plan.old.taken ++ error_line kind) None }
{
    plan.copy(b"-");
    plan.copy(error_text(kind).as_bytes());
    plan.copy(b"\r\n");
}

/// Copies a bulk string.
pub(crate) fn copy_bulk<P: PoolName>(plan: &mut Plan<'_, P>, bytes: &[u8])
    requires none { plan.old.begun ≡ None }
    requires line { 24 ≤ left_of plan.old }
    requires fits { length (head_text (length bytes.now)) + length bytes.now + 2 ≤ left_of plan.old }
    ensures plan { plan.new ≡ planned plan.old.base (plan.old.taken
        ++ copied (head_text (length bytes.now)) ∷ copied bytes.now ∷ copied crlf ∷ []) None }
{
    copy_line(plan, b'$', bytes.len() as u64);
    plan.copy(bytes);
    plan.copy(b"\r\n");
}

/// Copies the line that an answer makes. Bytes that were answered are in the plan already.
pub(crate) fn copy_answer<P: PoolName>(plan: &mut Plan<'_, P>, answer: PartAnswer)
    requires none { plan.old.begun ≡ None }
    requires fits { HasLine answer → 64 ≤ left_of plan.old }
    ensures plan { plan.new ≡ planned plan.old.base (plan.old.taken ++ line_for answer) None }
{
    match answer {
        PartAnswer::Bulk => {}
        PartAnswer::Null => plan.copy(NULL),
        PartAnswer::Done => plan.copy(b"+OK\r\n"),
        PartAnswer::Length(n) => copy_line(plan, b':', n),
        PartAnswer::Did(happened) => copy_line(plan, b':', u64::from(happened)),
        PartAnswer::TooLong => copy_error(plan, ErrorKind::ValueTooLong),
        PartAnswer::NoBuffer(_) => copy_error(plan, ErrorKind::NoBuffer),
    }
}
