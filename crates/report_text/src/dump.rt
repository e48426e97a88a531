// The line of a dump.
ghost use Rattle.std.specs.Prelude.{◌≡◌, ◌+◌, ◌≤◌, ◌++◌, vec_capacity, vec_len};
ghost use Rattle.report_text.specs.Report.{dump_line};

use crate::put::{put, put_number, put_state};

/// What is said of a dump.
#[derive(Clone, Copy, Debug, PartialEq, Eq)]
pub enum DumpLine {
    /// None was asked for.
    Unasked,
    /// It was asked for and not taken.
    Untaken,
    /// It was taken and put on its wire.
    Written { bytes: u64, failed: bool },
}

/// The line of a dump, where one was asked for.
pub(crate) fn put_dump(text: &mut Vec<u8>, dump: DumpLine)
    requires { vec_len text.old + 44 ≤ vec_capacity text.old }
    ensures items { text.new.items ≡ text.old.items ++ dump_line dump }
    ensures len { vec_len text.new ≤ vec_len text.old + 44 }
    ensures capacity { vec_capacity text.old ≤ vec_capacity text.new }
{
    match dump {
        DumpLine::Unasked => {}
        DumpLine::Untaken => put(text, b"dump none\n"),
        DumpLine::Written { bytes, failed } => {
            put(text, b"dump bytes ");
            put_number(text, bytes);
            put(text, b" wire ");
            put_state(text, failed);
        }
    }
}
