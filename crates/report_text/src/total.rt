// What is said of generated requests.
ghost use Rattle.std.specs.Prelude.{◌≡◌, ◌<◌, ◌≤◌, length, vec_capacity};
ghost use Rattle.report_text.specs.Report.{report_room, total_line};

use crate::put::{put, put_field, put_number};
use pin_core::Held;

/// Writes how many replies there are, of how many bytes, and what is held, in the place of what stands there.
pub fn put_total(text: &mut Vec<u8>, replies: u64, bytes: u64, held: Held)
    requires room { report_room ≤ vec_capacity text.old }
    ensures text { text.new.items ≡ total_line replies bytes held }
    ensures some { 0 < length text.new.items }
{
    text.clear();
    put(text, b"requests ");
    put_number(text, replies);
    put(text, b" bytes ");
    put_number(text, bytes);
    put(text, b" held ");
    put_field(text, u64::from(held.small), b' ');
    put_field(text, u64::from(held.large), b'\n');
}
