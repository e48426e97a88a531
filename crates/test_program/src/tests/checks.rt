// What `check` says.
use super::check;
use std::test::Fail;

/// Verdicts on one session. The last two are said in part: the first half of what is to be said.
const VERDICTS: &str = "\
words check j i r
wires 1
file none
line shards 8
file i
ask SET a 1
ask GET a

case replies that are those of the journal
file j
line shards 8
line 4 0 0 0
line 4 0 1 0
file r
text +OK~$1~1~
said same
told status 0
told held 0 0 no pool
told file 0, file 1, file 2, 1 wires, 3 opens

case a reply with another byte
file j
line shards 8
line 4 0 0 0
line 4 0 1 0
file r
text +OK~$1~2~
said differs session 0 place 9 expected 49 found 50
told status 8 session 0 place 9 expected 49 found 50
told held 0 0 no pool
told file 0, file 1, file 2, 1 wires, 3 opens

case a byte behind the replies
file j
line shards 8
line 4 0 0 0
line 4 0 1 0
file r
text +OK~$1~1~+
said differs session 0 place 12 expected end found 43
told status 8 session 0 place 12 expected end found 43
told held 0 0 no pool
told file 0, file 1, file 2, 1 wires, 3 opens

case a journal whose entries are out of order
file j
line shards 8
line 4 0 1 0
line 4 0 0 0
file r
text +OK~$1~1~
said bad journal shard 4 place 1
told status 8 shard 4 place 1
told held 0 0 no pool
told file 0, file 1, file 2, 1 wires, 3 opens

case a journal whose entries are out of order, and replies that differ too
file j
line shards 8
line 4 0 1 0
line 4 0 0 0
file r
said bad journal shard 4 place 1
told status 8 shard 4 place 1
told held 0 0 no pool
told file 0, file 1, file 2, 1 wires, 3 opens

case a GET without an entry
file j
line shards 8
line 4 0 0 0
file r
text +OK~$1~1~
said bad journal shard 4 place 1
told status 8 shard 4 place 1
told held 0 0 no pool
told file 0, file 1, file 2, 1 wires, 3 opens

case an entry of a part that no command has
file j
line shards 8
line 4 0 0 0
line 4 0 1 0
line 4 0 1 1
file r
text +OK~$1~1~
said bad journal shard 4 place 2
told status 8 shard 4 place 2
told held 0 0 no pool
told file 0, file 1, file 2, 1 wires, 3 opens

case an entry of a session that there isn't
file j
line shards 8
line 4 1 0 0
line 4 0 0 0
line 4 0 1 0
file r
text +OK~$1~1~
said bad journal shard 4 place 0
told status 8 shard 4 place 0
told held 0 0 no pool
told file 0, file 1, file 2, 1 wires, 3 opens

case another number of shards, and a last line that does not end
file j
line shards 1
line 0 0 0 0
text 0 0 1 0
file r
text +OK~$1~1~
said same
told status 0
told held 0 0 no pool
told file 0, file 1, file 2, 1 wires, 3 opens

case the say fails, of replies that are those of the journal
host fails 3
file j
line shards 8
line 4 0 0 0
line 4 0 1 0
file r
text +OK~$1~1~
half
said same
told status 5
told held 0 0 no pool
told file 0, file 1, file 2, 1 wires, 3 opens

case the say fails, of a byte behind the replies
host fails 3
file j
line shards 8
line 4 0 0 0
line 4 0 1 0
file r
text +OK~$1~1~+
half
said differs session 0 place 12 expected end found 43
told status 8 session 0 place 12 expected end found 43
told held 0 0 no pool
told file 0, file 1, file 2, 1 wires, 3 opens";

#[test]
fn verdicts(rt: HostRuntime) -> Result<(), Fail> {
    check(&rt, rt.alloc(), VERDICTS)
}

/// Files without bytes, and the word `none`, which stands for no bytes in the place of a reply file, and else is a
/// file's name.
const NONE: &str = "\
wires 1
file none
line shards 8

case no request, no reply and no entry
words check j i r
file j
line shards 8
file i
file r
said same
told status 0
told held 0 0 no pool
told file 0, file 1, file 2, 1 wires, 3 opens

case no reply file, where there are replies
words check j i none
file j
line shards 8
line 4 0 0 0
line 4 0 1 0
file i
ask SET a 1
ask GET a
file r
text +OK~$1~1~
said differs session 0 place 0 expected 43 found end
told status 8 session 0 place 0 expected 43 found end
told held 0 0 no pool
told file 0, file 1, 1 wires, 2 opens

case no reply file, where there is no request
words check j i none
file j
line shards 8
file i
file r
text +OK~$1~1~
said same
told status 0
told held 0 0 no pool
told file 0, file 1, 1 wires, 2 opens

case a journal that is named none
words check none i none
file j
line shards 8
line 4 0 0 0
line 4 0 1 0
file i
file r
text +OK~$1~1~
said same
told status 0
told held 0 0 no pool
told file 0, file 1, 1 wires, 2 opens

case an input that is named none, an inline request, whose refusal is a reply
words check j none r
file j
line shards 8
file i
ask SET a 1
ask GET a
file r
text -ERR Protocol error: inline commands are not supported~
said same
told status 0
told held 0 0 no pool
told file 0, file 1, file 2, 1 wires, 3 opens

case a second input that is missing, behind no reply file
words check j i none missing r
file j
line shards 8
line 4 0 0 0
line 4 0 1 0
file i
ask SET a 1
ask GET a
file r
text +OK~$1~1~
said cannot open 3
told status 2 file 3
told held 0 0 no pool
told file 0, file 1, 1 wires, 3 opens

case a file opens once, behind no reply file
words check j i none i r
file j
line shards 8
line 4 0 0 0
line 4 0 1 0
file i
ask SET a 1
ask GET a
file r
text +OK~$1~1~
said cannot open 3
told status 2 file 3
told held 0 0 no pool
told file 0, file 1, 1 wires, 3 opens";

#[test]
fn files_without_bytes(rt: HostRuntime) -> Result<(), Fail> {
    check(&rt, rt.alloc(), NONE)
}

/// Files that do not open.
const UNOPENED: &str = "\
wires 1
file none
line shards 8
file i
ask SET a 1
ask GET a
file r
text +OK~$1~1~
file j

case no journal of that name
words check missing i r
line shards 8
line 4 0 0 0
line 4 0 1 0
said cannot open 0
told status 2 file 0
told held 0 0 no pool
told 1 wires, 1 opens

case no reply file of that name: the journal, which has no line, is not read
words check j i missing
said cannot open 2
told status 2 file 2
told held 0 0 no pool
told file 0, file 1, 1 wires, 3 opens

case an input that does not open
words check j i r
host fails 1
line shards 8
line 4 0 0 0
line 4 0 1 0
said cannot open 1
told status 2 file 1
told held 0 0 no pool
told file 0, 1 wires, 2 opens";

#[test]
fn files_that_do_not_open(rt: HostRuntime) -> Result<(), Fail> {
    check(&rt, rt.alloc(), UNOPENED)
}

/// Reads that fail. The journal has 25 bytes, the input 47 and the replies 12, and a read gives 7: the last one of each
/// is that of the end.
const READ_FAULTS: &str = "\
words check j i r
wires 1
file j
line shards 8
line 4 0 0 0
line 4 0 1 0
file i
ask SET a 1
ask GET a
file r
text +OK~$1~1~

case the first read of the journal fails
reads 0 7 0
said read fault 0
told status 4 file 0
told held 0 0 no pool
told file 0, file 1, file 2, 1 wires, 3 opens

case the last read of the journal fails
reads 0 7 4
said read fault 0
told status 4 file 0
told held 0 0 no pool
told file 0, file 1, file 2, 1 wires, 3 opens

case the first read of the input fails
reads 1 7 0
said read fault 1
told status 4 file 1
told held 0 0 no pool
told file 0, file 1, file 2, 1 wires, 3 opens

case a read in the middle of the input fails
reads 1 7 3
said read fault 1
told status 4 file 1
told held 0 0 no pool
told file 0, file 1, file 2, 1 wires, 3 opens

case the last read of the input fails
reads 1 7 7
said read fault 1
told status 4 file 1
told held 0 0 no pool
told file 0, file 1, file 2, 1 wires, 3 opens

case the first read of the replies fails
reads 2 7 0
said read fault 2
told status 4 file 2
told held 0 0 no pool
told file 0, file 1, file 2, 1 wires, 3 opens

case the last read of the replies fails
reads 2 7 2
said read fault 2
told status 4 file 2
told held 0 0 no pool
told file 0, file 1, file 2, 1 wires, 3 opens";

#[test]
fn reads_of_a_check_that_fail(rt: HostRuntime) -> Result<(), Fail> {
    check(&rt, rt.alloc(), READ_FAULTS)
}

/// Journals with a line that isn't of its form. A case has the lines of the journal.
const BAD_LINES: &str = "\
words check j i r
wires 1
file none
line shards 8
file i
ask SET a 1
ask GET a
file r
text +OK~$1~1~
file j

case a number of shards that begins with 0
line shards 08
said bad line 1
told status 7 line 1
told held 0 0 no pool
told file 0, file 1, file 2, 1 wires, 3 opens

case no line
said bad line 1
told status 7 line 1
told held 0 0 no pool
told file 0, file 1, file 2, 1 wires, 3 opens

case an empty first line
text |
said bad line 1
told status 7 line 1
told held 0 0 no pool
told file 0, file 1, file 2, 1 wires, 3 opens

case no shard
line shards 0
said bad line 1
told status 7 line 1
told held 0 0 no pool
told file 0, file 1, file 2, 1 wires, 3 opens

case a shard too many
line shards 17
said bad line 1
told status 7 line 1
told held 0 0 no pool
told file 0, file 1, file 2, 1 wires, 3 opens

case lines that end as those of requests do
text shards 8~4 0 0 0~4 0 1 0~
said bad line 1
told status 7 line 1
told held 0 0 no pool
told file 0, file 1, file 2, 1 wires, 3 opens

case a second line that ends as those of requests do
line shards 8
text 4 0 0 0~
line 4 0 1 0
said bad line 2
told status 7 line 2
told held 0 0 no pool
told file 0, file 1, file 2, 1 wires, 3 opens

case a shard behind a greater one
line shards 8
line 5 0 0 0
line 4 0 0 0
said bad line 3
told status 7 line 3
told held 0 0 no pool
told file 0, file 1, file 2, 1 wires, 3 opens

case a shard that there isn't
line shards 8
line 8 0 0 0
said bad line 2
told status 7 line 2
told held 0 0 no pool
told file 0, file 1, file 2, 1 wires, 3 opens

case a session past the most that may be
line shards 8
line 4 16 0 0
said bad line 2
told status 7 line 2
told held 0 0 no pool
told file 0, file 1, file 2, 1 wires, 3 opens

case a call past the most that may be
line shards 8
line 4 0 4294967296 0
said bad line 2
told status 7 line 2
told held 0 0 no pool
told file 0, file 1, file 2, 1 wires, 3 opens

case a part past the most that may be
line shards 8
line 4 0 0 64
said bad line 2
told status 7 line 2
told held 0 0 no pool
told file 0, file 1, file 2, 1 wires, 3 opens

case a number too many
line shards 8
line 4 0 0 0 0
said bad line 2
told status 7 line 2
told held 0 0 no pool
told file 0, file 1, file 2, 1 wires, 3 opens

case an empty line between entries
line shards 8
line 4 0 0 0
text |
line 4 0 1 0
said bad line 3
told status 7 line 3
told held 0 0 no pool
told file 0, file 1, file 2, 1 wires, 3 opens";

#[test]
fn bad_lines(rt: HostRuntime) -> Result<(), Fail> {
    check(&rt, rt.alloc(), BAD_LINES)
}

/// Words that are bad.
const BAD_WORDS: &str = "\
case no journal, no pair, half a pair, a pair and a half, an option, and another command
wires 1
either check
either check j
either check j i
either check j i r i
either check --journal j i r
either Check j i r
file j
line shards 8
line 4 0 0 0
line 4 0 1 0
file i
ask SET a 1
ask GET a
file r
text +OK~$1~1~
file none
line shards 8
said bad words
told status 1
told held 0 0 no pool
told 1 wires, 0 opens";

#[test]
fn bad_words_of_a_check(rt: HostRuntime) -> Result<(), Fail> {
    check(&rt, rt.alloc(), BAD_WORDS)
}

/// As many pairs of files as may be, and more. The first input is missing.
const MANY: &str = "\
wires 0
file j
line shards 8
line 4 0 0 0
line 4 0 1 0
file i
ask SET a 1
ask GET a
file r
text +OK~$1~1~
file none
line shards 8

case 16 pairs
words check j<16  missing none>
said cannot open 1
told status 2 file 1
told held 0 0 no pool
told file 0, 0 wires, 2 opens

case 17 pairs, and 33
either check j<17  missing none>
either check j<33  missing none>
said bad words
told status 1
told held 0 0 no pool
told 0 wires, 0 opens";

#[test]
fn as_many_pairs_as_may_be(rt: HostRuntime) -> Result<(), Fail> {
    check(&rt, rt.alloc(), MANY)
}

/// An input may have 67,108,864 bytes, and this has 67,110,528.
const TOO_LARGE: &str = "\
case 64 PINGs with an argument of 1,048,576 bytes
words check j i r
wires 0
file j
file i
fill 64 *2~$4~PING~$1048576~[x*1048576]~
file r
said too large 1
told status 9 file 1
told held 0 0 no pool
told file 0, file 1, file 2, 0 wires, 3 opens";

#[test]
fn an_input_that_is_too_large(rt: HostRuntime) -> Result<(), Fail> {
    check(&rt, rt.alloc(), TOO_LARGE)
}
