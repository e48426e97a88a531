// Schedules that are not of their form, and those that are just so, for files without requests.
use super::check;
use std::alloc::Global;
use std::test::Fail;

/// Schedules of no lines, of one, and without the last end of a line.
const GOOD: &str = "\
case a schedule without lines
words drive s f0
file s
file f0
said held 0 0
told status 0
told session 0 left taken 0 replies 0 wire whole
told held 0 0
told shards 8
told file 0, file 1, 3 wires, 2 opens

case a schedule without lines for two files
words drive s f0 f1
file s
file f0
file f1
said held 0 0
told status 0
*2 told session {0+1} left taken 0 replies 0 wire whole
told held 0 0
told shards 8
told file 0, file 1, file 2, 3 wires, 3 opens

case one call
words drive s f0
file s
text call 0
file f0
said call 0 end
said held 0 0
told status 0
told session 0 clean taken 0 replies 0 wire whole
told held 0 0
told shards 8
told file 0, file 1, 3 wires, 2 opens

case one gather
words drive s f0
file s
text gather 0
file f0
said gather 0 empty
said held 0 0
told status 0
told session 0 left taken 0 replies 0 wire whole
told held 0 0
told shards 8
told file 0, file 1, 3 wires, 2 opens

case one reap
words drive s f0
file s
text reap 0
file f0
said reap 0 none
said held 0 0
told status 0
told session 0 left taken 0 replies 0 wire whole
told held 0 0
told shards 8
told file 0, file 1, 3 wires, 2 opens

case lines for two files
words drive s f0 f1
file s
text reap 1|call 0|call 1|gather 1
file f0
file f1
said reap 1 none
said call 0 end
said call 1 end
said gather 1 empty
said held 0 0
told status 0
*2 told session {0+1} clean taken 0 replies 0 wire whole
told held 0 0
told shards 8
told file 0, file 1, file 2, 3 wires, 3 opens";

#[test]
fn good_schedules(rt: HostRuntime) -> Result<(), Fail> {
    check(&rt, rt.alloc(), GOOD)
}

/// Schedules behind the number of their line that is none; `|` ends a line.
const BAD: &str = "\
1 |
1 |call 0|
2 call 0||
2 call 0||call 0|
2 call 0|reap 1|
1 call 1|reap 2|
2 call 0| \n\
1 call 0 gather 0|
1 call 0\rreap 0|
1  |
1 0|
1  0|
1 serve 0|
1 Call 0|
1 calls 0|
1 gathe 0|
1 rEAP 0|";

// A case of a schedule with a bad line of this number.
fn bad_line(alloc: Global, schedule: &str, number: &str) -> Result<String, Fail> {
    let asked = format!(in alloc; "words drive s f0\nfile s\ntext {schedule}\nfile f0\n")?;
    let told = format!(in alloc; "told status 7 line {number}\ntold held 0 0 no pool\n")?;
    Ok(format!(in alloc;
        "case {schedule}\n{asked}said bad line {number}\n{told}told file 0, file 1, 3 wires, 2 opens"
    )?)
}

#[test]
fn bad_schedules(rt: HostRuntime) -> Result<(), Fail> {
    let alloc = rt.alloc();
    for line in BAD.split('\n') {
        let (number, schedule) = line.split_once(' ').ok_or("a schedule without a number")?;
        check(&rt, alloc, bad_line(alloc, schedule, number)?.as_str())?;
    }
    Ok(())
}

/// What stands, behind a word and up to `!`, where one file's number may stand behind a blank.
const BAD_ENDS: &str = "\
!
 !
0!
  0!
 0 !
\t0!
 +0!
 -0!
 00!
 0x0!
 0.!
 1!
 16!
 65536!
 4294967296!
 18446744073709551616!
 0\r!
 0 0!
 O!
 \u{660}!";

// A line alone, and one behind another that lacks its LF.
fn bad_ends(alloc: Global, word: &str, end: &str) -> Result<String, Fail> {
    let alone = format!(in alloc; "{word}{end}|")?;
    let behind = format!(in alloc; "{word} 0|{word}{end}")?;
    let before = format!(in alloc; " {word} 0|{word} 0|")?;
    let mut cases = bad_line(alloc, alone.as_str(), "1")?;
    cases.push_str("\n\n")?;
    cases.push_str(bad_line(alloc, behind.as_str(), "2")?.as_str())?;
    cases.push_str("\n\n")?;
    cases.push_str(bad_line(alloc, before.as_str(), "1")?.as_str())?;
    Ok(cases)
}

#[test]
fn lines_that_are_not_of_their_form(rt: HostRuntime) -> Result<(), Fail> {
    let alloc = rt.alloc();
    for word in ["call", "gather", "reap"] {
        for line in BAD_ENDS.split('\n') {
            let (end, _) = line.split_once('!').ok_or("an end without its mark")?;
            check(&rt, alloc, bad_ends(alloc, word, end)?.as_str())?;
        }
    }
    Ok(())
}

/// A schedule may have 67,108,864 bytes, and this has one more.
const TOO_LARGE: &str = "\
case a schedule that is too large
words drive s f0
file s
fill 16384 [x*4096]
text x
file f0
said too large 0
told status 9 file 0
told held 0 0 no pool
told file 0, file 1, 3 wires, 2 opens";

const MANY_LINES: &str = "\
case a bad line behind many
words drive s f0
file s
fill 99999 reap 0|
text reap
file f0
said bad line 100000
told status 7 line 100000
told held 0 0 no pool
told file 0, file 1, 3 wires, 2 opens";

#[test]
fn a_schedule_that_is_too_large(rt: HostRuntime) -> Result<(), Fail> {
    check(&rt, rt.alloc(), TOO_LARGE)
}

#[test]
fn a_bad_line_behind_many(rt: HostRuntime) -> Result<(), Fail> {
    check(&rt, rt.alloc(), MANY_LINES)
}

/// The first read, the second, and one that would find the end.
const UNREAD: &str = "\
case the first read of a schedule fails
words drive s f0
file s
line call 0
file f0
reads 0 4096 0
said read fault 0
told status 4 file 0
told held 0 0 no pool
told file 0, file 1, 3 wires, 2 opens

case the second read of a schedule fails
words drive s f0
file s
line call 0
file f0
reads 0 3 1
said read fault 0
told status 4 file 0
told held 0 0 no pool
told file 0, file 1, 3 wires, 2 opens

case the read that would find a schedule's end fails
words drive s f0
file s
line call 0
file f0
reads 0 7 1
said read fault 0
told status 4 file 0
told held 0 0 no pool
told file 0, file 1, 3 wires, 2 opens";

#[test]
fn a_schedule_that_is_not_read(rt: HostRuntime) -> Result<(), Fail> {
    check(&rt, rt.alloc(), UNREAD)
}
