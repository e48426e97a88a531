// Words that are bad, and files that do not open.
use super::check;
use std::alloc::Global;
use std::test::Fail;

/// No schedule, no file, options of other commands, and sizes out of their ranges.
const NO_TASKS: &str = "\
drive
drive s
drive --ring 1160 s
Drive s f0
driv s f0
drive --workers 1 s f0
drive s f0 --workers 2
drive --journal s f0
drive s f0 --journal
drive --sessions 1 s f0
drive --requests 1 s f0
drive --fly 1 s f0
drive --help s f0
drive s f0 --ring
drive --ring 512 s f0
drive --ring 1152 s f0
drive --ring 1161 s f0
drive --ring 1164 s f0
drive --ring 4104 s f0
drive --ring 01160 s f0
drive --ring +1160 s f0
drive --shards 0 s f0
drive --shards 17 s f0
drive --small 127 s f0
drive --small 255 s f0 f1
drive --small 65537 s f0
drive --large 0 s f0
drive --large 16385 s f0
drive --threshold 0 s f0
drive --threshold 513 s f0";

/// What comes of bad words.
const BAD_WORDS: &str = "\
file s
line call 0
file f0
ask PING
file f1
said bad words
told status 1
told held 0 0 no pool
told 3 wires, 0 opens";

fn bad_words(alloc: Global, words: &str) -> Result<String, Fail> {
    Ok(format!(in alloc; "case {words}\nwords {words}\n{BAD_WORDS}")?)
}

#[test]
fn bad_words_of_a_drive(rt: HostRuntime) -> Result<(), Fail> {
    let alloc = rt.alloc();
    for words in NO_TASKS.split('\n') {
        check(&rt, alloc, bad_words(alloc, words)?.as_str())?;
    }
    Ok(())
}

/// Too few wires, files that do not open, lines that are bad, and says that fail.
const REFUSALS: &str = "\
case no wire
words drive s f0
file s
line call 0
file f0
ask PING
file f1
wires 0
said bad words
told status 1
told held 0 0 no pool
told 0 wires, 0 opens

case fewer wires than files
words drive s f0 f1
file s
line call 0
file f0
ask PING
file f1
wires 1
said bad words
told status 1
told held 0 0 no pool
told 1 wires, 0 opens

case bad words, and a say that fails
words drive s
file s
line call 0
file f0
ask PING
file f1
host fails 0
whole 0
said bad words
told status 1
told held 0 0 no pool
told 3 wires, 0 opens

case no schedule of that name
words drive missing f0
file s
line call 0
file f0
ask PING
file f1
said cannot open 0
told status 2 file 0
told held 0 0 no pool
told 3 wires, 1 opens

case a schedule that does not open
words drive s f0
file s
line call 0
file f0
ask PING
file f1
host fails 0
said cannot open 0
told status 2 file 0
told held 0 0 no pool
told 3 wires, 1 opens

case no file of either name
words drive missing missing
file s
line call 0
file f0
ask PING
file f1
said cannot open 0
told status 2 file 0
told held 0 0 no pool
told 3 wires, 1 opens

case no file of that name
words drive s missing
file s
line call 0
file f0
ask PING
file f1
said cannot open 1
told status 2 file 1
told held 0 0 no pool
told file 0, 3 wires, 2 opens

case a file that does not open
words drive s f0
file s
line call 0
file f0
ask PING
file f1
host fails 1
said cannot open 1
told status 2 file 1
told held 0 0 no pool
told file 0, 3 wires, 2 opens

case a file is opened once
words drive s s
file s
line call 0
file f0
ask PING
file f1
said cannot open 1
told status 2 file 1
told held 0 0 no pool
told file 0, 3 wires, 2 opens

case options are no files, and no line is read before all files are opened
words drive --ring 2048 s --large 9 f0 missing
file s
line fly
file f0
ask PING
file f1
said cannot open 2
told status 2 file 2
told held 0 0 no pool
told file 0, file 1, 3 wires, 3 opens

case a file that does not open, and a say that fails
words drive s missing f0
file s
line call 0
file f0
ask PING
file f1
host fails 2
whole 0
said cannot open 1
told status 2 file 1
told held 0 0 no pool
told file 0, 3 wires, 2 opens

case a line for a second session, of which there is none
words drive s f0
file s
line call 0
line reap 1
file f0
ask PING
file f1
said bad line 2
told status 7 line 2
told held 0 0 no pool
told file 0, file 1, 3 wires, 2 opens

case a line for a third session, of which there is none
words drive s f0 f1
file s
line call 0
line reap 1
line call 2
file f0
ask PING
file f1
said bad line 3
told status 7 line 3
told held 0 0 no pool
told file 0, file 1, file 2, 3 wires, 3 opens

case a line that is bad, and a say that fails
words drive s f0
file s
line call 0
line reap 1
file f0
ask PING
file f1
host fails 2
whole 0
said bad line 2
told status 7 line 2
told held 0 0 no pool
told file 0, file 1, 3 wires, 2 opens";

#[test]
fn refusals(rt: HostRuntime) -> Result<(), Fail> {
    check(&rt, rt.alloc(), REFUSALS)
}

/// As many files as may be, and one more.
const MANY: &str = "\
case 16 files
words drive s<16  f{0+1}>
wires 16
file s
line call 15
*16 file f{0+1}
said call 15 end
said held 0 0
told status 0
*15 told session {0+1} left taken 0 replies 0 wire whole
told session 15 clean taken 0 replies 0 wire whole
told held 0 0
told shards 8
told <17 file {0+1}, >16 wires, 17 opens

case 16 files, and a line for a seventeenth session
words drive s<16  f{0+1}>
wires 16
file s
line call 15
line reap 16
*16 file f{0+1}
said bad line 2
told status 7 line 2
told held 0 0 no pool
told <17 file {0+1}, >16 wires, 17 opens

case 16 files, and a number that begins with 0
words drive s<16  f{0+1}>
wires 16
file s
line call 015
*16 file f{0+1}
said bad line 1
told status 7 line 1
told held 0 0 no pool
told <17 file {0+1}, >16 wires, 17 opens

case the last of 16 files is missing
words drive s<16  f{0+1}>
wires 16
file s
line call 15
*15 file f{0+1}
said cannot open 16
told status 2 file 16
told held 0 0 no pool
told <16 file {0+1}, >16 wires, 17 opens

case 17 files
words drive s<17  f{0+1}>
wires 17
file s
line call 15
*17 file f{0+1}
said bad words
told status 1
told held 0 0 no pool
told 17 wires, 0 opens";

#[test]
fn as_many_files_as_may_be(rt: HostRuntime) -> Result<(), Fail> {
    check(&rt, rt.alloc(), MANY)
}
