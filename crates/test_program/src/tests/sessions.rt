// Several files at once.
use super::check;
use std::test::Fail;

/// With one, two and three workers.
const OWN_KEYS: &str = "\
case a SET and a GET in each of three sessions, of a key of its own
words serve in0.resp in1.resp in2.resp --workers
either 1
either 2
either 3
file in0.resp
ask SET x0 1
ask GET x0
file in1.resp
ask SET x1 1
ask GET x1
file in2.resp
ask SET x2 1
ask GET x2
sent 0 +OK~$1~1~
sent 1 +OK~$1~1~
sent 2 +OK~$1~1~
told status 0
*3 both session {0+1} clean taken 49 replies 2 wire whole
both held 3 0
told shards 8
*2 told 2 1 {0+1} 0
*2 told 5 0 {0+1} 0
*2 told 7 2 {0+1} 0
told file 0, file 1, file 2, 3 wires, 3 opens";

#[test]
fn sessions_with_keys_of_their_own(rt: HostRuntime) -> Result<(), Fail> {
    check(&rt, rt.alloc(), OWN_KEYS)
}

/// The files before one that does not open are opened, those behind it are not.
const SECOND_UNOPENED: &str = "\
case the second of three files does not open
words serve in0.resp missing in2.resp
file in0.resp
ask SET x0 1
ask GET x0
file in1.resp
ask SET x1 1
ask GET x1
file in2.resp
ask SET x2 1
ask GET x2
said cannot open 1
told status 2 file 1
told held 0 0 no pool
told file 0, 3 wires, 2 opens";

#[test]
fn a_second_file_that_does_not_open(rt: HostRuntime) -> Result<(), Fail> {
    check(&rt, rt.alloc(), SECOND_UNOPENED)
}

/// A wire for each file must be there before one is opened.
const FEWER_WIRES: &str = "\
case two wires for three files, none of which is opened
words serve in0.resp in1.resp in2.resp
wires 2
file in0.resp
ask SET x0 1
ask GET x0
file in1.resp
ask SET x1 1
ask GET x1
file in2.resp
ask SET x2 1
ask GET x2
said bad words
told status 1
told held 0 0 no pool
told 2 wires, 0 opens";

#[test]
fn fewer_wires_than_files(rt: HostRuntime) -> Result<(), Fail> {
    check(&rt, rt.alloc(), FEWER_WIRES)
}
