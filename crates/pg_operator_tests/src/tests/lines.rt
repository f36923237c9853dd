//! Lines of an operator, read as edits, and the lines of a setup file whose keys ask to bind.

use crate::tests::asserts::same;
use pg_fakes::edit_line;
use pg_lines::parse_question;
use pg_operator::{BoundBy, line_of_key, parse_line};
use pg_wire::SubId;
use std::test::*;

/// Lines, each with the edit that it asks for behind ` => `, or the refusal. The worked rows come first, then words and spaces, numbers, keys,
/// rings, the other verbs, and definitions, whose limits are not looked at.
const LINES: &str = "\
grant 1 7 => grant 1 7/7
grant 1 => BadLine
grant 1 0 => BadLine
grant 01 7 => BadLine
grant 1 65535 => BadLine
addsub 1 4 15 => BadLine
 => BadLine
    => BadLine
# grant 1 7 => BadLine
  grant   1  7  => grant 1 7/7
grant\t1 7 => BadLine
grant 1 7\r => BadLine
grant 1 7 8 => BadLine
GRANT 1 7 => BadLine
grantee 1 7 => BadLine
help => BadLine
help grant => BadLine
quit => BadLine
--help => BadLine
grant --help => BadLine
grant -- 1 7 => BadLine
grant 1 -7 => BadLine
-grant 1 7 => BadLine
linkup 7 => BadLine
tick 100 => BadLine
dropsub 1 => dropsub 1
dropsub 65535 => dropsub 65535
dropsub 0 => BadLine
dropsub 65536 => BadLine
dropsub +1 => BadLine
dropsub 0x1 => BadLine
dropsub 00000000001 => BadLine
dropsub 4294967297 => BadLine
dropsub 99999999999999999999 => BadLine
dropsub => BadLine
addpmu 65534 => addpmu 65534/65534
addpmu 3/7 => addpmu 3/7
addpmu 7/7 => addpmu 7/7
addpmu 3/ => BadLine
addpmu /7 => BadLine
addpmu 3/7/1 => BadLine
addpmu 0/7 => BadLine
addpmu 7/65535 => BadLine
addpmu 03/7 => BadLine
droppmu 3/7 => droppmu 3/7
revoke 2 3/7 => revoke 2 3/7
pmustats 9 => pmustats 9/9
addsub 1 4 => addsub 1 4 16777216
addsub 1 1024 16 => addsub 1 1024 16
addsub 1 1 16777216 => addsub 1 1 16777216
addsub 1 0 => BadLine
addsub 1 1025 => BadLine
addsub 1 4 16777217 => BadLine
addsub 1 4 16 1 => BadLine
addsub 1 => BadLine
remove 1 101 => remove 1 101
remove 1 65535 => BadLine
stats 1 => stats 1
stats => BadLine
audit 1 0 => audit 1 0
audit 1 63 => audit 1 63
audit 1 64 => BadLine
define 1 101 30 1000000 0 4 none 7 => define 1 101 30 1000000 0 4 none 7/7
define 1 101 255 4294967295 4294967295 4294967295 00fF 7 7/7 3/8 => define 1 101 255 4294967295 4294967295 4294967295 00FF 7/7 7/7 3/8
define 1 101 0 0 0 0 80 7 => define 1 101 0 0 0 0 80 7/7
define 1 101 256 1 0 4 none 7 => BadLine
define 1 101 30 4294967296 0 4 none 7 => BadLine
define 1 101 30 1000000 0 4 none => BadLine
define 1 101 30 1000000 0 4 None 7 => BadLine
define 1 101 30 1000000 0 4 0 7 => BadLine
define 1 101 30 1000000 0 4 0g 7 => BadLine
define 1 101 30 1000000 0 4 00+ 7 => BadLine
define 1 0 30 1000000 0 4 none 7 => BadLine
define 1 1 1 1 1 1 none 1 2 3 4 5 6 7 8 9 10 11 12 13 14 15 16 17 18 19 20 21 22 23 24 25 26 27 28 29 30 31 32 33 => BadLine";

#[test]
fn lines_as_edits(rt: HostRuntime) {
    let alloc = rt.alloc();
    for row in LINES.split('\n') {
        let (line, _) = row.split_once(" => ").expect(&rt, "a row");
        let read = match parse_line(alloc, line) {
            Ok(edit) => edit_line(alloc, &edit),
            Err(refusal) => format!(in alloc; "{refusal}"),
        };
        let read = read.expect(&rt, "memory");
        let told = format!(in alloc; "{line} => {read}").expect(&rt, "memory");
        same(&rt, told.as_str(), row);
    }
}

/// Lines, each with what it asks about the service behind ` => `.
const QUESTIONS: &str = "\
version => Some(Version)
  version   => Some(Version)
version 1 => None
Version => None
advise => Some(Advise)
advise 1 => None
show 1 => Some(Show(SubId { id: 1 }))
 show  65535  => Some(Show(SubId { id: 65535 }))
show => None
show 0 => None
show 65536 => None
show 01 => None
show -1 => None
show 1 1 => None
show 1/1 => None
shows 1 => None
show\t1 => None
# version => None
 => None";

#[test]
fn lines_as_questions(rt: HostRuntime) {
    let alloc = rt.alloc();
    for row in QUESTIONS.split('\n') {
        let (line, _) = row.split_once(" => ").expect(&rt, "a row");
        let question = parse_question(alloc, line).expect(&rt, "memory");
        let told = format!(in alloc; "{line} => {question:?}").expect(&rt, "memory");
        same(&rt, told.as_str(), row);
    }
}

/// Setup files, right and wrong ones, parted by a line `====`. Behind a line `=>` stands for keys of the file, and for the ports of subscribers by their
/// number, the line at which each is, or 0 where it is at none.
const KEYS: &str = "\
# status = \"127.0.0.1:9000\"
status = \"127.0.0.1:9100\" # control = \"c\"

tick_ms = 20
\"control\" = '/run/pdcgw.sock'
[[pmu]]
id = 7
[[subscriber]]
ring = 64
# port = 4799
port = 4801
id = 20
[[subscriber.stream]]
id = 3
rate = 30
base = 1000000
wait = 2
window = 4
members = [
    7,
]

[[subscriber]]
stall = 5
id = 3 # port = 4802

ring = 4
port = 4800
[[subscriber]]
id = 5
ring = 1

=>
status 2
control 5
20 11
3 28
5 0
7 0
====
subscriber = [{ id = 1, ring = 64 }, { port = 4800, id = 2, ring = 64 }]
control = \"c\"
pmu = [{ id = 7 }]
status = \"127.0.0.1:9100\"
record = \"/r\"
=>
status 4
control 2
record 5
2 1
1 0
3 0
====
pmu = [{ id = 7 }]

subscriber = [
    { id = 1, port = 4800, ring = 64 },
    { id = 2, port = 4801, ring = 64 },
]

=>
2 3
status 0
control 0
====

=>
status 0
====
subscriber = 4800

=>
1 0
====

subscriber = [1, { id = 1, port = 2 }]
=>
1 2
====
[subscriber]
id = 1
port = 4800

=>
1 0
====
[[pmu]]
id = 1
status = 1

=>
status 0
====
tick_ms = 20\r
status = \"127.0.0.1:9100\"\r
control = \"c\"\r

=>
status 2
====
status = \"127.0.0.1:9100\"
control =

=>
status 0";

#[test]
fn lines_of_keys(rt: HostRuntime) {
    let alloc = rt.alloc();
    for case in KEYS.split("\n====\n") {
        let (text, rows) = case.split_once("\n=>\n").expect(&rt, "a file");
        for row in rows.split('\n') {
            let (key, _) = row.split_once(" ").expect(&rt, "a row");
            let by = match key {
                "status" => BoundBy::Status,
                "control" => BoundBy::Control,
                "record" => BoundBy::Record,
                _ => {
                    let number = key.parse::<u16>().ok().expect(&rt, "a number");
                    BoundBy::Port(SubId::new(number).expect(&rt, "a subscriber"))
                }
            };
            let line = line_of_key(alloc, text, by).unwrap_or(0);
            let told = format!(in alloc; "{key} {line}").expect(&rt, "memory");
            assert_eq!(rt; told.as_str(), row, "in {text:?}");
        }
    }
}
