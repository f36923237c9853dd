//! What has to be done where one setup follows another.

use crate::tests::asserts::same;
use crate::tests::told::{edits_told, port_told, watch_told};
use pg_gateway::{Edit, Event, Gate, Gateway, Reply};
use pg_operator::{SourceSetup, read_setup};
use pg_setup::{Changes, Order, changes_between};
use std::alloc::Global;
use std::process::Abort;
use std::test::*;

/// A setup of three PMUs, of which one is called, and three subscribers.
const OLD: &str = r#"tick_ms = 10
ingest = 1
serve = 1
pmu = [{ id = 7, connect = "10.0.0.1:4712" }, { id = 8 }, { id = 9, source = 7 }]
subscriber = [
{ id = 1, ring = 64, grants = [7, 8], stream = [{ id = 101, rate = 30, base = 1000000, wait = 2, window = 4, members = [7] }, { id = 102, rate = 10, base = 1000000, wait = 2, window = 4, header = "AB", members = [8, 7] }] },
{ id = 2, ring = 4, bytes = 1000, grants = [7] },
{ id = 3, ring = 2, grants = ["7/9"] }]
"#;

/// Setups that differ from the one above. A row has what takes the place of what, with a bar between two such, and behind ` ==>` what has to be done.
const ROWS: &str = r#"tick_ms = 10 => tick_ms = 10 ==>
{ id = 8 } => { id = 8 }, { id = 9, source = 8 } ==> addpmu 8/9;
{ id = 8 }, => | [7, 8] => [7] ==> droppmu 8/8;
{ id = 9, source = 7 } => { id = 9 } | "7/9" => 9 ==> droppmu 7/9; addpmu 9/9; grant 3 9/9;
["7/9"] } => ["7/9"] }, { id = 4, ring = 1, bytes = 16, grants = [8], stream = [{ id = 101, rate = 1, base = 1, wait = 0, window = 1, header = "A", members = [8] }] } ==> addsub 4 1 16; grant 4 8/8; define 4 101 1 1 0 1 41 8/8;
{ id = 2, ring = 4, bytes = 1000, grants = [7] },  => ==> dropsub 2;
id = 2, => id = 5, ==> dropsub 2; addsub 5 4 1000; grant 5 7/7;
[7, 8] => [7] ==> revoke 1 8/8;
[7, 8] => [] ==> revoke 1 7/7; revoke 1 8/8;
[7, 8] => [7, 8, "7/9"] ==> grant 1 7/9;
[7, 8] => ["7/9", 8] ==> revoke 1 7/7; grant 1 7/9;
{ id = 101, rate = 30, base = 1000000, wait = 2, window = 4, members = [7] },  => ==> remove 1 101;
members = [7] } => members = [7] }, { id = 103, rate = 5, base = 90, wait = 1, window = 3, members = [8] } ==> define 1 103 5 90 1 3 none 8/8;
id = 101, => id = 111, ==> remove 1 101; define 1 111 30 1000000 2 4 none 7/7;
rate = 30 => rate = 31 ==> remove 1 101; define 1 101 31 1000000 2 4 none 7/7;
30, base = 1000000 => 30, base = 1000001 ==> remove 1 101; define 1 101 30 1000001 2 4 none 7/7;
wait = 2, window = 4, members => wait = 3, window = 4, members ==> remove 1 101; define 1 101 30 1000000 3 4 none 7/7;
window = 4, members => window = 5, members ==> remove 1 101; define 1 101 30 1000000 2 5 none 7/7;
header = "AB" => header = "AC" ==> remove 1 102; define 1 102 10 1000000 2 4 4143 8/8 7/7;
members = [8, 7] => members = [7, 8] ==> remove 1 102; define 1 102 10 1000000 2 4 4142 7/7 8/8;
members = [8, 7] => members = [8] ==> remove 1 102; define 1 102 10 1000000 2 4 4142 8/8;
ring = 64 => ring = 65 ==> dropsub 1; addsub 1 65 16777216; grant 1 7/7; grant 1 8/8; define 1 101 30 1000000 2 4 none 7/7; define 1 102 10 1000000 2 4 4142 8/8 7/7;
bytes = 1000 => bytes = 1001 ==> dropsub 2; addsub 2 4 1001; grant 2 7/7;
bytes = 1000, grants = [7] => bytes = 1001, grants = [8] ==> dropsub 2; addsub 2 4 1001; grant 2 8/8;
[7, 8] => [8, 7] | { id = 8 }, { id = 9, source = 7 } => { id = 9, source = 7 }, { id = 8 } ==>
[7, 8] => [8, 7, 8, 8] | ring = 64 => ring = 64, bytes = 16777216 | { id = 8 } => { id = 8, source = 8, silence = 10 } ==>
[{ id = 7, connect = "10.0.0.1:4712" }, => [ | source = 7 } => source = 7 }, { id = 7, connect = "10.0.0.1:4712", silence = 10 } ==>
{ id = 101, rate = 30, base = 1000000, wait = 2, window = 4, members = [7] }, => | members = [8, 7] } => members = [8, 7] }, { id = 101, rate = 30, base = 1000000, wait = 2, window = 4, header = "", members = ["7/7"] } ==>
{ id = 2, ring = 4, bytes = 1000, grants = [7] },  => | "7/9"] } => "7/9"] }, { id = 2, ring = 4, bytes = 1000, grants = [7] } ==>
tick_ms = 10 => tick_ms = 20 ==> restart TickMs;
ingest = 1 => ingest = 2 ==> restart Ingest;
serve = 1 => serve = 8 ==> restart Serve;
serve = 1 => serve = 3 | ingest = 1 => ingest = 2 | tick_ms = 10 => tick_ms = 11 ==> restart TickMs; restart Ingest; restart Serve;
0.1:4712 => 0.2:4712 ==> undial 7; dial 7 10.0.0.2:4712 10 None 200;
, connect = "10.0.0.1:4712" => ==> undial 7;
"10.0.0.1:4712" => ["10.0.0.1:4712"] ==>
"10.0.0.1:4712" => ["10.0.0.1:4712", "b:1"] ==> undial 7; dial 7 10.0.0.1:4712 b:1 10 None 200;
"10.0.0.1:4712" => ["b:1", "10.0.0.1:4712"] ==> undial 7; dial 7 b:1 10.0.0.1:4712 10 None 200;
, connect => , prefer_first = true, connect ==> undial 7; dial 7 10.0.0.1:4712 10 None 200 prefer_first;
, connect => , prefer_first = false, connect ==>
{ id = 8 } => { id = 8, connect = "pmu8.example:4713", clock_ms = 500 } ==> dial 8 pmu8.example:4713 10 Some(500) 200;
, connect => , silence = 60, connect ==> undial 7; dial 7 10.0.0.1:4712 60 None 200;
, connect => , clock_ms = 90, connect ==> undial 7; dial 7 10.0.0.1:4712 10 Some(90) 200;
{ id = 8 } => { id = 8, silence = 60 } ==>
, connect => , ahead_ms = 0, connect ==> undial 7; dial 7 10.0.0.1:4712 10 None 0;
{ id = 9, source = 7 } => { id = 9, source = 7, ahead_ms = 201 } ==> undial 7; dial 7 10.0.0.1:4712 10 None 201;
, connect => , ahead_ms = 200, connect ==>
{ id = 8 } => { id = 8, ahead_ms = 5 } ==>
[7, 8] => [7, "7/9"] | members = [8, 7] => members = ["7/9", 7] ==> remove 1 102; revoke 1 8/8; grant 1 7/9; define 1 102 10 1000000 2 4 4142 7/9 7/7;
[7, 8] => [8] | wait = 2, window = 4, members => wait = 3, window = 4, members ==> remove 1 101; revoke 1 7/7; define 1 101 30 1000000 3 4 none 7/7;
{ id = 8 }, => | [7, 8] => [7] | members = [8, 7] => members = [7] ==> remove 1 102; droppmu 8/8; define 1 102 10 1000000 2 4 4142 7/7;
{ id = 8 }, => { id = 6, connect = "10.0.0.6:4712" }, | tick_ms = 10 => tick_ms = 30 | [7, 8] => [6, 7] | { id = 2, ring = 4, bytes = 1000, grants = [7] },  => | ["7/9"] }] => ["7/9", 6] }, { id = 9, ring = 1 }] | rate = 30 => rate = 60 ==> dropsub 2; remove 1 101; droppmu 8/8; addpmu 6/6; addsub 9 1 16777216; grant 1 6/6; grant 3 6/6; define 1 101 60 1000000 2 4 none 7/7; dial 6 10.0.0.6:4712 10 None 200; restart TickMs;"#;

/// A setup of two ports.
const PORTS: &str = r#"pmu = [{ id = 7 }]
subscriber = [
{ id = 1, port = 4800, ring = 64 },
{ id = 2, port = 4801, address = "127.0.0.1", allow = ["10.0.0.0/8"], ring = 4 },
{ id = 3, ring = 2 }]
"#;

/// Setups that differ from the one above.
const PORT_ROWS: &str = r#"ring = 2 => ring = 2 ==>
4800 => 4900 ==> unlisten 1; listen 1 4900 0.0.0.0 111111 false 30 0 Safe;
, port = 4800 => ==> unlisten 1;
id = 3 => id = 3, port = 4802, takeover = true ==> listen 3 4802 0.0.0.0 111111 true 30 0 Safe;
127.0.0.1 => 127.0.0.2 ==> unlisten 2; listen 2 4801 127.0.0.2 111000 false 30 0 Safe;
10.0.0.0/8 => 10.0.0.0/9 ==> unlisten 2; listen 2 4801 127.0.0.1 110000 false 30 0 Safe;
["10.0.0.0/8"] => ["10.0.0.0/8", "10.1.0.0/16"] ==> unlisten 2; listen 2 4801 127.0.0.1 111000 false 30 0 Safe;
, allow = ["10.0.0.0/8"] => ==> unlisten 2; listen 2 4801 127.0.0.1 111111 false 30 0 Safe;
ring = 4 => ring = 4, takeover = true ==> unlisten 2; listen 2 4801 127.0.0.1 111000 true 30 0 Safe;
ring = 4 => ring = 4, stall = 31 ==> unlisten 2; listen 2 4801 127.0.0.1 111000 false 31 0 Safe;
ring = 4 => ring = 4, idle = 5 ==> unlisten 2; listen 2 4801 127.0.0.1 111000 false 30 5 Safe;
ring = 4 => ring = 4, stall = 30, idle = 0, takeover = false, bytes = 16777216 ==>
ring = 4 => ring = 4, change = "keep" ==> unlisten 2; listen 2 4801 127.0.0.1 111000 false 30 0 Keep;
ring = 4 => ring = 4, change = "hangup" ==> unlisten 2; listen 2 4801 127.0.0.1 111000 false 30 0 HangUp;
ring = 4 => ring = 4, change = "safe" ==>
ring = 2 => ring = 2, change = "keep" ==>
ring = 64 => ring = 65 ==> dropsub 1; addsub 1 65 16777216;
{ id = 1, port = 4800, ring = 64 }, => ==> dropsub 1; unlisten 1;
4800 => 4801 | 4801, address => 4800, address ==> unlisten 1; unlisten 2; listen 1 4801 0.0.0.0 111111 false 30 0 Safe; listen 2 4800 127.0.0.1 111000 false 30 0 Safe;"#;

/// A setup with all keys of the file itself.
const GENERAL: &str = r#"tick_ms = 10
ingest = 1
serve = 1
log = "info"
control = "/run/a.sock"
status = "127.0.0.1:9100"
pmu = [{ id = 7 }]
subscriber = [{ id = 1, ring = 64 }]
"#;

/// Setups that differ from the one above.
const GENERAL_ROWS: &str = r#"log = "info" => log = "info" ==>
log = "info" => log = "debug" ==>
log = "info" => ==>
a.sock => b.sock ==> restart Control;
a.sock => a.soc ==> restart Control;
a.sock => A.sock ==> restart Control;
control = "/run/a.sock" => ==> restart Control;
control = "/run/a.sock" => control = '/run/a.sock' ==>
9100 => 9101 ==> restart Status;
127.0.0.1 => 127.0.0.2 ==> restart Status;
127.0.0.1 => 128.0.0.1 ==> restart Status;
127.0.0.1:9100 => 0.0.0.0:80 ==> restart Status;
status = "127.0.0.1:9100" => ==> restart Status;
status = "127.0.0.1:9100" => status = '127.0.0.1:9100' ==>
a.sock => b.sock | 9100 => 9101 ==> restart Control; restart Status;
status = "127.0.0.1:9100" => | control = "/run/a.sock" => | tick_ms = 10 => tick_ms = 11 ==> restart TickMs; restart Control; restart Status;
a.sock => b.sock | serve = 1 => serve = 2 ==> restart Serve; restart Control;
9100 => 9101 | a.sock => b.sock | log = "info" => log = "warn" | serve = 1 => serve = 2 | ingest = 1 => ingest = 2 | tick_ms = 10 => tick_ms = 11 ==> restart TickMs; restart Ingest; restart Serve; restart Control; restart Status;
{ id = 7 } => { id = 7 }, { id = 8 } | a.sock => b.sock ==> addpmu 8/8; restart Control;"#;

/// A setup that leaves out what may have no value.
const BARE: &str = r#"tick_ms = 10
# log = "info"
# control = "/run/a.sock"
# status = "127.0.0.1:9100"
pmu = [{ id = 7 }]
subscriber = [{ id = 1, ring = 64 }]
"#;

/// Setups that differ from the one above.
const BARE_ROWS: &str = r#"# log = "info" => log = "info" ==>
# log = "info" => log = "error" ==>
# control => control ==> restart Control;
# status => status ==> restart Status;
# status => status | # control => control ==> restart Control; restart Status;
# status => status | # control => control | tick_ms = 10 => tick_ms = 20 | # log = "info" => log = "debug" ==> restart TickMs; restart Control; restart Status;
# log = "info" => record = "/r" ==> restart Record;
# log = "info" => record_mb = 4000 ==>
# log = "info" => record_mb = 4001 ==> restart RecordMb;
# log = "info" => record_hours = 168 ==>
# log = "info" => record_hours = 24 ==> restart RecordHours;
# log = "info" => record = "/r" | # control => record_mb = 20 # | # status => record_hours = 1 # ==> restart Record; restart RecordMb; restart RecordHours;"#;

/// A source that is connected to: its addresses, and how it is watched.
fn dial_told(rt: &impl Abort, alloc: Global, source: &SourceSetup) -> String {
    let mut text = String::new(alloc);
    write!(text, "dial {}", source.rules.source.get()).expect(rt, "memory");
    for address in source.connect.as_slice() {
        write!(text, " {address}").expect(rt, "memory");
    }
    let watch = watch_told(rt, alloc, &source.rules);
    write!(text, " {watch}; ").expect(rt, "memory");
    text
}

/// All that has to be done: edits, orders, and the keys that want a restart.
fn changes_told(rt: &impl Abort, alloc: Global, changes: &Changes) -> String {
    let mut text = edits_told(rt, alloc, changes.edits.as_slice());
    for order in changes.orders.as_slice() {
        let told = match order {
            Order::Unlisten(sub) => format!(in alloc; "unlisten {}; ", sub.get()),
            Order::Undial(source) => format!(in alloc; "undial {}; ", source.get()),
            Order::Listen(port) => Ok(port_told(rt, alloc, port.port, &port.rules)),
            Order::Dial(source) => Ok(dial_told(rt, alloc, source)),
        };
        text.push_str(told.expect(rt, "memory").as_str())
            .expect(rt, "memory");
    }
    for key in changes.restarts.as_slice() {
        write!(text, "restart {key:?}; ").expect(rt, "memory");
    }
    text
}

/// The text with what a row puts in the place of what.
fn replaced(rt: &impl Abort, alloc: Global, text: &str, row: &str) -> String {
    let mut text = String::from_str(alloc, text).expect(rt, "memory");
    for part in row.split('|') {
        let (from, to) = part
            .split_once("=>")
            .expect(rt, "what takes the place of what");
        let (before, behind) = text
            .as_str()
            .split_once(from.trim())
            .expect(rt, "what is replaced");
        text = format!(in alloc; "{before}{}{behind}", to.trim()).expect(rt, "memory");
    }
    text
}

/// The event that an edit of a reload is; a tick, which changes nothing here, in the place of any other.
fn event_of(edit: Edit) -> Event {
    match edit {
        Edit::AddPmu(key) => Event::AddPmu(key),
        Edit::DropPmu(key) => Event::DropPmu(key),
        Edit::AddSub(id, size, bytes) => Event::AddSub(id, size, bytes),
        Edit::DropSub(id) => Event::DropSub(id),
        Edit::Grant(id, key) => Event::Grant(id, key),
        Edit::Revoke(id, key) => Event::Revoke(id, key),
        Edit::Define(id, definition) => Event::Define(id, definition),
        Edit::Remove(id, stream) => Event::Remove(id, stream),
        _ => Event::Tick(0),
    }
}

/// A gateway refuses none of these edits.
fn does_all(rt: &impl Abort, gateway: &mut Gateway, edits: Vec<Edit>) {
    for edit in edits {
        let reply = gateway.post(event_of(edit));
        assert!(*rt; !matches!(reply, Reply::Refused(_)));
    }
}

/// What leads from one setup to the other. A gateway with the one does these edits, and those that lead back.
fn between(rt: &impl Abort, alloc: Global, old: &str, new: &str) -> String {
    let old = read_setup(alloc, old).expect(rt, "a setup");
    let new = read_setup(alloc, new).expect(rt, "a setup");
    let there = changes_between(alloc, &old, &new).expect(rt, "memory");
    let back = changes_between(alloc, &new, &old).expect(rt, "memory");
    let text = changes_told(rt, alloc, &there);
    let mut gateway = Gateway::new(alloc).expect(rt, "memory");
    does_all(rt, &mut gateway, old.edits(alloc).expect(rt, "memory"));
    does_all(rt, &mut gateway, there.edits);
    does_all(rt, &mut gateway, back.edits);
    text
}

#[test]
fn changes_of_setups(rt: HostRuntime) {
    let alloc = rt.alloc();
    for (old, rows) in [
        (OLD, ROWS),
        (PORTS, PORT_ROWS),
        (GENERAL, GENERAL_ROWS),
        (BARE, BARE_ROWS),
    ] {
        for row in rows.split('\n') {
            let (parts, wanted) = row.split_once(" ==>").expect(&rt, "a row");
            let new = replaced(&rt, alloc, old, parts);
            let told = between(&rt, alloc, old, new.as_str());
            assert_eq!(rt; told.as_str().trim_end(), wanted.trim(), "at {parts}");
        }
    }
}
