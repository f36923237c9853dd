//! What a setup file is read as.

use crate::tests::asserts::same;
use crate::tests::told::{edits_told, port_told, watch_told};
use pg_operator::{Setup, help_on_keys, read_setup};
use std::alloc::Global;
use std::process::Abort;
use std::test::*;

/// Whole files. A row has the lines of a file, parted by semicolons, and behind ` => ` what they are read as, or the refusal: here the edits, links, ports
/// and numbers. The worked row comes first.
const FILES: &str =
    r#"tick_ms = 10;ingest = 1;serve = 1;[[pmu]];id = 7;connect = "127.0.0.1:4712";[[subscriber]];id = 1;port = 4800;ring = 64;grants = [7];[[subscriber.stream]];id = 101;rate = 30;base = 1000000;wait = 2;window = 4;header = "";members = [7] => addpmu 7/7; addsub 1 64 16777216; grant 1 7/7; define 1 101 30 1000000 2 4 none 7/7; link 7 127.0.0.1:4712; port 1 4800; 10 1 1
[[pmu]];id=7;[[subscriber]];id=1;ring=4 => addpmu 7/7; addsub 1 4 16777216; 10 1 1
tick_ms=1000;ingest=8;serve=8;[[pmu]];id=7;[[subscriber]];id=1;ring=4 => addpmu 7/7; addsub 1 4 16777216; 1000 8 8
tick_ms=0;[[pmu]];id=7;[[subscriber]];id=1;ring=4 => BadSetup
tick_ms=1001;[[pmu]];id=7;[[subscriber]];id=1;ring=4 => BadSetup
tick_ms="10";[[pmu]];id=7;[[subscriber]];id=1;ring=4 => BadSetup
tick_ms=10.0;[[pmu]];id=7;[[subscriber]];id=1;ring=4 => BadSetup
ingest=0;[[pmu]];id=7;[[subscriber]];id=1;ring=4 => BadSetup
serve=9;[[pmu]];id=7;[[subscriber]];id=1;ring=4 => BadSetup
other=1;[[pmu]];id=7;[[subscriber]];id=1;ring=4 => BadSetup
tick_ms=;[[pmu]];id=7;[[subscriber]];id=1;ring=4 => BadSetup
tick_ms=1;tick_ms=1;[[pmu]];id=7;[[subscriber]];id=1;ring=4 => BadSetup
[[pmu]];;[[subscriber]];id=1;ring=4 => BadSetup
[[pmu]];id=0;[[subscriber]];id=1;ring=4 => BadSetup
[[pmu]];id=65535;[[subscriber]];id=1;ring=4 => BadSetup
[[pmu]];id=-7;[[subscriber]];id=1;ring=4 => BadSetup
[[pmu]];id=7;port=1;[[subscriber]];id=1;ring=4 => BadSetup
[[pmu]];id=7;source=3;[[subscriber]];id=1;ring=4 => addpmu 3/7; addsub 1 4 16777216; 10 1 1
[[pmu]];id=7;source=0;[[subscriber]];id=1;ring=4 => BadSetup
[[pmu]];id=7;connect="255.0.10.1:65535";[[subscriber]];id=1;ring=4 => addpmu 7/7; addsub 1 4 16777216; link 7 255.0.10.1:65535; 10 1 1
[[pmu]];id=7;connect="256.0.0.1:1";[[subscriber]];id=1;ring=4 => BadSetup
[[pmu]];id=7;connect="1.0.0.1:0";[[subscriber]];id=1;ring=4 => BadSetup
[[pmu]];id=7;connect="1.0.0.1";[[subscriber]];id=1;ring=4 => BadSetup
[[pmu]];id=7;connect="1.0.1:1";[[subscriber]];id=1;ring=4 => BadSetup
[[pmu]];id=7;connect="1.0.0.1.1:1";[[subscriber]];id=1;ring=4 => BadSetup
[[pmu]];id=7;connect="01.0.0.1:1";[[subscriber]];id=1;ring=4 => BadSetup
[[pmu]];id=7;connect="host:1";[[subscriber]];id=1;ring=4 => addpmu 7/7; addsub 1 4 16777216; link 7 host:1; 10 1 1
[[pmu]];id=7;connect=7;[[subscriber]];id=1;ring=4 => BadSetup
[[pmu]];id=7;[[pmu]];id=8;source=7;connect="1.0.0.1:1";[[subscriber]];id=1;ring=4 => addpmu 7/7; addpmu 7/8; addsub 1 4 16777216; link 7 1.0.0.1:1; 10 1 1
[[pmu]];id=7;connect="1.0.0.1:1";[[pmu]];id=8;source=7;connect="1.0.0.1:1";[[subscriber]];id=1;ring=4 => BadSetup
[[pmu]];id=7;[[subscriber]];ring=4 => BadSetup
[[pmu]];id=7;[[subscriber]];id=1 => BadSetup
[[pmu]];id=7;[[subscriber]];id=1;ring=0 => BadSetup
[[pmu]];id=7;[[subscriber]];id=1;ring=1025 => BadSetup
[[pmu]];id=7;[[subscriber]];id=0;ring=4 => BadSetup
[[pmu]];id=7;[[subscriber]];id=1;ring=4;bytes=16 => addpmu 7/7; addsub 1 4 16; 10 1 1
[[pmu]];id=7;[[subscriber]];id=1;ring=4;bytes=15 => BadSetup
[[pmu]];id=7;[[subscriber]];id=1;ring=4;port=0 => BadSetup
[[pmu]];id=7;[[subscriber]];id=1;ring=4;name="a" => BadSetup
[[pmu]];id=7;[[subscriber]];id=1;ring=4;grants=[7, "3/8"] => addpmu 7/7; addsub 1 4 16777216; grant 1 7/7; grant 1 3/8; 10 1 1
[[pmu]];id=7;[[subscriber]];id=1;ring=4;grants=7 => BadSetup
[[pmu]];id=7;[[subscriber]];id=1;ring=4;grants=[0] => BadSetup
[[pmu]];id=7;[[subscriber]];id=1;ring=4;grants=["3"] => BadSetup
[[pmu]];id=7;[[subscriber]];id=1;ring=4;port=5;[[subscriber]];id=2;ring=1;port=6 => addpmu 7/7; addsub 1 4 16777216; addsub 2 1 16777216; port 1 5; port 2 6; 10 1 1
[[pmu]];id=7;[[subscriber]];id=1;ring=4;grants=[7];[[subscriber.stream]];id=1;rate=30;base=100;wait=0;window=4;members=[7, "3/8"];header="ab" => addpmu 7/7; addsub 1 4 16777216; grant 1 7/7; define 1 1 30 100 0 4 6162 7/7 3/8; 10 1 1
[[pmu]];id=7;[[subscriber]];id=1;ring=4;[[subscriber.stream]];id=1;rate=30;base=100;wait=0;window=4;members=[] => BadSetup
[[pmu]];id=7;[[subscriber]];id=1;ring=4;[[subscriber.stream]];id=1;rate=30;base=100;wait=0;window=4;header="" => BadSetup
[[pmu]];id=7;[[subscriber]];id=1;ring=4;[[subscriber.stream]];id=1;rate=30;base=100;wait=0;window=4;members=[7];header=1 => BadSetup
[[pmu]];id=7;[[subscriber]];id=1;ring=4;[[subscriber.stream]];id=1;rate=30;base=100;wait=0;window=4;members=[7];other=1 => BadSetup
 => BadSetup
[[pmu]];id=7 => BadSetup
[[subscriber]];id=1;ring=4 => BadSetup
pmu=1;subscriber=1 => BadSetup
[pmu];id=7;[[subscriber]];id=1;ring=4 => BadSetup"#;

/// Addresses of a source.
const ADDRESSES: &str =
    r#"connect="host:1" => addpmu 7/7; addsub 1 4 16777216; link 7 host:1; 10 1 1
connect="h:65535" => addpmu 7/7; addsub 1 4 16777216; link 7 h:65535; 10 1 1
connect="pmu-7.example.org:4712" => addpmu 7/7; addsub 1 4 16777216; link 7 pmu-7.example.org:4712; 10 1 1
connect="A.b.C:80" => addpmu 7/7; addsub 1 4 16777216; link 7 A.b.C:80; 10 1 1
connect="1a:1" => addpmu 7/7; addsub 1 4 16777216; link 7 1a:1; 10 1 1
connect="3com.com:1" => addpmu 7/7; addsub 1 4 16777216; link 7 3com.com:1; 10 1 1
connect="1.2.3.a4:1" => addpmu 7/7; addsub 1 4 16777216; link 7 1.2.3.a4:1; 10 1 1
connect="a--b:1" => addpmu 7/7; addsub 1 4 16777216; link 7 a--b:1; 10 1 1
connect="xn--nxasmq6b.example:4712" => addpmu 7/7; addsub 1 4 16777216; link 7 xn--nxasmq6b.example:4712; 10 1 1
connect="aaaaaaaaaaaaaaaaaaaaaaaaaaaaaaaaaaaaaaaaaaaaaaaaaaaaaaaaaaaaaaa:1" => addpmu 7/7; addsub 1 4 16777216; link 7 aaaaaaaaaaaaaaaaaaaaaaaaaaaaaaaaaaaaaaaaaaaaaaaaaaaaaaaaaaaaaaa:1; 10 1 1
connect="aaaaaaaaaaaaaaaaaaaaaaaaaaaaaaaaaaaaaaaaaaaaaaaaaaaaaaaaaaaaaaa.aaaaaaaaaaaaaaaaaaaaaaaaaaaaaaaaaaaaaaaaaaaaaaaaaaaaaaaaaaaaaaa.aaaaaaaaaaaaaaaaaaaaaaaaaaaaaaaaaaaaaaaaaaaaaaaaaaaaaaaaaaaaaaa.aaaaaaaaaaaaaaaaaaaaaaaaaaaaaaaaaaaaaaaaaaaaaaaaaaaaaaaaaaaaa:1" => addpmu 7/7; addsub 1 4 16777216; link 7 aaaaaaaaaaaaaaaaaaaaaaaaaaaaaaaaaaaaaaaaaaaaaaaaaaaaaaaaaaaaaaa.aaaaaaaaaaaaaaaaaaaaaaaaaaaaaaaaaaaaaaaaaaaaaaaaaaaaaaaaaaaaaaa.aaaaaaaaaaaaaaaaaaaaaaaaaaaaaaaaaaaaaaaaaaaaaaaaaaaaaaaaaaaaaaa.aaaaaaaaaaaaaaaaaaaaaaaaaaaaaaaaaaaaaaaaaaaaaaaaaaaaaaaaaaaaa:1; 10 1 1
connect="10.0.0.7:4712" => addpmu 7/7; addsub 1 4 16777216; link 7 10.0.0.7:4712; 10 1 1
connect="0.0.0.0:1" => addpmu 7/7; addsub 1 4 16777216; link 7 0.0.0.0:1; 10 1 1
connect=":1" => BadSetup
connect="host" => BadSetup
connect="host:" => BadSetup
connect="host:0" => BadSetup
connect="host:65536" => BadSetup
connect="host:01" => BadSetup
connect="host:+1" => BadSetup
connect="host: 1" => BadSetup
connect="host::1" => BadSetup
connect="[::1]:1" => BadSetup
connect="-a:1" => BadSetup
connect="a-:1" => BadSetup
connect="-:1" => BadSetup
connect="a.-b.c:1" => BadSetup
connect="a.b-:1" => BadSetup
connect="a..b:1" => BadSetup
connect=".a:1" => BadSetup
connect="a.:1" => BadSetup
connect=".:1" => BadSetup
connect="a_b:1" => BadSetup
connect="a b:1" => BadSetup
connect=" a:1" => BadSetup
connect="a/b:1" => BadSetup
connect="é:1" => BadSetup
connect="aaaaaaaaaaaaaaaaaaaaaaaaaaaaaaaaaaaaaaaaaaaaaaaaaaaaaaaaaaaaaaaa:1" => BadSetup
connect="aaaaaaaaaaaaaaaaaaaaaaaaaaaaaaaaaaaaaaaaaaaaaaaaaaaaaaaaaaaaaaa.aaaaaaaaaaaaaaaaaaaaaaaaaaaaaaaaaaaaaaaaaaaaaaaaaaaaaaaaaaaaaaa.aaaaaaaaaaaaaaaaaaaaaaaaaaaaaaaaaaaaaaaaaaaaaaaaaaaaaaaaaaaaaaa.aaaaaaaaaaaaaaaaaaaaaaaaaaaaaaaaaaaaaaaaaaaaaaaaaaaaaaaaaaaaaa:1" => BadSetup
connect="300.1.1.1:4712" => BadSetup
connect="1.2.3:4712" => BadSetup
connect="1:1" => BadSetup
connect="a.1:1" => BadSetup
connect="a.b.123:1" => BadSetup
connect="1.2.3.4.5:1" => BadSetup
connect="255.255.255.256:1" => BadSetup
connect="01.1.1.1:1" => BadSetup
connect="1.1.1.1:65536" => BadSetup
connect=["1.1.1.1:5"] => addpmu 7/7; addsub 1 4 16777216; link 7 1.1.1.1:5; 10 1 1
connect=["1.1.1.1:5", "host:6"] => addpmu 7/7; addsub 1 4 16777216; link 7 1.1.1.1:5; link 7 host:6; 10 1 1
connect=["a:1", "b:2", "3.3.3.3:3", "a:1"] => addpmu 7/7; addsub 1 4 16777216; link 7 a:1; link 7 b:2; link 7 3.3.3.3:3; link 7 a:1; 10 1 1
connect=[] => BadSetup
connect=["a:1", "b:2", "c:3", "d:4", "e:5"] => BadSetup
connect=["a:1", "b"] => BadSetup
connect=[["a:1"]] => BadSetup
connect=[1] => BadSetup"#;

/// Lines of a PMU's table, with the sources: number, silence, guard, and how far it may be ahead.
const SOURCES: &str = r#" => 7 10 None 200;
prefer_first=true => 7 10 None 200 prefer_first;
prefer_first=false => 7 10 None 200;
prefer_first=1 => BadSetup
prefer_first="true" => BadSetup
silence=0 => 7 0 None 200;
silence=1 => 7 1 None 200;
silence=3600 => 7 3600 None 200;
silence=3601 => BadSetup
silence=-1 => BadSetup
silence="10" => BadSetup
silence=10.0 => BadSetup
silence=true => BadSetup
silence=[10] => BadSetup
clock_ms=1 => 7 10 Some(1) 200;
clock_ms=30000 => 7 10 Some(30000) 200;
clock_ms=0 => BadSetup
clock_ms=30001 => BadSetup
clock_ms=-1 => BadSetup
clock_ms="1" => BadSetup
clock_ms=1.0 => BadSetup
clock_ms=false => BadSetup
Silence=10 => BadSetup
silence_s=10 => BadSetup
clock=1 => BadSetup
stall=10 => BadSetup
silence=5;clock_ms=7 => 7 5 Some(7) 200;
source=9;silence=5;clock_ms=7 => 9 5 Some(7) 200;
silence=5;[[pmu]];id=8;source=7;silence=5 => 7 5 None 200;
silence=5;[[pmu]];id=8;source=7 => 7 5 None 200;
[[pmu]];id=8;source=7;silence=5 => 7 5 None 200;
silence=5;[[pmu]];id=8;source=7;clock_ms=6 => 7 5 Some(6) 200;
silence=5;[[pmu]];id=8;source=7;silence=6 => BadSetup
silence=6;[[pmu]];id=8;source=7;silence=5 => BadSetup
silence=10;[[pmu]];id=8;source=7;silence=0 => BadSetup
silence=5;[[pmu]];id=8;source=7;[[pmu]];id=9;source=7;silence=6 => BadSetup
clock_ms=5;[[pmu]];id=8;source=7;clock_ms=5 => 7 10 Some(5) 200;
clock_ms=5;[[pmu]];id=8;source=7;clock_ms=6 => BadSetup
clock_ms=6;[[pmu]];id=8;source=7;clock_ms=5 => BadSetup
silence=1;clock_ms=5;[[pmu]];id=8;source=7;silence=1;clock_ms=6 => BadSetup
prefer_first=true;[[pmu]];id=8;source=7 => 7 10 None 200 prefer_first;
[[pmu]];id=8;source=7;prefer_first=true => 7 10 None 200 prefer_first;
prefer_first=true;[[pmu]];id=8;source=7;prefer_first=true => 7 10 None 200 prefer_first;
prefer_first=true;[[pmu]];id=8;source=7;prefer_first=false => BadSetup
prefer_first=false;[[pmu]];id=8;source=7;prefer_first=true => BadSetup
prefer_first=true;[[pmu]];id=8 => 7 10 None 200 prefer_first; 8 10 None 200;
silence=5;[[pmu]];id=8;silence=6 => 7 5 None 200; 8 6 None 200;
source=9;[[pmu]];id=8;source=3;[[pmu]];id=5;source=9;silence=4 => 9 4 None 200; 3 10 None 200;
source=9;[[pmu]];id=9;source=7;clock_ms=1 => 9 10 None 200; 7 10 Some(1) 200;
[[pmu]];id=8;source=3;silence=1;[[pmu]];id=9;source=3;silence=2 => BadSetup
ahead_ms=1 => 7 10 None 1;
ahead_ms=30000 => 7 10 None 30000;
ahead_ms=0 => 7 10 None 0;
ahead_ms=30001 => BadSetup
ahead_ms=-1 => BadSetup
ahead_ms="200" => BadSetup
ahead_ms=200.0 => BadSetup
ahead_ms=true => BadSetup
ahead=1 => BadSetup
silence=5;clock_ms=7;ahead_ms=9 => 7 5 Some(7) 9;
ahead_ms=200;[[pmu]];id=8;source=7;ahead_ms=200 => 7 10 None 200;
ahead_ms=0;[[pmu]];id=8;source=7 => 7 10 None 0;
[[pmu]];id=8;source=7;ahead_ms=0 => 7 10 None 0;
silence=5;[[pmu]];id=8;source=7;clock_ms=6;ahead_ms=7 => 7 5 Some(6) 7;
ahead_ms=5;[[pmu]];id=8;source=7;ahead_ms=6 => BadSetup
ahead_ms=200;[[pmu]];id=8;source=7;ahead_ms=0 => BadSetup
clock_ms=5;ahead_ms=1;[[pmu]];id=8;source=7;clock_ms=5;ahead_ms=2 => BadSetup
ahead_ms=5;[[pmu]];id=8;ahead_ms=6 => 7 10 None 5; 8 10 None 6;"#;

/// Lines of a subscriber's table, with the ports.
const PORTS: &str = r#" => listen 1 4800 0.0.0.0 111111 false 30 0 Safe;
address="127.0.0.1" => listen 1 4800 127.0.0.1 111111 false 30 0 Safe;
address="255.0.10.255" => listen 1 4800 255.0.10.255 111111 false 30 0 Safe;
address="0.0.0.0" => listen 1 4800 0.0.0.0 111111 false 30 0 Safe;
address="256.0.0.1" => BadSetup
address="0.0.0" => BadSetup
address="0.0.0.0.0" => BadSetup
address="01.0.0.1" => BadSetup
address="localhost" => BadSetup
address="127.0.0.1:4800" => BadSetup
address="127.0.0.1/32" => BadSetup
address=" 127.0.0.1" => BadSetup
address="" => BadSetup
address=1 => BadSetup
address=["127.0.0.1"] => BadSetup
allow=[] => listen 1 4800 0.0.0.0 000000 false 30 0 Safe;
allow=["10.0.0.1"] => listen 1 4800 0.0.0.0 010000 false 30 0 Safe;
allow=["10.0.0.1/32"] => listen 1 4800 0.0.0.0 010000 false 30 0 Safe;
allow=["10.0.0.1/31"] => listen 1 4800 0.0.0.0 110000 false 30 0 Safe;
allow=["10.0.0.1/8"] => listen 1 4800 0.0.0.0 111000 false 30 0 Safe;
allow=["10.0.0.0/7"] => listen 1 4800 0.0.0.0 111100 false 30 0 Safe;
allow=["0.0.0.0/0"] => listen 1 4800 0.0.0.0 111111 false 30 0 Safe;
allow=["255.255.255.255/1"] => listen 1 4800 0.0.0.0 000011 false 30 0 Safe;
allow=["192.168.1.0/24", "10.0.0.0"] => listen 1 4800 0.0.0.0 100010 false 30 0 Safe;
allow=["10.0.0.1/33"] => BadSetup
allow=["10.0.0.1/"] => BadSetup
allow=["10.0.0.1/08"] => BadSetup
allow=["10.0.0.1/-1"] => BadSetup
allow=["10.0.0.1/+8"] => BadSetup
allow=["10.0.0.1/8/8"] => BadSetup
allow=["10.0.0/8"] => BadSetup
allow=["/8"] => BadSetup
allow=[""] => BadSetup
allow=["10.0.0.1 "] => BadSetup
allow=["host"] => BadSetup
allow=["10.0.0.1", "10.0.0.256"] => BadSetup
allow=[10] => BadSetup
allow=[["10.0.0.1"]] => BadSetup
allow="10.0.0.1" => BadSetup
allow=true => BadSetup
takeover=true => listen 1 4800 0.0.0.0 111111 true 30 0 Safe;
takeover=false => listen 1 4800 0.0.0.0 111111 false 30 0 Safe;
takeover=1 => BadSetup
takeover=0 => BadSetup
takeover="true" => BadSetup
stall=0 => listen 1 4800 0.0.0.0 111111 false 0 0 Safe;
stall=1 => listen 1 4800 0.0.0.0 111111 false 1 0 Safe;
stall=3600 => listen 1 4800 0.0.0.0 111111 false 3600 0 Safe;
stall=3601 => BadSetup
stall=-1 => BadSetup
stall="30" => BadSetup
stall=30.0 => BadSetup
stall=true => BadSetup
idle=0 => listen 1 4800 0.0.0.0 111111 false 30 0 Safe;
idle=1 => listen 1 4800 0.0.0.0 111111 false 30 1 Safe;
idle=3600 => listen 1 4800 0.0.0.0 111111 false 30 3600 Safe;
idle=3601 => BadSetup
idle=-1 => BadSetup
idle="30" => BadSetup
idle=30.0 => BadSetup
idle=[] => BadSetup
Address="127.0.0.1" => BadSetup
allowed=[] => BadSetup
take_over=true => BadSetup
stalls=1 => BadSetup
silence=1 => BadSetup
idle=6;stall=5;takeover=true;allow=["11.0.0.0"];address="10.0.0.1" => listen 1 4800 10.0.0.1 000100 true 5 6 Safe;
[[subscriber]];id=2;ring=4;stall=9;[[subscriber]];id=3;ring=4;port=5;idle=7 => listen 1 4800 0.0.0.0 111111 false 30 0 Safe; listen 3 5 0.0.0.0 111111 false 30 7 Safe;
[[subscriber]];id=2;ring=4;stall=3601 => BadSetup
[[subscriber]];id=9;ring=4;port=7;takeover=true;[[subscriber]];id=3;ring=4;port=5;allow=[] => listen 1 4800 0.0.0.0 111111 false 30 0 Safe; listen 9 7 0.0.0.0 111111 true 30 0 Safe; listen 3 5 0.0.0.0 000000 false 30 0 Safe;
change="safe" => listen 1 4800 0.0.0.0 111111 false 30 0 Safe;
change="hangup" => listen 1 4800 0.0.0.0 111111 false 30 0 HangUp;
change="keep" => listen 1 4800 0.0.0.0 111111 false 30 0 Keep;
change="Safe" => BadSetup
change="hang_up" => BadSetup
change="keep " => BadSetup
change="" => BadSetup
change=true => BadSetup
change=0 => BadSetup
change=["safe"] => BadSetup
changes="safe" => BadSetup
change="hangup";[[subscriber]];id=2;ring=4;change="safe";[[subscriber]];id=3;ring=4;port=5;change="keep" => listen 1 4800 0.0.0.0 111111 false 30 0 HangUp; listen 3 5 0.0.0.0 111111 false 30 0 Keep;
[[subscriber]];id=2;ring=4;change="none" => BadSetup"#;

/// Keys of the file itself, with the log, the control socket and the page.
const GENERAL: &str = r#" => Info None None
log="error" => Error None None
log="warn" => Warn None None
log="info" => Info None None
log="debug" => Debug None None
log="loud" => BadSetup
log="Info" => BadSetup
log=" info" => BadSetup
log="information" => BadSetup
log="" => BadSetup
log=0 => BadSetup
log=true => BadSetup
log=["info"] => BadSetup
control="/run/pdcgw.sock" => Info Some("/run/pdcgw.sock") None
control="c" => Info Some("c") None
control="a b" => Info Some("a b") None
control="" => BadSetup
control="a\u0000b" => BadSetup
control="\u0000" => BadSetup
control=1 => BadSetup
control=["c"] => BadSetup
status="127.0.0.1:9100" => Info None Some(127.0.0.1:9100)
status="0.0.0.0:1" => Info None Some(0.0.0.0:1)
status="255.255.255.255:65535" => Info None Some(255.255.255.255:65535)
status="127.0.0.1:0" => BadSetup
status="127.0.0.1:65536" => BadSetup
status="127.0.0.1:" => BadSetup
status="127.0.0.1" => BadSetup
status="127.0.0.256:9100" => BadSetup
status="localhost:80" => BadSetup
status=":9100" => BadSetup
status="[::1]:9100" => BadSetup
status="" => BadSetup
status=9100 => BadSetup
Log="info" => BadSetup
log_level="info" => BadSetup
socket="c" => BadSetup
page="127.0.0.1:9100" => BadSetup
status="127.0.0.1:9100";control="c";log="warn" => Warn Some("c") Some(127.0.0.1:9100)
log="warn";control="" => BadSetup
log="warn";log="warn" => BadSetup
control="aaaaaaaaaaaaaaaaaaaaaaaaaaaaaaaaaaaaaaaaaaaaaaaaaaaaaaaaaaaaaaaaaaaaaaaaaaaaaaaaaaaaaaaaaaaaaaaaaaaaaaaaaa" => Info Some("aaaaaaaaaaaaaaaaaaaaaaaaaaaaaaaaaaaaaaaaaaaaaaaaaaaaaaaaaaaaaaaaaaaaaaaaaaaaaaaaaaaaaaaaaaaaaaaaaaaaaaaaaa") None
control="aaaaaaaaaaaaaaaaaaaaaaaaaaaaaaaaaaaaaaaaaaaaaaaaaaaaaaaaaaaaaaaaaaaaaaaaaaaaaaaaaaaaaaaaaaaaaaaaaaaaaaaaaaa" => Info Some("aaaaaaaaaaaaaaaaaaaaaaaaaaaaaaaaaaaaaaaaaaaaaaaaaaaaaaaaaaaaaaaaaaaaaaaaaaaaaaaaaaaaaaaaaaaaaaaaaaaaaaaaaaa") None
control="aaaaaaaaaaaaaaaaaaaaaaaaaaaaaaaaaaaaaaaaaaaaaaaaaaaaaaaaaaaaaaaaaaaaaaaaaaaaaaaaaaaaaaaaaaaaaaaaaaaaaaaaaaaa" => BadSetup
control="éééééééééééééééééééééééééééééééééééééééééééééééééééééa" => Info Some("éééééééééééééééééééééééééééééééééééééééééééééééééééééa") None
control="éééééééééééééééééééééééééééééééééééééééééééééééééééééé" => BadSetup"#;

/// Keys of the file itself, with the folder for recordings, and how much of them is kept, for how long.
const RECORDING: &str = r#" => None 4000 168
record="/var/lib/pdcgw" => Some("/var/lib/pdcgw") 4000 168
record="r";record_mb=16;record_hours=1 => Some("r") 16 1
record="r";record_mb=10000000;record_hours=100000 => Some("r") 10000000 100000
record_mb=100 => None 100 168
record="" => BadSetup
record="a\u0000b" => BadSetup
record=true => BadSetup
record_mb=15 => BadSetup
record_mb=10000001 => BadSetup
record_mb="100" => BadSetup
record_hours=0 => BadSetup
record_hours=100001 => BadSetup
records="r" => BadSetup"#;

/// What is said of a setup.
#[derive(Clone, Copy)]
enum Part {
    Edits,
    Sources,
    Ports,
    General,
    Recording,
}

/// The edits, the addresses of sources, the ports and the numbers.
fn edits_of(rt: &impl Abort, alloc: Global, setup: &Setup) -> String {
    let edits = setup.edits(alloc).expect(rt, "memory");
    let mut text = edits_told(rt, alloc, edits.as_slice());
    for source in setup.sources.as_slice() {
        for address in source.connect.as_slice() {
            write!(text, "link {} {address}; ", source.rules.source.get()).expect(rt, "memory");
        }
    }
    for subscriber in setup.subscribers.as_slice() {
        if let Some(port) = &subscriber.port {
            write!(text, "port {} {}; ", subscriber.sub.get(), port.port).expect(rt, "memory");
        }
    }
    write!(text, "{} {} {}", setup.tick_ms, setup.ingest, setup.serve).expect(rt, "memory");
    text
}

/// The sources, with how each is watched.
fn sources_of(rt: &impl Abort, alloc: Global, setup: &Setup) -> String {
    let mut text = String::new(alloc);
    for source in setup.sources.as_slice() {
        let watch = watch_told(rt, alloc, &source.rules);
        write!(text, "{} {watch}; ", source.rules.source.get()).expect(rt, "memory");
    }
    text
}

/// The ports with their rules.
fn ports_of(rt: &impl Abort, alloc: Global, setup: &Setup) -> String {
    let mut text = String::new(alloc);
    for subscriber in setup.subscribers.as_slice() {
        if let Some(port) = &subscriber.port {
            same(rt, port.rules.sub, subscriber.sub);
            let port = port_told(rt, alloc, port.port, &port.rules);
            text.push_str(port.as_str()).expect(rt, "memory");
        }
    }
    text
}

/// What a file is read as, or the refusal.
fn read_as(rt: &impl Abort, alloc: Global, file: &str, part: Part) -> String {
    let setup = match read_setup(alloc, file) {
        Ok(setup) => setup,
        Err(refusal) => return format!(in alloc; "{refusal}").expect(rt, "memory"),
    };
    match part {
        Part::Edits => edits_of(rt, alloc, &setup),
        Part::Sources => sources_of(rt, alloc, &setup),
        Part::Ports => ports_of(rt, alloc, &setup),
        Part::General => {
            format!(in alloc; "{:?} {:?} {:?}", setup.log, setup.control, setup.status).expect(
                rt, "memory",
            )
        }
        Part::Recording => {
            let (folder, mb, hours) = (&setup.record_folder, setup.record_mb, setup.record_hours);
            format!(in alloc; "{folder:?} {mb} {hours}").expect(rt, "memory")
        }
    }
}

#[test]
fn setup_files(rt: HostRuntime) {
    let alloc = rt.alloc();
    let (source, end) = ("[[pmu]]\nid=7\n", "[[subscriber]]\nid=1\nring=4\n");
    let both = "[[pmu]]\nid=7\n[[subscriber]]\nid=1\nring=4\n";
    let port = "[[pmu]]\nid=7\n[[subscriber]]\nid=1\nring=4\nport=4800\n";
    for (part, before, rows, behind) in [
        (Part::Edits, "", FILES, ""),
        (Part::Edits, source, ADDRESSES, end),
        (Part::Sources, source, SOURCES, end),
        (Part::Ports, port, PORTS, ""),
        (Part::General, "", GENERAL, both),
        (Part::Recording, "", RECORDING, both),
    ] {
        for row in rows.split('\n') {
            let (keys, _) = row.split_once(" => ").expect(&rt, "a row");
            let mut file = String::from_str(alloc, before).expect(&rt, "memory");
            for key in keys.split(';') {
                writeln!(file, "{key}").expect(&rt, "memory");
            }
            file.push_str(behind).expect(&rt, "memory");
            let read = read_as(&rt, alloc, file.as_str(), part);
            let told = format!(in alloc; "{keys} => {}", read.as_str().trim_end()).expect(
                &rt, "memory",
            );
            same(&rt, told.as_str(), row);
        }
    }
}

/// Lines of the help on keys: those of a key of the file, of the heading of a table, and of one of its keys.
const HELP: &str =
    r#"  tick_ms                  milliseconds from tick to tick; `wait` counts ticks (1 to 1000; default 10; example 20)
  [[subscriber]]           a subscriber
    grants                 PMUs that it may have, at most 32; a number N is the PMU N/N (a list of PMUs, each a number
                           from 1 to 65534 or a text "SOURCE/PMU" of two; default none; example [7, "300/11"])"#;

#[test]
fn help_on_the_keys(rt: HostRuntime) {
    let help = help_on_keys(rt.alloc()).expect(&rt, "memory");
    for line in HELP.split('\n') {
        same(&rt, help.as_str().split('\n').any(|it| it == line), true);
    }
    same(
        &rt,
        help.as_str().split('\n').any(|it| it.len() > 120),
        false,
    );
}
