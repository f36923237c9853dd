//! What `--help` prints beside the usage.

use pg_operator::help_on_keys;
use std::alloc::{AllocError, Global};

/// Of the program.
pub const PROGRAM: &str = "\
Exit status:
  0  done
  1  an error: standard error has what is wrong (of a setup a line for each mistake), then `pdcgw: N NAME`:
     37 BadSetup, a setup file with mistakes, or the reason for which an edit of a setup is refused; 39 ReadFault, standard
     input or a setup file can't be read, a port, the page or the control socket can't be bound, or `ctl` has no gateway or no
     answer; 34 Busy, 8 clients are at the control socket; 40 WriteFault, standard output can't be written; 1 NoMemory. Of
     `simulate`, `watch`, `bridge` and `demo` there is one line, `pdcgw:` and what is wrong
  2  unknown words on the command line

`pdcgw replay --help` has the commands and their answers, `pdcgw run --help` the keys of a setup file.";

/// Of `replay`.
pub const REPLAY: &str = "\
Reads a script from standard input and answers each line on standard output, in order. Words are separated by spaces; empty
lines, and lines whose first word begins with #, are skipped.

Commands of an operator:
  addpmu P                 registers the PMU P; at most 256
  droppmu P                drops it, and revokes it from each subscriber
  addsub U RING [BYTES]    adds the subscriber U; at most 64. Its queue has at most RING data frames and BYTES bytes of them
                           (default 16777216). When it is full, the oldest frame is dropped
  dropsub U                drops the subscriber
  grant U P, revoke U P    lets U have the PMU P in its streams; takes it away. At most 32 PMUs each
  define U STREAM RATE BASE WAIT WINDOW HEADER MEMBER..
                           defines a stream of U with 1 to 32 members; at most 8 streams each. It is off until command 2.
                           A frame is sent when all members have come that U may have, WAIT ticks after the first of them,
                           or when more than WINDOW frames are open
  remove U STREAM          removes the stream
  stats U, pmustats P      prints the counters of U, or of P
  audit U I                prints an entry of the audit of U: 0 is the newest, at most 63

Events:
  linkup S                 the source S is connected
  pmu S HEX                the source S sends bytes: frames of C37.118.2, cut anywhere
  connect U, hangup U      U connects, disconnects
  sub U HEX                U sends bytes: command frames of C37.118.2 (1 stops and 2 starts a stream, 3 asks for its header,
                           4 for its CFG-1, 5 for its CFG-2), cut anywhere
  drain U N                sends at most N bytes of the queue of U
  tick SOC                 the clock ticks

Queries, which change nothing:
  queue U                  prints the queue of U
  linkstats S, sessionstats U
                           prints the counters of the bytes of S, or of U

Words:
  S                        a source: 1 to 65534
  P, MEMBER                a PMU: S/N, the PMU N of the source S; N alone is N/N. N is 1 to 65534
  U                        a subscriber: 1 to 65535
  RING, BYTES              1 to 1024 frames; 16 to 16777216 bytes
  STREAM                   the IDCODE of the stream's frames: 1 to 65534
  RATE                     frames per second: 1 to 120
  BASE                     TIME_BASE, parts of a second: RATE to 16777215
  WAIT, WINDOW             0 to 60000 ticks; 1 to 64 frames
  HEADER                   the ASCII text of the stream's HDR frame in hexadecimal, at most 1024 bytes; `none` is the empty text
  N                        0 to 65535 bytes
  SOC                      seconds since 1970-01-01 00:00 UTC: 0 to 4294967295
  HEX                      bytes in hexadecimal, of either case; + at the end adds the CHK of these bytes

Answers:
  done MADE KEPT           done; MADE data frames were made for all subscribers, and KEPT of them found memory
  refused N NAME           refused, for the reason N; 36 BadLine is an unknown command
  ignored N NAME           a frame was ignored
  closed N NAME            no frame begins at these bytes: those of a source are dropped until `linkup`, a subscriber is
                           disconnected
  send HEX                 the gateway sends this command frame to the source
  drained LEN BEGUN GAP HEX
                           LEN bytes were sent; they begin BEGUN frames, before which GAP data frames were lost
  stats, pmustats, linkstats, sessionstats
                           counters, then N:COUNT for each reason N that was counted
  audit TURN WHAT RESULT   TURN counts from 1. WHAT is 1 addsub, 2 grant, 3 revoke, 4 define, 5 remove, 6 connect, 7 hangup,
                           8 a command frame. RESULT is 0 for done, else the reason; `audit none` if there is no entry
  rest HEX, reply HEX, frame GAP HEX, pending N
                           of `queue`: what is left of the frame being sent, replies to command frames, each data frame with
                           the number of those lost just before it, and the number of those lost after the last";

/// Of `run`.
pub fn of_run(alloc: Global) -> Result<String, AllocError> {
    let keys = help_on_keys(alloc)?;
    format!(in alloc; "{}{}{}", BEFORE_KEYS, keys.as_str(), AFTER_KEYS)
}

/// Of `run`, up to the keys of a setup file.
const BEFORE_KEYS: &str = "\
Does the edits of the setup, opens the ports of the subscribers, then connects to the sources and serves the subscribers, in
C37.118.2 over TCP. Commands are read from standard input and answered on standard output: those of `pdcgw replay --help`,
and those below. `quit` ends the program with status 0; the end of standard input does not. Standard error is the log, a line
for each event: TIME LEVEL WHAT.

More commands:
  status                   prints a line for each source, subscriber and stream, with its state and counters
  version                  prints the version of the program that runs, as `pdcgw --version`
  show U                   prints what U has now, also by commands, as tables of a setup file; their comments say whether it is
                           connected, which streams are on, and why a member is not in the frames
  advise                   prints for each stream the `wait` and `window` that the delays of the last minute ask for, so that 99.9%
                           of the blocks come in time: advise U/STREAM wait TICKS in force TICKS late BLOCKS of BLOCKS window
                           FRAMES in force FRAMES tick MS ms
  reload                   reads the setup file again and does what changed; subscribers that no change names keep their
                           connections and frames. Prints what was refused, then `reloaded: ..`. If the file has mistakes,
                           nothing changes and the answer lists them
  dial S A.B.C.D:PORT      connects to source S at this address from now on; one of its PMUs has to be registered
  undial S                 disconnects from it for good
  addpmu P                 if the source of P is connected, connects to it again, so that it announces P; until then its other
                           PMUs have no frames
  listen U PORT [A.B.C.D]  opens a port for subscriber U, on this address or on all, and closes its last one
  unlisten U               closes its port and its connection
  disconnect U             closes its connection

A setup file is TOML:
";

/// Of `run`, after the keys.
const AFTER_KEYS: &str = "
A subscriber sends command frames for its streams: 1 stop, 2 start, 3 send header, 4 send CFG-1, 5 send CFG-2.";

/// Of `check`.
pub const CHECK: &str = "\
Reads a setup file and tries its edits on a gateway of its own; it opens no port and connects to nothing. Prints a line for each
source, subscriber and stream that would run.

Standard error has FILE:LINE: KEY: what is wrong; what would be right, for each mistake; FILE:LINE: WHOM: refused NAME: why, for
each edit that is refused; and FILE:LINE: warning: .. for what is allowed and seldom meant, such as a window too small for its
wait. Of more than 100 the rest is counted.

`pdcgw run --help` has the keys of a setup file. Exit status: 0 if the setup can run, also with warnings; else 1.";

/// Of `ctl`.
pub const CTL: &str = "\
Sends each LINE, a command, to the gateway that has this control socket, in order, and prints the answers. `pdcgw run --help`
lists the commands.

    pdcgw ctl --control /run/pdcgw/control status
    pdcgw ctl --control /run/pdcgw/control 'addpmu 9' 'grant 1 9'

Each is sent once the one before it was answered. The answer to `quit` is the end of the connection.

Exit status: 0 if each was answered and none refused; 1 if one was refused, the connection ended before an answer, none came
within 60 seconds, or the gateway can't be reached: standard error says which; 2 for unknown words.";
