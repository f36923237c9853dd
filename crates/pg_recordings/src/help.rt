//! What `--help` prints of the subcommands for recordings beside their usage.

/// Of `script`.
pub(crate) const SCRIPT: &str = "\
Prints a line for each call of the gateway that the service recorded, in their order, and comments with the time and the place of
what follows. A place without a record is printed as missing. Where the first files are not given, the first lines set the gateway
up as it was at the next one. The script of a second start of the service has to be replayed by itself.

  pdcgw script RECORDS/*.pdcrec | pdcgw replay

Exit status:
  0  the recording is whole
  1  it is not, as comments say, or a file can't be read";

/// Of `verify`.
pub(crate) const VERIFY: &str = "\
Replays a recording, and compares what each drain hands out with what the service handed to the subscriber. Where the first files
are not given, it begins as the service was set up at the next one. Behind that, and behind missing places, a subscriber is compared
from its next connection on, or a minute later from where its queue is empty; `not compared` has the drains before. Files of several
starts of the service are replayed one start after the other. The last line is

  records N missing N unspelled N drains N differing N answers differing N

records, places without a record, calls that no line of a script says, drains and those with other bytes, and other answers.

Exit status:
  0  nothing is missing, and nothing differs
  1  else, or the files can't be read";

/// Of `explain`.
pub(crate) const EXPLAIN: &str = "\
Replays a recording, and prints a line for each data frame of the subscriber whose time, that of its SOC and FRACSEC, lies from --from
on and before --to. Give the file before that time too: frames that were open or queued where the first file begins lack blocks.

  TIME stream N CAUSE left +MS ms handed +MS ms gap N: PMU +MS ms, PMU filler, late +MS ms, ..

MS counts from TIME. A frame leaves for the queue `complete`, with the blocks of all members that it has a place for; `waited`, when
`wait` was over; `pushed`, when more than `window` frames were open; or `changed`, before a change of the members. It is `handed` out
behind a gap of so many frames of the stream; or `dropped`, since the queue was full; `cleared`, when the connection ended; `waiting`
at the end of the recording. A member's block came after so many ms; or in its place is a filler, since the block came `late`, was
`refused` for a reason, its source's frame was `ignored` for a reason (the slot is found by the time), or `nothing` came; or it is
`absent`, not granted or not announced.

The last line has the number of frames by their cause, of fillers, and of frames that were not handed out; `unseen` are those that
were dropped when they left, `missing` places without a record, `unspelled` calls that no line of a script says.

  pdcgw explain RECORDS/*.pdcrec --subscriber 3 --stream 101 --from 2026-11-28T14:03:17Z --to 2026-11-28T14:03:18Z

Exit status:
  0  the recording is whole as far as it was read
  1  it is not, it has no stream of the subscriber, or a file can't be read or written
  2  unknown words";
