//! What `--help` prints of the tools beside their usage.

/// Of `simulate`.
pub(crate) const SIMULATE: &str = "\
Listens, and plays a source to so many clients at once as --clients says; one more is disconnected. Each client starts and stops
data for itself. It obeys the commands 1 to 5 of C37.118.2 and sends data frames at the timestamps of this machine's clock, also
where that is set back. The signals are those of a plausible grid, with the same numbers each time for the same second. It prints
what happens, and goes on until it is ended.

Faults, of which a source may have several:
  silence=SECONDS          after every ten seconds with data frames none for SECONDS: 1 to 3600
  drop=PERCENT             so many of a hundred data frames are left out
  late=MS                  each data frame is sent MS milliseconds late: 0 to 60000
  backlog=SECONDS          data frames are held back for SECONDS, then sent all at once, again and again: 1 to 60
  wrong-check=PERCENT      so many of a hundred data frames have a wrong CHK
  clock=MS                 its clock is MS milliseconds ahead: -3600000 to 3600000
  unlock=SECONDS           its clock loses its source of time SECONDS after the start: 0 to 3600. From then on STAT bit 13 is set,
                           and time quality, STAT bits 8 to 6 and 5 to 4 grow as of a clock that is wrong by 1 us more each second
  quality=HEX              the time quality of its data frames, the top byte of FRACSEC: 0 to FF
  stat=HEX                 STAT of all its blocks: 0 to FFFF
  no-config                the commands 4 and 5 are not answered
  unasked                  CFG-2 is sent unasked too: to each client that connects, and when the configuration changes
  reconfigure=SECONDS      the configuration changes each SECONDS: 2 to 3600. The units of phasors and analog values are doubled,
                           next time halved again, and the values fit. STAT bit 10 is set for a minute before, or for half of
                           SECONDS if that is less
Bits of STAT and of time quality that several faults set are all set.

Exit status: 1 if the address can't be bound, 2 for unknown words.";

/// Of `watch`.
pub(crate) const WATCH: &str = "\
Connects to ADDRESS, A.B.C.D:PORT or NAME:PORT: each address of a name is tried. Asks for CFG-2 and the header, starts the
stream, and shows what comes until it is ended: on a terminal a screen that is renewed ten times a second, else a line a second.
With --csv the counts are printed on standard error at the end. It stops the stream before it ends; Ctrl-C closes the
connection.

What is not answered for three seconds is asked again. If no PMU of the stream is granted and announced yet, it says so, and asks
for the configuration again each second.

It checks each frame: CHK, the length by the configuration, the IDCODE, and that timestamps rise. Where they go back by more than
a second the source's clock was set: one frame is wrong, and those behind it are not. What is wrong is counted, and printed on
standard error: 50 wrong frames a second have a line each, the others one with their number. Timestamps without a frame are
counted as missing; fillers are blocks of a gateway in place of missing data.

Exit status: 0 if nothing was wrong; 1 if something was, or no data frame came, or the name has no address, the address can't be
reached, or output can't be written; 2 for unknown words.";

/// Of `bridge`.
pub(crate) const BRIDGE: &str = "\
Connects to ADDRESS as `watch` does, starts the stream, and prints it as lines, each of which stands by itself. They are meant for
a pipe to the client of a message broker or a database:

    pdcgw bridge 127.0.0.1:4800 --stream 101 | mosquitto_pub -l -q 2 -c -i pdcgw-101 -t pmu/101

Formats: json, an object; influx, InfluxDB line protocol; csv, always the same 18 columns without a heading: type, time, gateway,
stream, idcode, station, stat, good, filled, time_quality, leap_second, frequency, rocof, from, to, slots, why, detail (JSON).

Types of line:
  data                     one PMU of a data frame: STAT, time quality, FREQ in Hz, DFREQ in Hz/s, and each channel by its name:
                           magnitudes in V or A, angles in degrees, analog values, digital words. What is absent is null, or left out
  config                   one PMU of the configuration: channels, units, DATA_RATE, nominal frequency, CFGCNT, the IDCODEs of all
                           PMUs; at the start, at each change and after each --repeat
  gap                      slots before a frame that have no data lines: the times of the frames around them, how many, and why:
                           `missing`, no frame of them came; `reconnect`, `change`, the connection was made again or the
                           configuration changed meanwhile; `output`, their lines were dropped
  state                    after each --heartbeat: what was counted since the start, and how many milliseconds behind its time the
                           last frame came
The slots of data lines and gaps together are all slots of the stream, from the first line to the last.

With --key the key of a gap or a state is STREAM/STREAM.

It goes on: a connection that ends, can't be had, or gives no frame for --silence is made again after 1, 2, 4, .. 30 seconds.
Standard error has a line for each. The socket is always read. While standard output takes nothing, --keep lines wait; then the
oldest are dropped, and the next line that is printed is their gap.

Exit status: 1 if standard output has ended, 2 for unknown words. A signal ends it at once.";
