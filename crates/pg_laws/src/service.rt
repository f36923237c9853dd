//! A client of the loops of the running service, by public clauses alone: what a subscriber's socket is given is what a private
//! gateway of its view hands out, and what a source's socket gives is posted, whatever other sources, subscribers and threads do.

ghost use Rattle.std.specs.Prelude.{◌≡◌, ℕ, List, [], Option, Some, IfOk, IfErr};
ghost use Rattle.pg_session.specs.Commands.{Hearing, Item, ShowsHearing};
ghost use Rattle.pg_shared.specs.Both.{DeliverAlike, IsServed};
ghost use Rattle.pg_shared.specs.Delivery.{Delivers, Hears, HasHeard};
ghost use Rattle.pg_shared.specs.Gates.{said_at};
ghost use Rattle.pg_shared.specs.Onward.{GoesOn};
ghost use Rattle.pg_shared.specs.Serving.{Served as ServedSo};
ghost use Rattle.pg_shared.specs.Telling.{Tells, HasTold};
ghost use Rattle.pg_laws.specs.Fed.{IsFed};
ghost use Rattle.pg_laws.specs.Since.{Connects, SinceConnect, ViewsDecide};
ghost use Rattle.pg_laws.specs.Threads.{TwoThreads};

use pg_gateway::{Event, Gate};
use pg_ingest::{End, Link, run_link};
use pg_session::Session;
use pg_shared::{
    Named, Seat, Shared, SharedGate, deliveries_agree, deliveries_go_on, links_tell_on,
    serve_session,
};
use pg_wire::{PmuId, Refusal, SubId};
use std::alloc::Global;
use std::io::{Read, Write};
use std::sync::Wait;
use std::thread::{Threads, join};

/// One call of a session's loop over a gate that holds a seat of a shared gateway. What is promised holds if it returns.
pub fn serve_at<R: Read, W: Write, T: Wait, N: Named>(
    session: &mut Session,
    reader: &mut R,
    writer: &mut W,
    gate: &mut SharedGate<'_, T, N>,
    turns: u64,
) -> End
    requires fed { IsFed session.old }
    ensures fed { IsFed session.new }
    ensures sub { session.new.sub ≡ session.old.sub }
    // All that the loop promises, over what stands at the seat's own places.
    ensures served { ServedSo result session.old session.new (R.remaining reader.old) (R.remaining reader.new)
        (W.contents writer.old) (W.contents writer.new) (Some (said_at gate.old.seen gate.old.own)) (Some (said_at gate.new.seen gate.new.own)) }
    // The commands of the bytes that were read are posted, each once and in order.
    ensures hears { (stream : List ℕ) (given : List Item) → ShowsHearing session.old stream given
        → Hears stream given session.old session.new gate.old gate.new (R.remaining reader.old) (R.remaining reader.new) }
    ensures delivers { Delivers session.old.sub gate.old gate.new session.old.left session.new.left
        (W.contents writer.old) (W.contents writer.new) }
    ensures onward { GoesOn gate.old gate.new }
{
    deliveries_go_on();
    serve_session(session, reader, writer, gate, turns)
}

/// Posts that a subscriber connects. Nothing is delivered to it by that, and no command is heard.
fn connect<T: Wait, N: Named>(sub: SubId, gate: &mut SharedGate<'_, T, N>)
    ensures delivers { (w : Option (List ℕ)) → Delivers sub gate.old gate.new [] [] w w }
    ensures heard { (v : Hearing) (r : Option (List ℕ)) → v.sub ≡ sub → ShowsHearing v [] [] → HasHeard sub v gate.old gate.new r r }
    ensures connects { Connects sub gate.old gate.new }
    ensures onward { GoesOn gate.old gate.new }
{
    deliveries_go_on();
    gate.post(Event::Connect(sub));
}

/// Serves a new session of a subscriber by so many calls, or until one ends with the connection. All that is written since,
/// followed by what is left to write, is what the private gateway of the subscriber's view hands out from there on; and the
/// commands of all that is read since are posted, each once and in order. The one refusal is `NoMemory`, and then nothing is
/// posted.
pub fn serve_calls<R: Read, W: Write, T: Wait, N: Named>(
    alloc: Global,
    sub: SubId,
    reader: &mut R,
    writer: &mut W,
    gate: &mut SharedGate<'_, T, N>,
    calls: u64,
    turns: u64,
) -> Result<Session, Refusal>
    ensures delivers { IfOk result (λ session. Delivers sub gate.old gate.new [] session.left
        (W.contents writer.old) (W.contents writer.new)) }
    ensures heard { IfOk result (λ session. HasHeard sub session gate.old gate.new
        (R.remaining reader.old) (R.remaining reader.new)) }
    // What the seat had seen begins one legal history; and from the Connect in it on this is what was given and what was heard.
    ensures since { IfOk result (λ session. SinceConnect sub session gate.old gate.new
        (R.remaining reader.old) (R.remaining reader.new) (W.contents writer.old) (W.contents writer.new)) }
    ensures memory { IfErr result (λ refusal. refusal ≡ Refusal.NoMemory) }
    ensures onward { GoesOn gate.old gate.new }
{
    let mut session = Session::new(alloc, sub)?;
    deliveries_go_on();
    connect(sub, gate);
    'calls: for _ in 0..calls {
        match serve_at(&mut session, reader, writer, gate, turns) {
            End::Closed | End::Fault(_) => return Ok(session),
            End::Quiet | End::Stalled => {}
        }
    }
    Ok(session)
}

/// One call of a link's loop over a gate that holds a seat of a shared gateway. What is promised holds if it returns.
pub fn link_at<R: Read, W: Write, T: Wait, N: Named>(
    link: &mut Link,
    reader: &mut R,
    writer: &mut W,
    gate: &mut SharedGate<'_, T, N>,
    turns: u64,
) -> End
    ensures tells { Tells link.old link.new gate.old gate.new (R.remaining reader.old) (R.remaining reader.new) }
    ensures onward { GoesOn gate.old gate.new }
{
    links_tell_on();
    run_link(link, reader, writer, gate, turns)
}

/// Serves a new link of a source by so many calls, or until one ends with the connection. The seat's own places in the history
/// are the events of all that is read in them, each once and in order. The one refusal is `NoMemory`, and then nothing is posted.
pub fn link_calls<R: Read, W: Write, T: Wait, N: Named>(
    alloc: Global,
    source: PmuId,
    reader: &mut R,
    writer: &mut W,
    gate: &mut SharedGate<'_, T, N>,
    calls: u64,
    turns: u64,
) -> Result<Link, Refusal>
    ensures told { IfOk result (λ link. HasTold source link gate.old gate.new
        (R.remaining reader.old) (R.remaining reader.new)) }
    ensures memory { IfErr result (λ refusal. refusal ≡ Refusal.NoMemory) }
    ensures onward { GoesOn gate.old gate.new }
{
    let mut link = Link::new(alloc, source)?;
    links_tell_on();
    'calls: for _ in 0..calls {
        match link_at(&mut link, reader, writer, gate, turns) {
            End::Closed | End::Fault(_) => return Ok(link),
            End::Quiet | End::Stalled => {}
        }
    }
    Ok(link)
}

/// A subscriber's connection.
#[derive(Drop)]
pub struct Connection<R, W> {
    /// Where its bytes come from.
    pub reader: R,
    /// Where its bytes go.
    pub writer: W,
}

/// Serves a new session of a subscriber at each of two services, as `serve_calls` does. Where the subscriber sees the same in
/// both, both connections are given the same bytes, those that are left to write among them, whatever else the two services do.
/// `calls` are those of the one service and of the other. The one refusal is `NoMemory`.
pub fn compare_services<R: Read, W: Write, T: Wait, N: Named, M: Named>(
    alloc: Global,
    sub: SubId,
    one: &mut Connection<R, W>,
    gate: &mut SharedGate<'_, T, N>,
    other: &mut Connection<R, W>,
    other_gate: &mut SharedGate<'_, T, M>,
    calls: (u64, u64),
    turns: u64,
) -> Result<(Session, Session), Refusal>
    ensures alike { IfOk result (λ both. DeliverAlike sub gate.old gate.new other_gate.old other_gate.new both.0.left both.1.left
        (W.contents one.old.writer) (W.contents one.new.writer) (W.contents other.old.writer) (W.contents other.new.writer)) }
    // So it is where its views of the two histories are equal, and the Connects are the last that it sees in them.
    ensures views { IfOk result (λ both. ViewsDecide sub both.0 both.1 gate.old gate.new other_gate.old other_gate.new
        (R.remaining one.old.reader) (R.remaining one.new.reader) (W.contents one.old.writer) (W.contents one.new.writer)
        (R.remaining other.old.reader) (R.remaining other.new.reader) (W.contents other.old.writer) (W.contents other.new.writer)) }
    ensures memory { IfErr result (λ refusal. refusal ≡ Refusal.NoMemory) }
{
    deliveries_agree();
    let session = serve_calls(
        alloc,
        sub,
        &mut one.reader,
        &mut one.writer,
        gate,
        calls.0,
        turns,
    )?;
    let other_session = serve_calls(
        alloc,
        sub,
        &mut other.reader,
        &mut other.writer,
        other_gate,
        calls.1,
        turns,
    )?;
    Ok((session, other_session))
}

/// What a thread gives back that served a session.
#[derive(Drop)]
pub struct Served<R, W> {
    /// The session, or why there is none: `NoMemory`.
    pub session: Result<Session, Refusal>,
    pub connection: Connection<R, W>,
}

/// Serves a new session at a seat of a shared gateway, as `serve_calls` does, and gives the seat back.
fn serve_seat<R: Read, W: Write, T: Wait, N: Named>(
    rt: &T,
    alloc: Global,
    shared: &Shared,
    seat: Seat,
    sub: SubId,
    connection: Connection<R, W>,
    calls: u64,
    turns: u64,
) -> (Seat, Served<R, W>)
    requires shared { shared.now ≡ N.table }
    requires seat { seat.table ≡ N.table }
    ensures table { result.0.table ≡ N.table }
    ensures delivers { IfOk result.1.session (λ session. Delivers sub seat result.0 [] session.left
        (W.contents connection.writer) (W.contents result.1.connection.writer)) }
    ensures heard { IfOk result.1.session (λ session. HasHeard sub session seat result.0
        (R.remaining connection.reader) (R.remaining result.1.connection.reader)) }
    ensures onward { GoesOn seat result.0 }
{
    let Connection {
        mut reader,
        mut writer,
    } = connection;
    let mut gate: SharedGate<'_, T, N> = SharedGate::new(rt, shared, seat);
    let session = serve_calls(
        alloc,
        sub,
        &mut reader,
        &mut writer,
        &mut gate,
        calls,
        turns,
    );
    let served = Served {
        session,
        connection: Connection { reader, writer },
    };
    (gate.into_seat(), served)
}

/// Two threads serve a session each at one shared gateway, at once, with the seats of one split; then their seats are joined.
/// There is one history, in which both were served as `serve_calls` says: what each connection was given is what the private
/// gateway of its subscriber's view of that history hands out. `calls` are those of the first and of the second. It waits until
/// both threads have ended. A thread gives no session where there was no memory for one.
pub fn serve_both<
    R: Read + Send + Drop,
    W: Write + Send + Drop,
    T: Threads + Wait + Sync,
    N: Named + Send,
>(
    rt: &T,
    alloc: Global,
    shared: &Shared,
    seat: Seat,
    first: SubId,
    one: Connection<R, W>,
    second: SubId,
    other: Connection<R, W>,
    calls: (u64, u64),
    turns: u64,
) -> (Seat, Served<R, W>, Served<R, W>)
    requires shared { shared.now ≡ N.table }
    requires seat { seat.table ≡ N.table }
    ensures seat { result.0.table ≡ N.table }
    ensures both { TwoThreads seat result.0
        (λ v v'. IfOk result.1.session (λ session. IsServed result.0.seen first session v v'
        (R.remaining one.reader) (R.remaining result.1.connection.reader)
        (W.contents one.writer) (W.contents result.1.connection.writer)))
        (λ v v'. IfOk result.2.session (λ session. IsServed result.0.seen second session v v'
        (R.remaining other.reader) (R.remaining result.2.connection.reader)
        (W.contents other.writer) (W.contents result.2.connection.writer))) }
{
    deliveries_agree();
    let (seat_one, seat_two) = shared.split(seat);
    let ((seat_one, served_one), (seat_two, served_two)) = join(
        rt,
        || -> (Seat, Served<R, W>)
            requires { (shared.now ≡ N.table) × (seat_one.table ≡ N.table) }
            ensures table { result.0.table ≡ N.table }
            ensures delivers { IfOk result.1.session (λ session. Delivers first seat_one result.0 [] session.left
                (W.contents one.writer) (W.contents result.1.connection.writer)) }
            ensures heard { IfOk result.1.session (λ session. HasHeard first session seat_one result.0
                (R.remaining one.reader) (R.remaining result.1.connection.reader)) }
            ensures onward { GoesOn seat_one result.0 }
        { serve_seat::<R, W, T, N>(rt, alloc, shared, seat_one, first, one, calls.0, turns) },
        || -> (Seat, Served<R, W>)
            requires { (shared.now ≡ N.table) × (seat_two.table ≡ N.table) }
            ensures table { result.0.table ≡ N.table }
            ensures delivers { IfOk result.1.session (λ session. Delivers second seat_two result.0 [] session.left
                (W.contents other.writer) (W.contents result.1.connection.writer)) }
            ensures heard { IfOk result.1.session (λ session. HasHeard second session seat_two result.0
                (R.remaining other.reader) (R.remaining result.1.connection.reader)) }
            ensures onward { GoesOn seat_two result.0 }
        { serve_seat::<R, W, T, N>(rt, alloc, shared, seat_two, second, other, calls.1, turns) },
    );
    (shared.join(seat_one, seat_two), served_one, served_two)
}
