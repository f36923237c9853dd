//! A gateway that threads share: first a setup's edits are posted, then workers serve, and at the end their seats are joined.

ghost use Rattle.std.specs.Prelude.{◌≡◌, List, length, map, Option, Some, [], IfOk, IfErr, IfSome, vec_len};
ghost use Rattle.pg_ingest.specs.Runs.{event_posted};
ghost use Rattle.pg_shared.specs.Gates.{said_at};
ghost use Rattle.pg_shared.specs.Edits.{edited};
ghost use Rattle.pg_service.specs.Setting.{PostsEdits};
ghost use Rattle.pg_console.specs.Joining.{Place, Joins};

use pg_gateway::{Edit, Gateway};
use pg_recorder::{CallRecords, RecordedAtOnce, Recorder, WorkerGate};
use pg_service::{Directory, post_edits};
use pg_shared::{Named, Seat, Shared, Work, run_workers};
use pg_wire::Refusal;
use std::alloc::Global;
use std::marker::Brand;
use std::rt::Clock;
use std::sync::Wait;
use std::sync::atomic::AtomicBool;
use std::thread::Threads;

/// A gateway that is set up, before it has a worker.
#[derive(Drop)]
pub struct SetUp {
    /// The gateway, which workers will share.
    pub shared: Shared,
    /// The one seat at it.
    pub seat: Seat,
    /// The PMUs and subscribers that it has, and the edits by which it has them.
    pub directory: Directory,
}

/// A new gateway with these edits posted, and the one seat at it. So they are posted before a worker can be there. What stands at
/// the seat's own places in the gateway's history is just the edits: all of them, each once, in their order. They are recorded by
/// this recorder, if there is one.
///
/// # Errors
///
/// Why the first edit was refused that is; `NoMemory`.
pub fn set_up<R: Wait + Clock>(
    rt: &R,
    alloc: Global,
    edits: Vec<Edit>,
    recorder: Option<&Recorder>,
) -> Result<SetUp, Refusal>
    ensures seat { IfOk result (λ made. made.seat.table ≡ made.shared) }
    ensures posted { IfOk result (λ made. map event_posted (said_at made.seat.seen made.seat.own) ≡ map edited edits.items) }
{
    let (shared, seat) = Shared::new(alloc, Gateway::new(alloc)?)?;
    let mut directory = Directory::new(alloc)?;
    directory.in_force.note_all(alloc, &edits)?;
    let seat = post_all::<R, Brand>(rt, &shared, seat, edits, &mut directory, recorder)?;
    Ok(SetUp {
        shared,
        seat,
        directory,
    })
}

/// Posts edits at this seat, and keeps what is registered by them.
fn post_all<'a, R: Wait + Clock, N: Named>(
    rt: &'a R,
    shared: &'a Shared,
    seat: Seat,
    edits: Vec<Edit>,
    directory: &mut Directory,
    recorder: Option<&'a Recorder>,
) -> Result<Seat, Refusal>
    requires shared { shared.now ≡ N.table }
    requires seat { seat.table ≡ N.table }
    ensures table { IfOk result (λ after. after.table ≡ N.table) }
    ensures posted { IfOk result (λ after. PostsEdits edits.items [] (Some (said_at seat.seen seat.own)) (Some (said_at after.seen after.own))) }
{
    let records = RecordedAtOnce::of(rt, recorder);
    let mut gate = WorkerGate::<R, N, RecordedAtOnce>::new(rt, shared, seat, records);
    post_edits(&mut gate, edits, directory)?;
    Ok(gate.into_seat())
}

/// What may hold a seat of the shared gateway that N names, and gives it back at the end.
pub trait HoldsSeat<N: Named> {
    // Whether this, a seat or none, is what it may give back.
    ghost gives: { Self → Option Place → Type 0 };

    /// Gives its seat back, if it has one.
    fn into_seat(self) -> Option<Seat>
        ensures gives { gives self result }
        ensures table { IfSome result (λ seat. seat.table ≡ N.table) };
}

/// Serves by these workers, each in a thread of its own, until all have ended, and joins the seats that they give back to
/// this one. The seat that comes of it has seen all that this seat and theirs had seen. Its own places in the gateway's history are
/// those of this seat, such as its setup's edits, and then those of each worker in turn: none is left out.
///
/// As many workers are asked for their seats as were given.
///
/// # Errors
///
/// `NoMemory`, where a thread can't be started or there is none for the lists. Then all workers are dropped with their seats.
pub fn serve_by<R: Threads + Wait + Sync, N: Named, W: Work + HoldsSeat<N> + Send + Drop>(
    rt: &R,
    alloc: Global,
    shared: &Shared,
    seat: Seat,
    workers: Vec<W>,
    stop: &AtomicBool,
) -> Result<Seat, Refusal>
    requires shared { shared.now ≡ N.table }
    requires seat { seat.table ≡ N.table }
    ensures joins { IfOk result (λ joined. (back : List W) × (length back ≡ vec_len workers) × Joins W.gives seat back joined) }
    ensures memory { IfErr result (λ refusal. refusal ≡ Refusal.NoMemory) }
{
    let back = run_workers(rt, alloc, workers, u64::MAX, stop)?;
    Ok(join_all::<N, W>(shared, seat, back))
}

/// Joins the seats of these workers to this one, in their order.
fn join_all<N: Named, W: HoldsSeat<N> + Drop>(shared: &Shared, seat: Seat, workers: Vec<W>) -> Seat
    requires shared { shared.now ≡ N.table }
    requires seat { seat.table ≡ N.table }
    ensures joins { Joins W.gives seat workers.items result }
{
    let mut joined = seat;
    'workers: for worker in workers {
        if let Some(own) = worker.into_seat() {
            joined = shared.join(joined, own);
        }
    }
    joined
}
