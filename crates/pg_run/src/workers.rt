//! The workers that `run` has besides those of each service.

ghost use Rattle.pg_run.specs.Kinds.{Gives};

use crate::operator::Operator;
use crate::reload_worker::ReloadWorker;
use pg_console::{DelayWatch, HoldsSeat, Runtime};
use pg_recorder::RecordWriter;
use pg_service::Logger;
use pg_shared::{Named, Seat, Work};

/// A worker that `run` has besides those of each service.
#[derive(Drop)]
pub enum Worker<'a, R: Runtime, N: Named> {
    Lines(Operator<'a, R, N>),
    Reloads(ReloadWorker<'a, R, N>),
    Log(Logger<'a, R>),
    Delays(DelayWatch<'a, R>),
    Records(RecordWriter<'a, R>),
}

impl<R: Runtime, N: Named> Work for Worker<'_, R, N> {
    fn turn(&mut self) -> bool {
        match self {
            Worker::Lines(worker) => worker.turn(),
            Worker::Reloads(worker) => worker.turn(),
            Worker::Log(worker) => worker.turn(),
            Worker::Delays(worker) => worker.turn(),
            Worker::Records(worker) => worker.turn(),
        }
    }
}

impl<R: Runtime, N: Named> HoldsSeat<N> for Worker<'_, R, N> {
    // Its own, or none.
    ghost gives = { Gives };

    fn into_seat(self) -> Option<Seat> {
        match self {
            Worker::Lines(worker) => Some(worker.into_gate().into_seat()),
            Worker::Reloads(worker) => Some(worker.into_gate().into_seat()),
            Worker::Log(mut worker) => {
                worker.finish();
                None
            }
            Worker::Delays(_) | Worker::Records(_) => None,
        }
    }
}
