//! Workers, each in a thread of its own.

ghost use Rattle.std.specs.Prelude.{◌≡◌, IfOk, IfErr, vec_len};

use pg_wire::Refusal;
use std::alloc::{AllocError, Global};
use std::sync::Wait;
use std::sync::atomic::{AtomicBool, Ordering};
use std::thread;
use std::thread::{JoinHandle, Threads};

/// What a thread does again and again.
pub trait Work {
    /// Does a part of the work, and returns whether more is to be done.
    fn turn(&mut self) -> bool;
}

/// Turns of one worker: until one answers false, so many were made, or `stop` is set.
fn work_on<W: Work>(mut worker: W, turns: u64, stop: &AtomicBool) -> W {
    for _ in 0..turns {
        if stop.load(Ordering::SeqCst) || !worker.turn() {
            break;
        }
    }
    worker
}

/// Gives each worker a thread, which ends when a turn answers false, after `turns` turns or once `stop` is set; joins all of
/// them, and hands the workers back in their order. With no workers it returns at once.
///
/// It waits until all threads have ended. As many workers come back as went. That they run at once, that each comes back in its
/// place, and how many turns it made, is shown by tests and not proved.
///
/// # Errors
///
/// `NoMemory` where there is none for the lists or a thread can't be started. A thread that can't be started sets `stop`; those
/// that were are joined, and all workers are dropped.
pub fn run_workers<R: Threads + Wait + Sync, W: Work + Send + Drop>(
    rt: &R,
    alloc: Global,
    workers: Vec<W>,
    turns: u64,
    stop: &AtomicBool,
) -> Result<Vec<W>, Refusal>
    ensures all { IfOk result (λ back. vec_len back ≡ vec_len workers) }
    ensures memory { IfErr result (λ refusal. refusal ≡ Refusal.NoMemory) }
{
    let mut back = Vec::with_capacity(alloc, workers.len())?;
    let handles = thread::scope(
        thread::scope_env(),
        rt,
        move |scope| -> Result<Vec<JoinHandle<W>>, AllocError>
            ensures all { IfOk result (λ handles. vec_len handles ≡ vec_len workers) }
        {
            let mut handles = Vec::with_capacity(alloc, workers.len())?;
            for worker in workers {
                let Ok(handle) = scope.spawn(move || work_on(worker, turns, stop)) else {
                    stop.store(true, Ordering::SeqCst);
                    return Err(AllocError);
                };
                handles.push_reserved(handle);
            }
            Ok(handles)
        },
    )?;
    for handle in handles {
        back.push_reserved(handle.join(rt));
    }
    Ok(back)
}
