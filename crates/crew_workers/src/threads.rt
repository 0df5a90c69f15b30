//! Workers in threads, whatever the parts are that they share.
ghost use Rattle.std.specs.Prelude.{All};
ghost use Rattle.turn_table.specs.declared.turns.Turns.{Turns};

use snap_work::MOST_WORKERS;
use std::sync::Wait;
use std::thread;
use std::thread::Threads;
use turn_table::{Piece, Turns};

/// What a worker does with the turns, from its first round to its last.
pub(crate) trait Work<P: Piece, W> {
    /// What holds of a worker before and after.
    ghost ready: { Turns P P.Tables P.Event → W → Type 0 };

    fn work<R: Wait>(&self, rt: &R, turns: &Turns<P>, worker: &mut W)
        requires { ready turns.now worker.old }
        ensures { ready turns.now worker.new };
}

/// Each of the workers works in a thread of its own, until all have ended.
pub(crate) fn work_in_threads<
    R: Threads + Wait + Sync,
    P: Piece + Send,
    W: Send,
    J: Work<P, W> + Sync,
>(rt: &R, turns: &Turns<P>, job: &J, workers: &mut [W])
where
    P::Tables: Sync,
    P::Event: Send + Sync,
    requires { All (λ worker. J.ready turns.now worker) workers.old }
    ensures { All (λ worker. J.ready turns.now worker) workers.new }
{
    thread::for_each_mut(
        rt,
        workers,
        MOST_WORKERS,
        &|_, worker| { job.work(rt, turns, worker) },
    );
}
