//! A worker's loop, and workers in threads.
ghost use Rattle.std.specs.Prelude.{◌≡◌, ◌+◌, ◌<◌, All, IfOk, OnOk, OnErr};
ghost use Rattle.crew_grip.specs.Grips.{IsCrew};
ghost use Rattle.crew_workers.specs.Workers.{IsBetweenRounds, IsInRounds};
ghost use Rattle.turn_table.specs.Words.{HoldsNothing, IsOf, splits_of};

use crate::crews::Hiring;
use crate::looking::Seen;
use crate::rounds::Round;
use crate::sharing::Crew;
use crate::threads::{Work, work_in_threads};
use core_events::{Event, Footprint, footprint};
use crew_grip::{Acted, Grip};
use crew_hints::{Board, Finds, Leader, Next, Step, is_slice, needs_hub, takes_long};
use crew_parts::{Share, passes_stand};
use snap_base::{Memory, TxNo};
use snap_outside::{Gate, LogDev, Sink};
use std::alloc::Global;
use std::sync::Wait;
use std::thread::Threads;
use turn_table::{Pass, Piece, Turns};

/// So many events a worker tries in a row before it gives back all that it holds.
const ROW: u32 = 32;

/// A worker: its pass, what it holds, and what it has left to try.
#[derive(Drop)]
pub struct Worker<D: LogDev + Drop, O: Sink + Drop>
where
    Share<D, O>: Piece,
{
    pub(crate) pass: Pass<Share<D, O>>,
    pub(crate) grip: Grip<D, O>,
    pub(crate) finds: Finds,
    /// Outside of these parts it holds nothing.
    pub(crate) held: Footprint,
    /// Whether it is at the hub: then it alone tries events that need the ring, the book, the post or the desk.
    pub(crate) hub: bool,
    /// How many events it has tried since it held nothing.
    pub(crate) row: u32,
}

impl<D: LogDev + Drop, O: Sink + Drop> Worker<D, O> {
    /// A worker whose pass is cut off the first one. `Memory` leaves the first one as it was.
    pub fn new(
        alloc: Global,
        turns: &Turns<Share<D, O>>,
        first: &mut Pass<Share<D, O>>,
    ) -> Result<Self, Memory>
        requires crew { IsCrew turns.now }
        requires own { IsOf turns.now first.old.seat }
        requires left { 0 < splits_of first.old.seat }
        ensures free { IfOk result (λ worker. IsBetweenRounds turns.now worker.pass.seat worker.grip) }
        ensures own { IsOf turns.now first.new.seat }
        ensures idle { HoldsNothing first.old.seat → HoldsNothing first.new.seat }
        ensures cut { OnOk result (splits_of first.new.seat + 1 ≡ splits_of first.old.seat) }
        ensures kept { OnErr result (splits_of first.new.seat ≡ splits_of first.old.seat) }
        ensures entries { first.new.entries ≡ first.old.entries }
    {
        passes_stand(turns.tables());
        let grip = Grip::new(alloc, turns.tables())?;
        let finds = Finds::new(alloc)?;
        let pass = turns.split(first);
        Ok(Worker {
            pass,
            grip,
            finds,
            held: footprint(Event::Submit(TxNo(0)), turns.tables().work.logs),
            hub: false,
            row: 0,
        })
    }

    /// Its pass. It holds nothing else.
    pub fn into_pass(self) -> Pass<Share<D, O>>
        ensures { result ≡ self.pass }
    {
        let Worker {
            pass,
            grip: _,
            finds: _,
            held: _,
            hub: _,
            row: _,
        } = self;
        pass
    }
}

/// What comes after a try. A fault or want of memory ends the worker.
fn after_try(round: Round) -> Next {
    match round {
        Round::Looked(Acted::Broken { number: _ })
        | Round::Looked(Acted::Unready)
        | Round::Looked(Acted::Memory)
        | Round::Memory => Next::End,
        Round::Looked(Acted::Done { number: _ })
        | Round::Looked(Acted::NotNow)
        | Round::Lacking
        | Round::OnBoard => Next::Again,
    }
}

/// What comes after a look. Want of memory ends the worker.
fn after_look(leader: &mut Leader, seen: Seen) -> Next {
    match seen {
        Seen::Something => leader.found(),
        Seen::Nothing { all } => leader.nothing(all),
        Seen::Busy => leader.missed(),
        Seen::Memory => Next::End,
    }
}

/// What the worker tries that has tried all else that it found: a Sync, then a Run that is for whoever comes first.
fn next_long(board: &Board, finds: &mut Finds) -> Option<Event> {
    let sync = finds.next_sync();
    if sync.is_some() {
        return sync;
    }
    let run = board.take_run();
    if run.is_some() { run } else { finds.next_run() }
}

impl<'a, D: LogDev + Drop, O: Sink + Drop, G: Gate> Crew<'a, D, O, G> {
    /// One round of a worker: it tries an event, or looks.
    fn turn(&self, worker: &mut Worker<D, O>, leader: &mut Leader<'a>) -> Next
        requires crew { IsCrew self.now.turns.now }
        requires free { IsInRounds self.now.turns.now worker.old.held worker.old.pass.seat worker.old.grip }
        ensures { IsInRounds self.now.turns.now worker.new.held worker.new.pass.seat worker.new.grip }
    {
        let kept = self.keeps_runs(worker);
        worker.finds.keep_runs(kept);
        self.end_row(worker);
        match worker.finds.next() {
            Some(e) => self.turn_of(worker, leader, e),
            None => self.turn_marked(worker, leader),
        }
    }

    /// Whether the worker keeps the Runs that it finds: where it is alone, or at the hub while slices are short.
    fn keeps_runs(&self, worker: &Worker<D, O>) -> bool {
        self.board.is_alone() || (worker.hub && !self.board.is_spread())
    }

    /// Behind a row of tries all that is held is given back, and the Runs that were found are for whoever comes first; but not where the
    /// worker keeps these.
    fn end_row(&self, worker: &mut Worker<D, O>)
        requires crew { IsCrew self.now.turns.now }
        requires free { IsInRounds self.now.turns.now worker.old.held worker.old.pass.seat worker.old.grip }
        ensures { IsInRounds self.now.turns.now worker.new.held worker.new.pass.seat worker.new.grip }
    {
        if worker.row < ROW || self.keeps_runs(worker) {
            return;
        }
        self.give_back(worker);
        self.board.post_runs(&mut worker.finds);
    }

    /// A round in which the worker has no event to try that takes no time: where an event left a mark, it looks what that is for.
    fn turn_marked(&self, worker: &mut Worker<D, O>, leader: &mut Leader<'a>) -> Next
        requires crew { IsCrew self.now.turns.now }
        requires free { IsInRounds self.now.turns.now worker.old.held worker.old.pass.seat worker.old.grip }
        ensures { IsInRounds self.now.turns.now worker.new.held worker.new.pass.seat worker.new.grip }
    {
        let Some(mark) = worker.finds.next_mark() else {
            return self.turn_long(worker, leader);
        };
        if !self.enter_hub(worker) {
            return self.turn_long(worker, leader);
        }
        self.look_at(worker, mark);
        Next::Again
    }

    /// A round in which the worker holds nothing to begin with, and has nothing left to try that takes no time: it lets others look, and
    /// tries what may take long.
    fn turn_long(&self, worker: &mut Worker<D, O>, leader: &mut Leader<'a>) -> Next
        requires crew { IsCrew self.now.turns.now }
        requires free { IsInRounds self.now.turns.now worker.old.held worker.old.pass.seat worker.old.grip }
        ensures { IsInRounds self.now.turns.now worker.new.held worker.new.pass.seat worker.new.grip }
    {
        self.give_back(worker);
        self.board.post_runs(&mut worker.finds);
        self.leave_hub(worker);
        if worker.finds.has_next() {
            return Next::Again;
        }
        leader.give_up();
        match next_long(self.board, &mut worker.finds) {
            Some(e) => {
                worker.finds.keep_later();
                self.turn_of(worker, leader, e)
            }
            None => self.turn_idle(worker, leader),
        }
    }

    /// A round in which the worker holds nothing to begin with, and has nothing to try: it looks, syncs a log, or rests.
    fn turn_idle(&self, worker: &mut Worker<D, O>, leader: &mut Leader<'a>) -> Next
        requires crew { IsCrew self.now.turns.now }
        requires free { IsInRounds self.now.turns.now worker.old.held worker.old.pass.seat worker.old.grip }
        ensures { IsInRounds self.now.turns.now worker.new.held worker.new.pass.seat worker.new.grip }
    {
        leader.is_idle(self.board);
        match leader.step(self.board) {
            Some(Step::Look(scope)) => {
                let seen = self.look(worker, scope);
                after_look(leader, seen)
            }
            Some(Step::Sync) => match self.board.due_sync() {
                Some(e) => self.turn_of(worker, leader, e),
                None => Next::Again,
            },
            None => Next::Rest,
        }
    }

    /// Whether the worker is at the hub: it is where no other one is.
    fn enter_hub(&self, worker: &mut Worker<D, O>) -> bool
        ensures same { (worker.new.pass ≡ worker.old.pass) × ((worker.new.grip ≡ worker.old.grip) × (worker.new.held ≡ worker.old.held)) }
    {
        worker.hub = worker.hub || self.board.enter_hub();
        worker.hub
    }

    /// The worker, which has nothing to try there, is at the hub no more; but if something was left there, it takes that over.
    fn leave_hub(&self, worker: &mut Worker<D, O>)
        ensures same { (worker.new.pass ≡ worker.old.pass) × ((worker.new.grip ≡ worker.old.grip) × (worker.new.held ≡ worker.old.held)) }
    {
        if !worker.hub || self.board.is_alone() {
            return;
        }
        self.board.take_over_hub(&mut worker.finds);
        if worker.finds.has_next() {
            return;
        }
        worker.hub = false;
        self.board.leave_hub();
        if self.board.has_hub_event() && self.enter_hub(worker) {
            self.board.take_over_hub(&mut worker.finds);
        }
    }

    /// An event is left to the worker that is at the hub. First all that is held is given back, so that that one finds it free. The hub is
    /// tried once more: who was there may have looked for what was left there before.
    fn leave_at_hub(&self, worker: &mut Worker<D, O>, e: Event)
        requires crew { IsCrew self.now.turns.now }
        requires free { IsInRounds self.now.turns.now worker.old.held worker.old.pass.seat worker.old.grip }
        ensures { IsInRounds self.now.turns.now worker.new.held worker.new.pass.seat worker.new.grip }
    {
        self.give_back(worker);
        if !self.board.leave_at_hub(e) {
            worker.finds.put_off(e);
            return;
        }
        if self.enter_hub(worker) {
            self.board.take_over_hub(&mut worker.finds);
        }
    }

    /// A round in which the worker tries this event. Where it lacked a part and could not be left to who has it, it is put off; where
    /// there is no memory for that, a look finds it.
    fn turn_of(&self, worker: &mut Worker<D, O>, leader: &mut Leader<'a>, e: Event) -> Next
        requires crew { IsCrew self.now.turns.now }
        requires free { IsInRounds self.now.turns.now worker.old.held worker.old.pass.seat worker.old.grip }
        ensures { IsInRounds self.now.turns.now worker.new.held worker.new.pass.seat worker.new.grip }
    {
        if takes_long(e) {
            leader.give_up();
        }
        leader.is_busy(self.board);
        if worker.hub && is_slice(e) && !self.board.is_alone() {
            return self.turn_out(worker, leader, e);
        }
        if needs_hub(e) && !self.enter_hub(worker) {
            self.leave_at_hub(worker, e);
            return Next::Again;
        }
        self.turn_at(worker, leader, e)
    }

    /// A round in which the worker, which is at the hub, tries a Run. While it is in the slice, another one may be at the hub, and finds free
    /// what was held.
    fn turn_out(&self, worker: &mut Worker<D, O>, leader: &mut Leader<'a>, e: Event) -> Next
        requires crew { IsCrew self.now.turns.now }
        requires free { IsInRounds self.now.turns.now worker.old.held worker.old.pass.seat worker.old.grip }
        ensures { IsInRounds self.now.turns.now worker.new.held worker.new.pass.seat worker.new.grip }
    {
        self.give_back(worker);
        if !self.step_out(worker) {
            let _kept = worker.finds.put(e);
            return Next::Again;
        }
        self.board.enter_slice();
        let next = self.turn_at(worker, leader, e);
        self.board.leave_slice();
        self.enter_hub(worker);
        next
    }

    /// Whether the worker, which was at the hub, is there no more: not where something was left there meanwhile, which it takes over.
    fn step_out(&self, worker: &mut Worker<D, O>) -> bool
        ensures same { (worker.new.pass ≡ worker.old.pass) × ((worker.new.grip ≡ worker.old.grip) × (worker.new.held ≡ worker.old.held)) }
    {
        worker.hub = false;
        self.board.leave_hub();
        if self.board.has_hub_event() && self.enter_hub(worker) {
            self.board.take_over_hub(&mut worker.finds);
            return false;
        }
        true
    }

    /// A round in which the worker, which is at the hub where the event needs that, tries this event.
    fn turn_at(&self, worker: &mut Worker<D, O>, leader: &mut Leader<'a>, e: Event) -> Next
        requires crew { IsCrew self.now.turns.now }
        requires free { IsInRounds self.now.turns.now worker.old.held worker.old.pass.seat worker.old.grip }
        ensures { IsInRounds self.now.turns.now worker.new.held worker.new.pass.seat worker.new.grip }
    {
        let begun = self.board.pace();
        let busy = self.board.is_busy();
        let round = self.try_event(worker, e);
        if is_slice(e) {
            self.board.weigh(begun, busy);
        }
        self.board.go_on();
        self.hear(worker, leader, e, round);
        after_try(round)
    }

    /// What comes of a try for what the worker has left to try, and for its next look.
    fn hear(&self, worker: &mut Worker<D, O>, leader: &mut Leader<'a>, e: Event, round: Round)
        ensures same { (worker.new.pass ≡ worker.old.pass) × ((worker.new.grip ≡ worker.old.grip) × (worker.new.held ≡ worker.old.held)) }
    {
        worker.row = worker.row.saturating_add(1);
        if worker.hub && self.board.has_hub_event() {
            self.board.take_over_hub(&mut worker.finds);
        }
        if let Round::Looked(Acted::Done { number: _ }) = round {
            leader.did(e);
        }
        if round == Round::Lacking {
            worker.finds.put_off(e);
        }
    }

    /// The rounds of a worker, until it ends or another one has. Who ends has seen that no event is allowed on all parts together,
    /// or met a fault or want of memory; then all end.
    fn work<R: Wait>(&self, rt: &R, worker: &mut Worker<D, O>)
        requires crew { IsCrew self.now.turns.now }
        requires free { IsBetweenRounds self.now.turns.now worker.old.pass.seat worker.old.grip }
        ensures { IsBetweenRounds self.now.turns.now worker.new.pass.seat worker.new.grip }
    {
        let mut leader = Leader::new();
        for _ in rt.forever() {
            if self.board.has_ended() {
                break;
            }
            match self.turn(worker, &mut leader) {
                Next::Again => {}
                Next::Rest => {
                    worker.finds.keep_later();
                    self.board.rest(rt, leader.naps());
                }
                Next::End => break,
            }
        }
        self.give_back(worker);
        self.board.end();
    }
}

/// What each worker of a crew does.
#[derive(Drop)]
struct Rounds<'a, G: Gate> {
    alloc: Global,
    gate: &'a G,
    board: &'a Board,
}

impl<'a, D: LogDev + Drop + Send, O: Sink + Drop + Send, G: Gate> Work<Share<D, O>, Worker<D, O>>
    for Rounds<'a, G> {
    ghost use Rattle.crew_workers.specs.Workers.{IsOfCrew};

    ghost ready = { λ turns worker. IsOfCrew turns worker.pass.seat worker.grip };

    fn work<R: Wait>(&self, rt: &R, turns: &Turns<Share<D, O>>, worker: &mut Worker<D, O>) {
        let crew = Crew {
            alloc: self.alloc,
            turns,
            gate: self.gate,
            board: self.board,
        };
        crew.work(rt, worker);
    }
}

/// The workers run, each in a thread of its own, until all have ended. Then each holds nothing.
pub fn work_together<
    R: Threads + Wait + Sync,
    D: LogDev + Drop + Send,
    O: Sink + Drop + Send,
    G: Gate + Sync,
>(hiring: &Hiring<R, G>, turns: &Turns<Share<D, O>>, workers: &mut [Worker<D, O>])
    requires crew { IsCrew turns.now }
    requires free { All (λ worker. IsBetweenRounds turns.now worker.pass.seat worker.grip) workers.old }
    ensures { All (λ worker. IsBetweenRounds turns.now worker.pass.seat worker.grip) workers.new }
{
    let board = Board::new(
        hiring.alloc,
        turns.part_count(),
        turns.tables().work.logs,
        workers.len(),
    );
    let job = Rounds {
        alloc: hiring.alloc,
        gate: hiring.gate,
        board: &board,
    };
    work_in_threads(hiring.rt, turns, &job, workers);
}
