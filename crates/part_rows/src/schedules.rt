//! An actor's schedule: whom one that comes can't stand beside, and who may run.

use crate::tables::{Stepped, differences};
use hybrid_schedule::Schedule;
use snap_base::{ActorId, Bid, Memory, Sequence, SubBatch, Tid};
use std::alloc::Global;
use std::test::Fail;

/// What is done to a schedule.
#[derive(Clone, Copy)]
pub enum Step {
    /// An ACT is placed, which only reads or not.
    Place(u64, bool),
    /// A batch of one PACT is placed behind the last batch.
    Arrive(u64, u64),
    Leave(u64),
    Done(u64),
    Complete(u64),
    Trim(u64),
    Cut(u64),
}

/// Who may run is asked of the tids from 1 to this one.
const MOST: u64 = 9;

impl Stepped for Schedule {
    type Step = Step;

    /// It answers whom one that comes and only reads can't stand beside, whom another can't, and who may run.
    fn step(&mut self, alloc: Global, step: Step) -> Result<String, Memory> {
        make(alloc, self, step)?;
        let reader = listed(alloc, &self.rivals(alloc, true)?)?;
        let writer = listed(alloc, &self.rivals(alloc, false)?)?;
        let run = listed(alloc, &running(alloc, self)?)?;
        Ok(format!(in alloc; "{reader}; {writer}; {run}")?)
    }
}

fn make(alloc: Global, schedule: &mut Schedule, step: Step) -> Result<(), Memory> {
    match step {
        Step::Place(t, reader) => schedule.place_act(alloc, Tid(t), reader)?,
        Step::Arrive(bid, t) => arrive(alloc, schedule, bid, t)?,
        Step::Leave(t) => schedule.remove_act(Tid(t)),
        Step::Done(t) => schedule.mark_done(Tid(t)),
        Step::Complete(bid) => schedule.complete(Bid(bid)),
        Step::Trim(bid) => schedule.trim(Bid(bid)),
        Step::Cut(bid) => schedule.drop_aborted(Bid(bid), 1),
    }
    Ok(())
}

fn arrive(alloc: Global, schedule: &mut Schedule, bid: u64, t: u64) -> Result<(), Memory> {
    let sub = SubBatch {
        bid: Bid(bid),
        epoch: schedule.epoch(),
        prev: schedule.last_in_epoch(),
        actor: ActorId(0),
        tids: Sequence::from_vec(Vec::from_slice(alloc, &[Tid(t)])?),
    };
    match schedule.arrive(alloc, sub) {
        Ok(()) => Ok(()),
        Err(_) => Err(Memory),
    }
}

/// The transactions that may run, ascending.
fn running(alloc: Global, schedule: &Schedule) -> Result<Vec<Tid>, Memory> {
    let mut tids = Vec::new(alloc);
    for t in 1..=MOST {
        if schedule.may_run(Tid(t)) {
            tids.push(Tid(t))?;
        }
    }
    Ok(tids)
}

/// The tids, each of one digit, one after the other.
fn listed(alloc: Global, tids: &[Tid]) -> Result<String, Memory> {
    let mut told = String::new(alloc);
    for t in tids {
        told.push_str(&format!(in alloc; "{t}")?)?;
    }
    Ok(told)
}

/// Readers come in any order of tids and run together. Nobody that writes meets fewer than all.
const READERS: [(Step, &str); 5] = [
    (Step::Place(7, true), "; 7; 7"),
    (Step::Place(5, true), "; 75; 57"),
    (Step::Place(8, true), "; 758; 578"),
    (Step::Leave(5), "; 78; 78"),
    (Step::Leave(7), "; 8; 8"),
];

/// A writer waits for each of the readers ahead of it.
const WRITER: [(Step, &str); 5] = [
    (Step::Place(7, true), "; 7; 7"),
    (Step::Place(9, true), "; 79; 79"),
    (Step::Place(4, false), "4; 794; 79"),
    (Step::Leave(9), "4; 74; 7"),
    (Step::Leave(7), "4; 4; 4"),
];

/// A reader waits for the writer ahead of it, also where others read ahead of both.
const READER: [(Step, &str); 6] = [
    (Step::Place(9, true), "; 9; 9"),
    (Step::Place(6, false), "6; 96; 9"),
    (Step::Place(2, true), "6; 962; 9"),
    (Step::Leave(9), "6; 62; 6"),
    (Step::Place(1, true), "6; 621; 6"),
    (Step::Leave(6), "; 21; 12"),
];

/// A batch waits for a reader ahead, and a reader for a batch ahead until that is complete. Only ACTs behind the last batch
/// are met.
const BATCH: [(Step, &str); 9] = [
    (Step::Place(9, true), "; 9; 9"),
    (Step::Arrive(1, 5), "; ; 9"),
    (Step::Place(6, true), "; 6; 9"),
    (Step::Leave(9), "; 6; 5"),
    (Step::Done(5), "; 6; 5"),
    (Step::Complete(1), "; 6; 56"),
    (Step::Place(3, false), "3; 63; 56"),
    (Step::Trim(1), "3; 63; 6"),
    (Step::Leave(6), "3; 3; 3"),
];

/// A rollback takes the readers behind the batch with it, and leaves those ahead.
const CUT: [(Step, &str); 6] = [
    (Step::Place(9, true), "; 9; 9"),
    (Step::Place(8, true), "; 98; 89"),
    (Step::Arrive(1, 5), "; ; 89"),
    (Step::Place(7, true), "; 7; 89"),
    (Step::Cut(1), "; 98; 89"),
    (Step::Arrive(2, 6), "; ; 89"),
];

#[test]
fn readers_run_together(rt: HostRuntime) -> Result<(), Fail> {
    let alloc = rt.alloc();
    for rows in [
        READERS.as_slice(),
        WRITER.as_slice(),
        READER.as_slice(),
        BATCH.as_slice(),
        CUT.as_slice(),
    ] {
        let mut schedule = Schedule::new(alloc, Bid(0))?;
        assert_eq!(rt; differences(alloc, &mut schedule, rows)?.as_str(), "");
    }
    Ok(())
}
