//! A core with its logs and its output, run by one thread.
ghost use Rattle.std.specs.Prelude.{◌≡◌, ◌≢◌, ◌+◌, ◌≤◌, ◌^◌, [], List, length, map, false};
ghost use Rattle.std.specs.List.{AllByRecursion};
ghost use Rattle.snap_core.specs.core_events.Meant.{event_meant};
ghost use Rattle.protocol_schedule.specs.Draw.{IsFrontOfSeed};
ghost use Rattle.snap_core.specs.Cores.{IsAt};
ghost use Rattle.snap_core.specs.snap_hand.Tables.{fixed_of};
ghost use Rattle.snap_outside.specs.Causes.{EndsAtFault};
ghost use Rattle.run_effects.specs.Driven.{AreDriven};
ghost use Rattle.solo_host.specs.Drives.{IsPrinted, IsWhy, failed_by};

use crate::picks::generator_of;
use crate::turns::turn;
use gate_log::{FARTHEST_END, Log};
use run_effects::{Stop, runs_of};
use snap_core::{Core, Event, ReadyList};
use snap_outside::{LogDev, Sink};
use std::alloc::Global;

/// How a host with one thread ended, and the events that it took.
#[derive(Drop)]
pub struct Driven {
    /// Why it ended.
    pub stop: Stop,
    /// The events that it took, in their order.
    pub kept: Vec<Event>,
}

/// Takes the events of the core as the seed's schedule picks them, until none is allowed. Seed 0 takes the first allowed event
/// at each step. Before a Sync the records that wait are appended to the log's device as one group, and before a reply its
/// line is printed; an event is kept once that is done. The core is a new one, and the logs, as many as the text says and of
/// format 2, take appends. It ends too where the device of a log or the output fails, or where there is no memory: the event that
/// was to come next is then not taken, and `stop` tells which.
pub fn drive<D: LogDev, O: Sink>(
    alloc: Global,
    core: &mut Core,
    logs: &mut Vec<Log<D>>,
    out: &mut O,
    seed: u64,
) -> Driven
    requires new { IsAt core.old [] }
    requires logs { length logs.old.items ≡ core.old.tables.work.logs }
    requires open { AllByRecursion (λ l. l.shut ≡ false) logs.old.items }
    requires format { AllByRecursion (λ l. l.format ≡ 2) logs.old.items }
    requires ends { AllByRecursion (λ l. l.end ≤ FARTHEST_END + 2 ^ 32) logs.old.items }
    // What was kept is a front of the schedule, and a run of the machine, to which the core has come.
    ensures front { IsFrontOfSeed (fixed_of core.old.tables) seed (map event_meant result.kept.items) }
    ensures core { IsAt core.new (map event_meant result.kept.items) }
    ensures tables { core.new.tables ≡ core.old.tables }
    ensures why { IsWhy (fixed_of core.old.tables) seed (map event_meant result.kept.items) logs.old.items logs.new.items (O.faults out.old) (O.faults out.new) result.stop }
    // The logs got the groups of its Syncs, and nothing else.
    ensures logs { AreDriven (fixed_of core.old.tables) (map event_meant result.kept.items) (failed_by result.stop) logs.old.items logs.new.items }
    // The output got the lines of its replies.
    ensures printed { IsPrinted (fixed_of core.old.tables) seed (map event_meant result.kept.items) (O.taken out.old) (O.taken out.new) result.stop }
    ensures later { O.faults out.old ≤ O.faults out.new }
    // The output gets no call after one that failed.
    ensures once { EndsAtFault (result.stop ≢ Stop.OutFault) (O.faults out.old) (O.late out.old) (O.faults out.new) (O.late out.new) }
{
    runs_of(core.tables());
    let mut generator = generator_of(seed);
    let mut kept = Vec::new(alloc);
    let mut list = ReadyList::new(alloc);
    let mut news = Vec::new(alloc);
    'turns: loop {
        match turn(
            alloc,
            core,
            logs,
            out,
            seed,
            &mut generator,
            &mut list,
            &mut news,
            &mut kept,
        ) {
            Some(stop) => return Driven { stop, kept },
            None => {}
        }
    }
}
