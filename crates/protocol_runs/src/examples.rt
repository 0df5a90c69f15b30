//! Worked runs: texts with scripts of events, and what comes out.

ghost use Rattle.std.specs.Prelude.{◌≡◌, ℕ};
ghost use Rattle.std.specs.List.{AllByRecursion};
ghost use Rattle.protocol_runs.specs.Crowd.{crowd, crowd_events};
ghost use Rattle.protocol_runs.specs.ExampleCode.{IsRestOf, finish, scripts};
ghost use Rattle.protocol.specs.Facts.{Facts};
ghost use Rattle.protocol.specs.Fixed.{IsTxOf};
ghost use Rattle.protocol_runs.specs.Lines.{IsAsTold};
ghost use Rattle.protocol_runs.specs.Paths.{paths};
ghost use Rattle.protocol_runs.specs.Rules.{rules};
ghost use Rattle.protocol_runs.specs.Seeds.{SeedsPlay};
ghost use Rattle.protocol_schedule.specs.Draw.{schedule_of};
ghost use Rattle.protocol_runs.specs.Examples.{BatchesPlay, ActsPlay, CascadesPlay, RefusalsPlay};

/// Worked runs of batches of declared transactions end in the outcomes that stand beside them.
pub fn batches_play()
    ensures { BatchesPlay }
{}

/// Worked runs of ACTs, which take locks as they go, end in the outcomes that stand beside them.
pub fn acts_play()
    ensures { ActsPlay }
{}

/// Worked runs in which a failed batch takes others along end in the outcomes that stand beside them.
pub fn cascades_play()
    ensures { CascadesPlay }
{}

/// Events that are refused are refused by the first rule whose condition is false.
pub fn refusals_play()
    ensures { RefusalsPlay }
{}

/// Each run of a single rule is as it is told.
pub fn rules_play()
    ensures { AllByRecursion IsAsTold rules }
{}

/// Each run over several logs and coordinators, behind earlier runs and through cascades is as it is told.
pub fn paths_play()
    ensures { AllByRecursion IsAsTold paths }
{}

/// A run of some two hundred events, of all kinds, is as it is told, and it is the schedule of a seed.
pub fn crowd_plays()
    ensures told { IsAsTold crowd }
    ensures drawn { schedule_of crowd.work 24 300 ≡ crowd_events }
{}

/// The schedules of a few seeds, and what comes out. The events are those that a second model of the event table, in
/// another language, took by its own PCG32.
pub fn seeds_play()
    ensures { SeedsPlay }
{}

/// The tiny language of the worked runs has all the facts that the machine uses of method code.
pub fn example_code_has_the_facts()
    ensures { (actors : ℕ) → Facts actors (scripts actors) (IsTxOf actors) (IsRestOf actors) (finish actors) }
{}
