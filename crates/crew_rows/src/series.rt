//! Series of larger runs, in which many workers want the same parts, also where calls outside are slow or fail.

use crate::gates::Crossing;
use crate::rows::{Faults, NO_FAULTS, faults_of, run_untrue_at, told};
use crate::texts::{TOTAL, crowd};
use crew_host::MOST_WORKERS;
use snap_base::Memory;
use std::alloc::Global;
use std::sync::Wait;
use std::test::Fail;
use std::thread::Threads;
use work_gen::generate;

/// The texts of a series: generated ones, on 256 actors, or ones that are drawn, on five.
#[derive(Clone, Copy, Debug)]
enum Texts {
    Generated,
    Crowded,
}

/// What calls outside do in a series: none is slow, the syncs of the devices are, the writes of the output are, or some fail.
#[derive(Clone, Copy, Debug)]
enum Calls {
    Quick,
    SlowSyncs,
    SlowWrites,
    Failing,
}

/// Series of runs of `TRANSACTIONS` each: the texts, how many workers there are, the first seed and the one behind the last, and the
/// calls outside.
const SERIES: [(Texts, usize, u64, u64, Calls); 8] = [
    (Texts::Generated, 8, 0, 30, Calls::Quick),
    (Texts::Generated, 8, 30, 40, Calls::SlowSyncs),
    (Texts::Generated, 8, 40, 50, Calls::SlowWrites),
    (Texts::Generated, 8, 50, 60, Calls::Failing),
    (Texts::Crowded, 8, 0, 10, Calls::Quick),
    (Texts::Crowded, 8, 10, 15, Calls::SlowSyncs),
    (Texts::Crowded, 8, 15, 20, Calls::Failing),
    (Texts::Crowded, 2, 20, 25, Calls::Quick),
];

/// How many transactions a text has.
const TRANSACTIONS: u32 = 500;

/// For how many turns a slow sync goes on.
const SYNC_TURNS: u64 = 40_000;

/// For how many turns a slow write goes on.
const WRITE_TURNS: u64 = 10_000;

/// The text that a seed draws.
fn text_by(alloc: Global, texts: Texts, seed: u64) -> Result<Vec<u8>, Memory> {
    match texts {
        Texts::Generated => generate(alloc, TRANSACTIONS, seed),
        Texts::Crowded => crowd(alloc, seed, TRANSACTIONS),
    }
}

/// The sum of all fields that stays in these texts, where one does.
fn total_of(texts: Texts) -> Option<i64> {
    match texts {
        Texts::Generated => None,
        Texts::Crowded => Some(TOTAL),
    }
}

/// What fails or is slow in the run with this seed.
fn faults_by(calls: Calls, seed: u64) -> Faults {
    match calls {
        Calls::Quick => NO_FAULTS,
        Calls::SlowSyncs => Faults {
            sync_turns: SYNC_TURNS,
            ..NO_FAULTS
        },
        Calls::SlowWrites => Faults {
            write_turns: WRITE_TURNS,
            ..NO_FAULTS
        },
        // One kind of faults for each seed, and later calls with greater seeds.
        Calls::Failing => faults_of(11 * (seed % 16)),
    }
}

/// What is not so of a series; nothing, where all is.
fn untrue_of_series<R: Threads + Wait + Sync>(
    rt: &R,
    alloc: Global,
    (texts, workers, first, end, calls): (Texts, usize, u64, u64, Calls),
) -> Result<String, Fail> {
    let workers = workers.min(MOST_WORKERS);
    let gate = Crossing::new();
    for seed in first..end {
        let text = text_by(alloc, texts, seed)?;
        let faults = faults_by(calls, seed);
        let wrong = run_untrue_at(
            rt,
            alloc,
            text.as_slice(),
            workers,
            faults,
            &gate,
            total_of(texts),
        )?;
        if !wrong.is_empty() {
            let of = format!(in alloc; "{texts:?}, {calls:?}, seed {seed}")?;
            return Ok(told(alloc, workers, of.as_str(), wrong.as_str())?);
        }
    }
    if !gate.is_of_several() {
        return Ok(format!(in alloc; "{texts:?}, {calls:?}: two workers are at the gate at once")?);
    }
    Ok(String::new(alloc))
}

/// Crews end, for what failed where something did, and do what one core does, also where many want the same parts. A wrong run is
/// told with its texts, its seed and its events.
#[test]
fn larger_crews_do_what_one_core_does(rt: HostRuntime) -> Result<(), Fail> {
    let alloc = rt.alloc();
    for series in SERIES {
        assert_eq!(rt; untrue_of_series(&rt, alloc, series)?.as_str(), "");
    }
    Ok(())
}
