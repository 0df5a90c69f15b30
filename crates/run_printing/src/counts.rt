//! What the end line and the summary count: committed and aborted transactions, and settled batches.
ghost use Rattle.std.specs.Prelude.{◌≡◌, ◌≤◌, ◌*◌, not, List, length, map};
ghost use Rattle.core_events.specs.Meant.{event_meant};
ghost use Rattle.protocol.specs.Events as machine;
ghost use Rattle.protocol.specs.Fixed.{most_txs};
ghost use Rattle.protocol.specs.Numbers.{one_if};
ghost use Rattle.protocol.specs.Report.{is_committed, report};
ghost use Rattle.protocol.specs.Words.{holds};
ghost use Rattle.machine_laws.specs.protocol_theorems.Left.{most_events};
ghost use Rattle.run_printing.specs.Counted.{IsAddedBy};
ghost use Rattle.snap_core.specs.Cores.{IsAt, state_at};

use aml_slice::Control;
use core_events::Event;
use machine_laws::every_run_ends;
use run_effects::batches_are_counted;
use snap_base::Verdict;
use snap_core::Core;

/// What the end line counts: the transactions that were answered as committed, those that had another answer, and the batches
/// that were settled.
#[derive(Clone, Copy)]
pub(crate) struct Counts {
    pub committed: u32,
    pub aborted: u32,
    pub batches: u32,
}

/// The counts of a run that took these events. The core is in the state to which they lead.
pub(crate) fn counts_of(core: &Core, kept: &[Event]) -> Counts
    requires { IsAt core.now (map event_meant kept.now) }
    ensures committed { result.committed ≡ (report (map event_meant kept.now) (state_at core.now (map event_meant kept.now))).committed }
    ensures aborted { result.aborted ≡ (report (map event_meant kept.now) (state_at core.now (map event_meant kept.now))).aborted }
    ensures batches { result.batches ≡ (report (map event_meant kept.now) (state_at core.now (map event_meant kept.now))).batches }
{
    batches_are_counted::<Control>();
    a_run_is_short(core, kept);
    let mut counts = Counts {
        committed: 0,
        aborted: 0,
        batches: 0,
    };
    for event in kept {
        let more = added_by(core, *event);
        counts.committed += more.committed;
        counts.aborted += more.aborted;
        counts.batches += more.batches;
    }
    counts
}

/// A run has a limited number of events.
fn a_run_is_short(core: &Core, kept: &[Event])
    requires { IsAt core.now (map event_meant kept.now) }
    ensures { length kept.now ≤ most_events * most_txs }
{
    every_run_ends(&core.tables().work.program);
}

/// What one event adds to the counts.
fn added_by(core: &Core, e: Event) -> Counts
    ensures added { (es : List machine.Event) → IsAt core.now es → IsAddedBy (state_at core.now es) (event_meant e) result }
    ensures few { (result.committed ≤ 1) × (result.aborted ≤ 1) × (result.batches ≤ 1) }
{
    match e {
        Event::Reply(n) => answer_of(core.verdict(n)),
        Event::Settle(_) => Counts {
            committed: 0,
            aborted: 0,
            batches: 1,
        },
        _ => Counts {
            committed: 0,
            aborted: 0,
            batches: 0,
        },
    }
}

/// What a transaction's answer adds to the counts.
fn answer_of(verdict: Option<Verdict>) -> Counts
    ensures committed { result.committed ≡ one_if (holds is_committed verdict) }
    ensures aborted { result.aborted ≡ one_if (not (holds is_committed verdict)) }
    ensures batches { result.batches ≡ 0 }
{
    match verdict {
        Some(Verdict::Committed { .. }) => Counts {
            committed: 1,
            aborted: 0,
            batches: 0,
        },
        _ => Counts {
            committed: 0,
            aborted: 1,
            batches: 0,
        },
    }
}
