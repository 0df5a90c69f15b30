//! The actors' lines and the end line of a run.
ghost use Rattle.std.specs.Prelude.{◌≡◌, ◌≤◌, ◌++◌, List, map, IfOk, IsErrOf, OnOk, OnErr, string_bytes};
ghost use Rattle.std.specs.Io.KnownBytes.{Appends};
ghost use Rattle.core_events.specs.Meant.{event_meant};
ghost use Rattle.protocol.specs.Events as machine;
ghost use Rattle.run_effects.specs.Lines.{ending_text};
ghost use Rattle.run_printing.specs.Printed.{AppendsFront};
ghost use Rattle.snap_core.specs.Cores.{IsAt, state_at};
ghost use Rattle.snap_core.specs.snap_hand.Tables.{fixed_of};
ghost use Rattle.snap_outside.specs.Causes.{Rose, EndsAtFault};
ghost use Rattle.snap_report.specs.Lines.{actor_text, actors_text};

use crate::WriteNo;
use crate::counts::counts_of;
use crate::writes::write_text;
use aml_slice::Control;
use core_events::Event;
use machine_laws::sizes_hold;
use snap_base::{ActorId, Memory, State};
use snap_core::Core;
use snap_outside::Sink;
use snap_report::{actor_line, end_line};
use std::alloc::Global;

/// Writes the actors' lines, in the order of their numbers, and the end line of a run that took these events. The core is in the
/// state to which they lead. `Fault`: the sink failed, and a front of the text is written. `Memory`: there was no memory for the
/// text, and the sink got no call. The text is made whole before it is written; the counts take one pass over the events.
pub fn write_ending<O: Sink>(
    alloc: Global,
    core: &Core,
    kept: &[Event],
    out: &mut O,
) -> Result<(), WriteNo>
    requires { IsAt core.now (map event_meant kept.now) }
    ensures whole { OnOk result (Appends (O.taken out.old) (O.taken out.new) (ending_text (fixed_of core.now.tables) (map event_meant kept.now))) }
    ensures front { OnErr result (AppendsFront (O.taken out.old) (O.taken out.new) (ending_text (fixed_of core.now.tables) (map event_meant kept.now))) }
    ensures fault { IsErrOf result WriteNo.Fault → Rose (O.faults out.old) (O.faults out.new) }
    // The text is made whole before it is written.
    ensures memory { IsErrOf result WriteNo.Memory → out.new ≡ out.old }
    ensures later { O.faults out.old ≤ O.faults out.new }
    ensures once { EndsAtFault (¬ IsErrOf result WriteNo.Fault) (O.faults out.old) (O.late out.old) (O.faults out.new) (O.late out.new) }
{
    let text = ending_of(alloc, core, kept)?;
    write_text(out, text.as_str())
}

/// The actors' lines and the end line.
fn ending_of(alloc: Global, core: &Core, kept: &[Event]) -> Result<String, Memory>
    requires { IsAt core.now (map event_meant kept.now) }
    ensures { IfOk result (λ s. string_bytes s ≡ ending_text (fixed_of core.now.tables) (map event_meant kept.now)) }
{
    let mut text = String::new(alloc);
    push_actors(alloc, &mut text, core)?;
    let counts = counts_of(core, kept);
    let line = end_line(alloc, counts.committed, counts.aborted, counts.batches)?;
    text.push_str(line.as_str())?;
    Ok(text)
}

/// The actors' lines, in the order of their numbers.
fn push_actors(alloc: Global, text: &mut String, core: &Core) -> Result<(), Memory>
    ensures { OnOk result ((es : List machine.Event) → IsAt core.now es → string_bytes text.new ≡ string_bytes text.old ++ actors_text 0 (map (λ c. c.state) (state_at core.now es).cells)) }
{
    sizes_hold::<Control>();
    let count = core.tables().opening.states.len();
    for number in 0..count {
        let actor = ActorId(number as u16);
        let state = core.state(actor);
        push_actor(alloc, text, actor, &state)?;
    }
    Ok(())
}

/// Adds to the text the line of an actor that has this state. The only refusal is want of memory; what the text holds then is not
/// said.
pub fn push_actor(
    alloc: Global,
    text: &mut String,
    actor: ActorId,
    state: &State,
) -> Result<(), Memory>
    ensures { OnOk result (string_bytes text.new ≡ string_bytes text.old ++ actor_text actor.0 state.now) }
{
    let line = actor_line(alloc, actor, state)?;
    text.push_str(line.as_str())?;
    Ok(())
}
