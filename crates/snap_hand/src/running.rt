//! The event by which a slice of a transaction runs on an actor, on a hand.
ghost use Rattle.std.specs.Prelude.{◌≡◌, length};
ghost use Rattle.aml_check.specs.Checked.{methods_of};
ghost use Rattle.aml_slice.specs.Controls.{IsRest};
ghost use Rattle.machine_laws.specs.MethodCode.{method_code};
ghost use Rattle.protocol.specs.Meant.{next_meant};
ghost use Rattle.protocol.specs.Events as event;
ghost use Rattle.protocol.specs.OnCell.{is_through};
ghost use Rattle.snap_hand.specs.Steps.{MayBeAsked, IsRefusalOn, IsStep};
ghost use Rattle.snap_hand.specs.Tables.{AreTables, fixed_of, text_of};

use crate::{Hand, Tables};
use aml_check::Checked;
use aml_slice::{Control, slice};
use core_rows::{StepNo, nothing_happens_nowhere, rows_may};
use machine_laws::{askings_are_the_controls, controls_may_run};
use snap_base::{ActorId, Next, State, Tid};

/// How many actors there are.
fn actors_of(tables: &Tables) -> u16
    requires { AreTables tables.now }
    ensures { result ≡ length (text_of tables.now).opening.states }
{
    tables.opening.states.len() as u16
}

/// Runs a slice of the control on the state of actor `a`: where the transaction goes from there, and whether it is through on
/// the actor, as it has ended or nothing of it rests there any more.
fn slice_on(
    program: &Checked,
    actors: u16,
    a: ActorId,
    state: &mut State,
    control: Control,
) -> (Next<Control>, bool)
    requires { IsRest (methods_of program.now) actors control }
    ensures slice { (method_code (methods_of program.now) actors).slice control state.old ≡ record { state = state.new; next = next_meant result.0 } }
    ensures through { is_through (method_code (methods_of program.now) actors) a.0 (next_meant result.0) ≡ result.1 }
{
    askings_are_the_controls();
    let next = slice(program, actors, state, control);
    let through = match &next {
        Next::Ended(_) => true,
        Next::Go(_, rest) => !rest.rests_on(a),
    };
    (next, through)
}

/// Which of the conditions of Run is the first false one, or 0.
pub(crate) fn run_refusal(_tables: &Tables, hand: &Hand, t: Tid, a: ActorId) -> u8
    requires tables { AreTables _tables.now }
    requires asked { MayBeAsked (fixed_of _tables.now) (event.Run t.0 a.0) hand.now }
    ensures { IsRefusalOn (fixed_of _tables.now) (event.Run t.0 a.0) hand.now result }
{
    nothing_happens_nowhere::<Control>();
    rows_may::<Control>();
    if !hand.has_actor(a) {
        return 1;
    }
    core_rows::run_refusal(hand.cell(a), t, a)
}

/// Run.
pub(crate) fn run(tables: &Tables, hand: &mut Hand, t: Tid, a: ActorId) -> Result<(), StepNo>
    requires tables { AreTables tables.now }
    requires asked { MayBeAsked (fixed_of tables.now) (event.Run t.0 a.0) hand.old }
    ensures { IsStep (fixed_of tables.now) (event.Run t.0 a.0) hand.old hand.new result }
{
    nothing_happens_nowhere::<Control>();
    rows_may::<Control>();
    let program = &tables.work.program;
    controls_may_run(program);
    if !hand.has_actor(a) {
        return Err(StepNo::NotNow { rule: 1 });
    }
    let actors = actors_of(tables);
    let mut cell = hand.take_cell(a);
    let step = core_rows::run(&mut cell, t, a, |state: &mut State, control: Control| {
        slice_on(program, actors, a, state, control)
    });
    hand.put_cell(a, cell);
    step
}
