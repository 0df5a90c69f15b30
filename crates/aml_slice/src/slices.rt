//! Slices: a control runs on the one actor where it stands.

ghost use Rattle.std.specs.Prelude.{◌≡◌, ◌<◌, ◌≤◌, ℕ, IfOk};
ghost use Rattle.aml_check.specs.Checked.{methods_of};
ghost use Rattle.aml_check.specs.Closed.{IsClosedProgram};
ghost use Rattle.aml_resume.specs.Resuming.{PausesWhereAllowed};
ghost use Rattle.aml_slice.specs.Controls.{IsRest};
ghost use Rattle.aml_slice.specs.Slicing.{move, slice_end};
ghost use Rattle.aml_slice.specs.Views.{move_at, rest_of, HasRooms};

use crate::controls::Control;
use crate::laws::known;
use crate::running::Running;
use aml_check::Checked;
use aml_resume::Exit;
use snap_base::{ActorId, Next, State, TxResult};

/// One move of a control on the actor where it stands: the actor where it stands then, or what became of
/// the transaction.
fn advance(
    program: &Checked,
    actors: u16,
    state: &mut State,
    running: &mut Running,
) -> Result<u16, TxResult>
    requires rest { IsRest (methods_of program.now) actors (rest_of running.old) }
    requires rooms { HasRooms running.old }
    requires closed { IsClosedProgram (methods_of program.now) }
    requires allowed { PausesWhereAllowed }
    ensures exactly { move_at state.new (rest_of running.new) result ≡ move (methods_of program.now) actors (rest_of running.old) state.old }
    ensures stands { IfOk result (λ a. (rest_of running.new).top.actor ≡ a) }
    ensures rooms { IfOk result (λ _. HasRooms running.new) }
{
    match running.run(program, state) {
        Err(code) => Err(TxResult::Fail(code)),
        Ok(Exit::Gives(value)) => match running.give(value) {
            Some(actor) => Ok(actor),
            None => Err(TxResult::Value(value)),
        },
        Ok(Exit::Asks { target, method }) => match running.call(actors, target, method) {
            Ok(actor) => Ok(actor),
            Err(code) => Err(TxResult::Fail(code)),
        },
    }
}

/// Runs a control on its actor's state, up to the first moment at which the transaction calls or returns
/// to another actor, or ends. A call of the own actor is run on. It takes no memory, and ends for every
/// control of a transaction of this program. Where the transaction fails, the state is what its statements
/// made of it so far.
pub fn slice(program: &Checked, actors: u16, state: &mut State, control: Control) -> Next<Control>
    requires { IsRest (methods_of program.now) actors control }
    ensures exactly { record { state = state.new; next = result } ≡ slice_end (methods_of program.now) actors control state.old }
{
    known(program);
    let mut running = control.into_running();
    let own = running.top.actor;
    loop {
        match advance(program, actors, state, &mut running) {
            Err(result) => return Next::Ended(result),
            Ok(actor) => {
                if actor != own {
                    return Next::Go(ActorId(actor), Control::of(running));
                }
            }
        }
    }
}
