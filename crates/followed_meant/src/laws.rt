//! The laws, of every program.

ghost use Rattle.std.specs.Prelude.{map};
ghost use Rattle.aml_check.specs.Checked.{methods_of};
ghost use Rattle.followed_meant.specs.AsMeant.{FollowersGoOn, FollowersTellMeantStates, SetsAreMeant};

use aml_check::Checked;
use aml_slice::Control;
use followed_logs::{followers_are_not_refused, followers_tell_serial_states};
use machine_laws::{serial_as_meant, texts_have_the_facts, verdicts_tell_of_serial_runs};
use protocol_laws::transactions_are_in_one_place;

/// Of every run of every text of the program, and from any states: of those that committed with a value any set, one after the
/// other in the order of their places, is to the machine's code what the language means; and it leaves as many states.
pub fn sets_are_as_meant(program: &Checked)
    ensures { SetsAreMeant (methods_of program.now) }
{
    serial_as_meant(program);
    verdicts_tell_of_serial_runs(program);
    transactions_are_in_one_place::<Control>();
}

/// Of runs one behind the other, each of a text of one of these programs, whatever the rounds of a follower find on their logs, and
/// when, where nothing that was read is lost: besides what followed_logs says of them, the members of each run, one after the other
/// in the order of their places as the language means each, from the states that those of the runs before left, give the results
/// that they had, and the follower's states are those that all of them leave. And whatever it finds next, a round over it is refused
/// for want of memory alone.
pub fn followers_tell_meant_states(programs: &[Checked])
    ensures tell { FollowersTellMeantStates (map methods_of programs.now) }
    ensures go_on { FollowersGoOn (map methods_of programs.now) }
{
    followers_tell_serial_states::<Control>();
    followers_are_not_refused::<Control>();
    for program in programs {
        texts_have_the_facts(program);
        sets_are_as_meant(program);
    }
}
