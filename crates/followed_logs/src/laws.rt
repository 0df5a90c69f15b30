//! The laws. `C` is the type of controls.

ghost use Rattle.followed_logs.specs.OnRecords.{FollowersAreNotRefused, FollowersKnowMoreLater, FollowersShowWhatWasFound, FollowersTellSerialStates};

use followed_runs::{
    followers_go_on_behind_runs, records_are_read_once, what_was_seen_is_shown_behind_runs,
};
use recovery_laws::logs_recover_from_greater_numbers;
use snap_follow::refused_for_memory_alone;
use snap_recover::begun_logs_are_recovered;

/// Of runs one behind the other, whatever the rounds of a follower find on their devices, and when, where nothing that was read is
/// lost: its members are closed and serial, run behind run, nobody is lost, and its states are those that they leave.
pub fn followers_tell_serial_states<C>()
    ensures { FollowersTellSerialStates C }
{
    followers_go_on_behind_runs::<C>();
}

/// And whatever it finds next, a round over it is refused for want of memory alone.
pub fn followers_are_not_refused<C>()
    ensures { FollowersAreNotRefused C }
{
    followers_go_on_behind_runs::<C>();
    records_are_read_once::<C>();
    logs_recover_from_greater_numbers::<C>();
    begun_logs_are_recovered();
    refused_for_memory_alone();
}

/// A commit that was found before a call is taken by its second round, where this one finds Genesis.
pub fn followers_show_what_was_found<C>()
    ensures { FollowersShowWhatWasFound C }
{
    what_was_seen_is_shown_behind_runs::<C>();
}

/// And of two calls, where each reading of the second is no earlier than any of the first, and its second round finds Genesis, whatever
/// the first one took the second one takes too.
pub fn followers_know_more_later<C>()
    ensures { FollowersKnowMoreLater C }
{
    what_was_seen_is_shown_behind_runs::<C>();
}
