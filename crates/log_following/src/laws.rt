//! The law of followers.
ghost use Rattle.log_following.specs.FollowLaws.{FoldedAreFollowed};

use log_compact::refused_are_not_folded;

/// A round over lists that fold is not refused, where the round before read the same lists, or nothing.
pub fn folded_are_followed()
    ensures { FoldedAreFollowed }
{
    refused_are_not_folded();
}
