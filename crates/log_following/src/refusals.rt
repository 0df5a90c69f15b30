//! Why a round over a reading of the logs in use is refused.
ghost use Rattle.std.specs.Prelude.{◌≡◌, ◌+◌, ◌<◌, List, IfSome};
ghost use Rattle.txn_records.specs.declared.records.Record.{Record};
ghost use Rattle.log_compact.specs.Refusals.{IsCheckpointRefused};
ghost use Rattle.snap_follow.specs.Refusals.{IsNotFollowed};
ghost use Rattle.log_following.specs.Rounds.{IsNoRound, IsRoundCause, MayBeRead, log_refused, stray_log};

use log_compact::CheckpointNo;
use log_opening::LogsNo;
use snap_follow::FollowNo;
use snap_recover::LogCause;
use txn_records::Key;

/// Why the logs in use are not followed, where their checkpoint is refused. The first of them lies on this device.
pub(crate) fn of_checkpoint(no: CheckpointNo, head: u8) -> LogsNo
    requires { head + stray_log no < 256 }
    ensures { (before lists : List (List Record)) → IsCheckpointRefused lists no → IsNoRound head before lists result }
{
    match no {
        CheckpointNo::Stray { log } => LogsNo::Refused {
            log: head + log,
            offset: 0,
            cause: LogCause::Stray,
        },
        CheckpointNo::Range => LogsNo::Refused {
            log: head,
            offset: 0,
            cause: LogCause::Range {
                key: Key::Checkpoint,
            },
        },
    }
}

/// Why the logs in use are not followed, where a follower refuses the round over them. The first of them lies on this device.
pub(crate) fn of_round(no: FollowNo, head: u8) -> LogsNo
    requires { head + log_refused no < 256 }
    ensures { (before lists : List (List Record)) → MayBeRead lists → IsNotFollowed before lists no → IsNoRound head before lists result }
{
    match cause_of(no) {
        Some((number, cause)) => LogsNo::Refused {
            log: head + number,
            offset: 0,
            cause,
        },
        None => LogsNo::Memory,
    }
}

/// The log in use that the answer names, and the cause; `None` where it is want of memory.
fn cause_of(no: FollowNo) -> Option<(u8, LogCause)>
    ensures { IfSome result (λ x. (x.0 ≡ log_refused no)
        × ((before lists : List (List Record)) → MayBeRead lists → IsNotFollowed before lists no → IsRoundCause before lists x.0 x.1)) }
{
    match no {
        FollowNo::Back { log } => Some((log, LogCause::Back)),
        FollowNo::TwoGenesis => Some((0, LogCause::TwoGenesis)),
        FollowNo::LogCount { kept, found } => Some((0, LogCause::LogCount { kept, found })),
        FollowNo::Range { key, log } => Some((log, LogCause::Range { key })),
        FollowNo::Missing { key, log } => Some((log, LogCause::Missing { key })),
        FollowNo::Values {
            key,
            log,
            kept,
            found,
        } => Some((log, LogCause::Values { key, kept, found })),
        FollowNo::Memory => None,
    }
}
