//! The rows, in two tests.
use crate::rounds::{Round, Written, answers_otherwise};
use Written::{
    Act, ActOn, Begin, Checkpoint, Commit, Complete, Done, Genesis, Info, Prepare, PrepareOn,
};
use snap_base::{ActorId, Bid};
use snap_follow::FollowNo;
use std::test::Fail;
use txn_records::Key;

/// One log of two runs: the first batch, and all.
const FIRST: [Written; 4] = [Genesis(1, 100), Info(1), Complete(1, 105), Done(1, 105)];

const BOTH: [Written; 7] = [
    Genesis(1, 100),
    Info(1),
    Complete(1, 105),
    Done(1, 105),
    Info(2),
    Complete(2, 110),
    Commit(2),
];

/// A commit is taken in the round behind the one that read it.
const ONE_ROUND_BEHIND: [Round; 3] = [
    Round {
        lists: &[&FIRST],
        answer: Ok((&[], Some(100))),
    },
    Round {
        lists: &[&BOTH],
        answer: Ok((&[1], Some(105))),
    },
    Round {
        lists: &[&BOTH],
        answer: Ok((&[1, 2], Some(110))),
    },
];

/// The commit is read in one log before the record on which it rests is read in the other.
const PART_LAGS: [Round; 2] = [
    Round {
        lists: &[&[Genesis(2, 7)], &[Info(1), Done(1, 9)]],
        answer: Ok((&[], Some(7))),
    },
    Round {
        lists: &[&[Genesis(2, 7), Complete(1, 8)], &[Info(1), Done(1, 9)]],
        answer: Ok((&[1], Some(8))),
    },
];

/// That record is never written.
const PART_IS_MISSING: [Round; 2] = [
    Round {
        lists: &[&[Genesis(2, 7)], &[Info(1), Done(1, 9)]],
        answer: Ok((&[], Some(7))),
    },
    Round {
        lists: &[&[Genesis(2, 7)], &[Info(1), Done(1, 9)]],
        answer: Err(FollowNo::Missing {
            key: Key::Complete(Bid(1), ActorId(0)),
            log: 0,
        }),
    },
];

/// A log that goes back is refused, and one that goes on from what was read is not.
const GOES_BACK: [Round; 3] = [
    Round {
        lists: &[&FIRST],
        answer: Ok((&[], Some(100))),
    },
    Round {
        lists: &[&[Genesis(1, 100), Info(1), Complete(1, 105)]],
        answer: Err(FollowNo::Back { log: 0 }),
    },
    Round {
        lists: &[&BOTH],
        answer: Ok((&[1], Some(105))),
    },
];

/// Batch 3 is committed and read before the commit of batch 2, on which it rests.
const COMMIT_LAGS: [Round; 3] = [
    Round {
        lists: &[
            &[Genesis(2, 1), Info(2), Complete(2, 2), Complete(3, 3)],
            &[Info(3), Commit(3)],
        ],
        answer: Ok((&[], Some(1))),
    },
    Round {
        lists: &[
            &[
                Genesis(2, 1),
                Info(2),
                Complete(2, 2),
                Complete(3, 3),
                Commit(2),
            ],
            &[Info(3), Commit(3)],
        ],
        answer: Ok((&[], Some(1))),
    },
    Round {
        lists: &[
            &[
                Genesis(2, 1),
                Info(2),
                Complete(2, 2),
                Complete(3, 3),
                Commit(2),
            ],
            &[Info(3), Commit(3)],
        ],
        answer: Ok((&[2, 3], Some(3))),
    },
];

/// The states are the checkpoint's where no member tells others, and no log needs a Genesis at first.
const FROM_A_CHECKPOINT: [Round; 4] = [
    Round {
        lists: &[&[]],
        answer: Ok((&[], None)),
    },
    Round {
        lists: &[&[Genesis(1, 100), Checkpoint(300)]],
        answer: Ok((&[], Some(300))),
    },
    Round {
        lists: &[&[Genesis(1, 100), Checkpoint(300), Prepare(4, 301), Act(4, 0)]],
        answer: Ok((&[], Some(300))),
    },
    Round {
        lists: &[&[Genesis(1, 100), Checkpoint(300), Prepare(4, 301), Act(4, 0)]],
        answer: Ok((&[4], Some(301))),
    },
];

/// Without a Genesis members are taken, too.
const WITHOUT_GENESIS: [Round; 2] = [
    Round {
        lists: &[&[Info(1), Complete(1, 105), Commit(1)]],
        answer: Ok((&[], None)),
    },
    Round {
        lists: &[&[Info(1), Complete(1, 105), Commit(1)]],
        answer: Ok((&[1], None)),
    },
];

/// What is wrong with Genesis or with a number is refused as recovery refuses it.
const BAD_BEGINNINGS: [Round; 3] = [
    Round {
        lists: &[&[Genesis(1, 1), Genesis(1, 1)]],
        answer: Err(FollowNo::TwoGenesis),
    },
    Round {
        lists: &[&[Genesis(2, 1)]],
        answer: Err(FollowNo::LogCount { kept: 2, found: 1 }),
    },
    Round {
        lists: &[&[Genesis(1, 1), Commit(4611686018427387905)]],
        answer: Err(FollowNo::Range {
            key: Key::Commit(Bid(4611686018427387905)),
            log: 0,
        }),
    },
];

/// Two logs of actors 0, 1 and 2: transactions 1 and 2 only read actor 2, transaction 2 reads actor 0, too, and transaction 4 puts 105 there.
const BEHIND_READERS: [Written; 7] = [
    Begin(2, &[100, 0, 7]),
    PrepareOn(1, 2, 7),
    PrepareOn(2, 2, 7),
    PrepareOn(2, 0, 100),
    ActOn(2, &[0, 2]),
    PrepareOn(4, 0, 105),
    ActOn(4, &[0]),
];

/// The commit of transaction 1 is in the other log, and comes late: before it is written,
const READER_NOT_YET: [Round; 2] = [
    Round {
        lists: &[&BEHIND_READERS, &[]],
        answer: Ok((&[], Some(100))),
    },
    Round {
        lists: &[&BEHIND_READERS, &[]],
        answer: Ok((&[2, 4], Some(105))),
    },
];

/// between the two readings, where what came behind it is not lost,
const READER_BETWEEN: [Round; 2] = [
    Round {
        lists: &[&BEHIND_READERS, &[]],
        answer: Ok((&[], Some(100))),
    },
    Round {
        lists: &[&BEHIND_READERS, &[ActOn(1, &[2])]],
        answer: Ok((&[2, 4], Some(105))),
    },
];

/// and behind it.
const READER_BEFORE: [Round; 2] = [
    Round {
        lists: &[&BEHIND_READERS, &[ActOn(1, &[2])]],
        answer: Ok((&[], Some(100))),
    },
    Round {
        lists: &[&BEHIND_READERS, &[ActOn(1, &[2])]],
        answer: Ok((&[1, 2, 4], Some(105))),
    },
];

/// A batch that aborted left 105, transaction 2 puts 105, and transaction 3 adds 5: what an aborted batch left is no state that transaction 2
/// could have left as it was.
const STATE_OF_AN_ABORTED_BATCH: [Round; 3] = [
    Round {
        lists: &[
            &[
                Genesis(2, 100),
                Complete(1, 105),
                Prepare(2, 105),
                Prepare(3, 110),
            ],
            &[Info(1), Act(3, 0)],
        ],
        answer: Ok((&[], Some(100))),
    },
    Round {
        lists: &[
            &[
                Genesis(2, 100),
                Complete(1, 105),
                Prepare(2, 105),
                Prepare(3, 110),
                Act(2, 0),
            ],
            &[Info(1), Act(3, 0)],
        ],
        answer: Ok((&[], Some(100))),
    },
    Round {
        lists: &[
            &[
                Genesis(2, 100),
                Complete(1, 105),
                Prepare(2, 105),
                Prepare(3, 110),
                Act(2, 0),
            ],
            &[Info(1), Act(3, 0)],
        ],
        answer: Ok((&[2, 3], Some(110))),
    },
];

/// Transaction 4 leaves actor 0 as it was, whatever it did on actor 1: it does not hold back transaction 3, which comes behind it on
/// actor 0 alone.
const CHANGED_ANOTHER_ACTOR: [Round; 2] = [
    Round {
        lists: &[
            &[
                Begin(2, &[100, 0]),
                PrepareOn(4, 0, 100),
                PrepareOn(3, 0, 100),
            ],
            &[PrepareOn(2, 1, 5), PrepareOn(4, 1, 5), ActOn(3, &[0])],
        ],
        answer: Ok((&[], Some(100))),
    },
    Round {
        lists: &[
            &[
                Begin(2, &[100, 0]),
                PrepareOn(4, 0, 100),
                PrepareOn(3, 0, 100),
                ActOn(4, &[0, 1]),
            ],
            &[PrepareOn(2, 1, 5), PrepareOn(4, 1, 5), ActOn(3, &[0])],
        ],
        answer: Ok((&[3], Some(100))),
    },
];

/// Transaction 2 leaves the checkpoint's state as it was.
const AS_THE_CHECKPOINT_HAS_IT: [Round; 2] = [
    Round {
        lists: &[
            &[
                Genesis(2, 100),
                Checkpoint(105),
                Prepare(2, 105),
                Prepare(3, 110),
            ],
            &[Act(3, 0)],
        ],
        answer: Ok((&[], Some(105))),
    },
    Round {
        lists: &[
            &[
                Genesis(2, 100),
                Checkpoint(105),
                Prepare(2, 105),
                Prepare(3, 110),
                Act(2, 0),
            ],
            &[Act(3, 0)],
        ],
        answer: Ok((&[3], Some(110))),
    },
];

/// Where no first state is known the first record is a change.
const CHANGE_WITHOUT_GENESIS: [Round; 2] = [
    Round {
        lists: &[&[Prepare(2, 100), Prepare(3, 110)], &[Act(3, 0)]],
        answer: Ok((&[], None)),
    },
    Round {
        lists: &[&[Prepare(2, 100), Prepare(3, 110), Act(2, 0)], &[Act(3, 0)]],
        answer: Ok((&[], None)),
    },
];

#[test]
fn rounds_answer_as_their_rows_say(rt: HostRuntime) -> Result<(), Fail> {
    let alloc = rt.alloc();
    assert_eq!(rt; answers_otherwise(alloc, 1, &ONE_ROUND_BEHIND)?, None);
    assert_eq!(rt; answers_otherwise(alloc, 2, &PART_LAGS)?, None);
    assert_eq!(rt; answers_otherwise(alloc, 2, &PART_IS_MISSING)?, None);
    assert_eq!(rt; answers_otherwise(alloc, 1, &GOES_BACK)?, None);
    assert_eq!(rt; answers_otherwise(alloc, 2, &COMMIT_LAGS)?, None);
    assert_eq!(rt; answers_otherwise(alloc, 1, &FROM_A_CHECKPOINT)?, None);
    assert_eq!(rt; answers_otherwise(alloc, 1, &WITHOUT_GENESIS)?, None);
    assert_eq!(rt; answers_otherwise(alloc, 1, &BAD_BEGINNINGS)?, None);
    Ok(())
}

#[test]
fn who_left_an_actor_as_it_was_holds_nobody_back(rt: HostRuntime) -> Result<(), Fail> {
    let alloc = rt.alloc();
    assert_eq!(rt; answers_otherwise(alloc, 2, &READER_NOT_YET)?, None);
    assert_eq!(rt; answers_otherwise(alloc, 2, &READER_BETWEEN)?, None);
    assert_eq!(rt; answers_otherwise(alloc, 2, &READER_BEFORE)?, None);
    assert_eq!(rt;
        answers_otherwise(alloc, 2, &STATE_OF_AN_ABORTED_BATCH)?,
        None
    );
    assert_eq!(rt; answers_otherwise(alloc, 2, &CHANGED_ANOTHER_ACTOR)?, None);
    assert_eq!(rt;
        answers_otherwise(alloc, 2, &AS_THE_CHECKPOINT_HAS_IT)?,
        None
    );
    assert_eq!(rt; answers_otherwise(alloc, 2, &CHANGE_WITHOUT_GENESIS)?, None);
    Ok(())
}
