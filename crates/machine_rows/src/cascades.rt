//! Batches that fail, and what they take along.

/// Rows of batches that fail, in the form that `rows.rt` tells.
pub const CASCADES: &str = "\
The second of three batches fails, and takes the third along and an ACT behind it
1 1 1 8 8 of three: pact 0 put 1 uses 0:1, pact 1 bad uses 1:1, pact 2 put 1 uses 2:1, act 2 put 7, act 0 put 7
goes on
replies tx 0 committed 1.0.1 101, tx 1 batchcode 2 1 9, tx 2 cascade 2 1, tx 3 cascade 2 1, tx 4 committed 1.1.1 108
fields 0: 108 100 100

An ACT ran behind a batch that had not run on this actor and is aborted: the actor gets its old state back
1 1 16 8 8 of two: pact 0 bad uses 0:1 1:1, act 1 put 7
does submit 0, submit 1, form 1, admit 2, arrive 1 0, arrive 1 1, take 1 0, run 1 0, end 1 0, close 1 1, complete 1 1, ask 2 1, run 2 1
fields 0: 101 57
does abort 1, rollback 1
fields 0: 101 50
goes on
replies tx 0 batchcode 1 1 9, tx 1 cascade 1 0
fields 0: 100 50

The first of two batches fails before the second one has come anywhere
1 1 1 8 8 of two: pact 0 bad uses 0:1, pact 1 put 1 uses 1:1
does submit 0, submit 1, form 1, form 2, arrive 1 0, take 1 0, run 1 0, end 1 0, abort 1, dropsub 2 1, dropcontrol 2, rollback 0
goes on
replies tx 0 batchcode 1 1 9, tx 1 cascade 1 0
fields 0: 100 50

An after number is forgotten when its batch is aborted, and the ACT is not doomed
1 1 1 8 8 of two: act 0 move 1 3, pact 1 bad uses 0:1 1:1, pact 1 put 1 uses 1:1
does submit 0, submit 1, submit 2, admit 1, ask 1 0, form 1, arrive 1 0, arrive 1 1, take 2 1, run 2 1, end 2 1, abort 1, rollback 0, rollback 1, form 2, arrive 2 1, run 1 0, send 1 0, ask 1 1
replies tx 1 batchcode 1 1 9
goes on
replies tx 0 committed 2.1.1 54, tx 1 batchcode 1 1 9, tx 2 committed 2.0.3 51
fields 0: 97 54

A rollback remembers the batch that was trimmed: the next ACT stands behind it
1 1 1 8 8 of two: pact 0 put 1 uses 0:1, pact 0 bad uses 0:1, act 0 put 7
does submit 0, submit 1, submit 2, form 1, arrive 1 0, take 1 0, run 1 0, end 1 0, complete 1 0, sync 0, note 1 0, commit 1, sync 0, settle 1, trim 1 0, form 2, arrive 2 0, take 2 0, run 2 0, end 2 0
fields 0: 102
does abort 2, rollback 0
fields 0: 101
does admit 3, ask 3 0
goes on
replies tx 0 committed 1.0.1 101, tx 1 batchcode 2 1 9, tx 2 committed 1.1.1 108
fields 0: 108 50

An actor that has not rolled back yet takes neither an ACT nor a batch
1 1 1 8 8 of two: pact 0 bad uses 0:1 1:1, act 1 put 7, pact 1 put 3 uses 1:1
does submit 0, submit 1, submit 2, form 1, arrive 1 0, arrive 1 1, take 1 0, run 1 0, end 1 0, abort 1, admit 2, form 2
refuses 4: ask 2 1
refuses 3: arrive 2 1
does rollback 1
refuses 1: rollback 1
does ask 2 1, arrive 2 1
goes on
replies tx 0 batchcode 1 1 9, tx 1 committed 0.1.1 57, tx 2 committed 2.0.3 60
fields 0: 100 60

The PACT with the greater tid fails first in time. The batch waits for the smaller one, which is blamed
1 1 16 8 8 of two: pact 0 bad uses 0:1, pact 1 bad uses 1:1
does submit 0, submit 1, form 1, arrive 1 0, arrive 1 1, take 1 0, take 2 1, run 2 1, end 2 1
refuses 2: abort 1
does run 1 0, end 1 0
refuses 2: commit 1
does abort 1
goes on
replies tx 0 batchcode 1 1 9, tx 1 cascade 1 0

Three batches fail, one after the other, and take along what is formed behind them. Actor 1, which has not rolled back when the second one fails, rolls back once for two
1 1 1 8 8 of two: pact 0 bad uses 0:1, pact 1 put 1 uses 0:1 1:1, pact 0 bad uses 0:1, pact 0 put 2 uses 0:1 1:1, act 1 put 7, pact 1 bad uses 1:1, pact 1 put 5 uses 1:1
does submit 0, submit 1, submit 2, submit 3, submit 4, submit 5, submit 6, form 1, form 2, arrive 2 1, take 2 1, run 2 1, end 2 1, admit 3, ask 3 1, arrive 1 0, take 1 0, run 1 0, end 1 0, abort 1
replies tx 0 batchcode 1 1 9, tx 1 cascade 1 0, tx 4 cascade 1 0
refuses 2: arrive 2 0
does dropsub 2 0, rollback 0, form 3, arrive 3 0, take 4 0, run 4 0, form 4, end 4 0, abort 3
refuses 2: arrive 4 1
fields 1: 51
does rollback 1
fields 1: 50
refuses 1: rollback 1
does form 5, arrive 5 1, take 6 1, run 6 1, end 6 1, abort 5
goes on
replies tx 0 batchcode 1 1 9, tx 1 cascade 1 0, tx 2 batchcode 3 1 9, tx 3 cascade 3 2, tx 4 cascade 1 0, tx 5 batchcode 5 1 9, tx 6 committed 6.0.7 55
fields 0: 100 55

Two batches and an ACT ran on actor 0 when the first one fails on actor 1. The state before all three comes back, and the ACT is finished on an actor on which it has no entry any more
1 1 16 8 8 of two: pact 0 put 1 uses 0:1, pact 1 bad uses 1:1, pact 0 put 2 uses 0:1, act 0 put 7
does submit 0, submit 1, form 1, submit 2, form 2, submit 3, admit 4, arrive 1 0, arrive 1 1, arrive 2 0, ask 4 0, take 1 0, run 1 0, end 1 0
refuses 1: take 4 0
does take 3 0
refuses 2: run 3 0
does complete 1 0, run 3 0, end 3 0
refuses 2: run 4 0
does complete 2 0, run 4 0
fields 0: 110
does take 2 1, run 2 1, end 2 1
refuses 1: abort 2
does abort 1, rollback 0
fields 0: 100
refuses 1: end 4 0
does finish 4 0
fields 0: 100
refuses 2: finish 4 0
goes on
replies tx 0 cascade 1 1, tx 1 batchcode 1 1 9, tx 2 cascade 1 1, tx 3 cascade 1 1
fields 0: 100 50

Batch 1 fails and takes batch 2 along. Controls of batch 2 run on, and pass the post, until their actors roll back, and no result of theirs is noted
1 1 16 8 8 of three: pact 0 bad uses 0:1, pact 1 move 2 5 uses 1:1 2:1, pact 2 put 4 uses 2:1
does submit 0, form 1, submit 1, submit 2, form 2, arrive 1 0, arrive 2 1, arrive 2 2, take 1 0, take 2 1, take 3 2, run 1 0, end 1 0, abort 1, run 2 1, send 2 1, take 2 2, run 2 2, run 3 2
fields 0: 101 95 109
does end 3 2
refuses 3: complete 2 1
does complete 2 2, sync 0
refuses 1: note 2 2
does send 2 2
refuses 1: dropsub 2 1
does dropcontrol 2
refuses 1: commit 2
does rollback 1, rollback 2
fields 0: 101 100 100
goes on
replies tx 0 batchcode 1 1 9, tx 1 cascade 1 0, tx 2 cascade 1 0
fields 0: 100 100 100";
