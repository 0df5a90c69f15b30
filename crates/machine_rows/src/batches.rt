//! Declared transactions in batches.

/// Rows of declared transactions in batches, in the form that `rows.rt` tells.
pub const BATCHES: &str = "\
A transfer in one batch, by the first allowed event each time
1 1 16 8 8 of two: pact 0 move 1 30 uses 0:1 1:1
picks 0: submit 0, form 1, arrive 1 0, arrive 1 1, take 1 0, run 1 0, send 1 0, take 1 1, run 1 1, send 1 1, take 1 0, run 1 0, end 1 0, complete 1 0, complete 1 1, sync 0, note 1 0, note 1 1, commit 1, sync 0, settle 1, reply 0, trim 1 0, trim 1 1
is quiet
replies tx 0 committed 1.0.1 80
fields 0: 70 80

A PACT leaves a declared actor alone, which closes
1 1 16 8 8 of two: pact 0 put 5 uses 0:1 1:1
picks 0: submit 0, form 1, arrive 1 0, arrive 1 1, take 1 0, run 1 0, end 1 0, close 1 1, complete 1 0, complete 1 1, sync 0, note 1 0, note 1 1, commit 1, sync 0, settle 1, reply 0, trim 1 0, trim 1 1
is quiet
replies tx 0 committed 1.0.1 105
fields 0: 105 50

Two batches on one actor; the second one comes too early, and waits until the first one is complete
1 1 1 8 8 of one: pact 0 put 1 uses 0:1, pact 0 put 2 uses 0:1
does submit 0, submit 1, form 1, form 2
refuses 4: arrive 2 0
fields 0: 0
does arrive 1 0, arrive 2 0, take 1 0, take 2 0
refuses 2: run 2 0, complete 2 0
goes on
is quiet
replies tx 0 committed 1.0.1 1, tx 1 committed 2.0.2 3
fields 0: 3

The same with two coordinators, between which the token goes
2 1 1 8 8 of one: pact 0 put 1 uses 0:1, pact 0 put 2 uses 0:1
picks 0: submit 0, submit 1, form 1, pass 1, form 2
goes on
replies tx 0 committed 1.0.1 1, tx 1 committed 2.0.2 3
fields 0: 3

PACTs wait at one coordinator and ACTs at the other. Only who has the token draws numbers, and the token goes on once that one's queues are empty
2 1 1 8 8 of two: pact 0 put 1 uses 0:1, act 1 put 7, pact 1 put 2 uses 1:1, act 0 put 8
refuses 3: pass 1
does submit 0, submit 1, submit 2, submit 3
refuses 1: submit 4
refuses 2: pass 1
refuses 1: pass 0
refuses 2: admit 1
does form 1
refuses 1: form 1
does form 2, pass 1
refuses 2: form 3
does admit 3, admit 4
refuses 3: pass 0
refuses 1: pass 1
goes on
replies tx 0 committed 1.0.1 101, tx 1 committed 2.1.1 59, tx 2 committed 2.0.2 52, tx 3 committed 1.1.2 109
fields 0: 109 59

Numbers are drawn one after the other behind those of earlier runs, by whoever has the token; those of aborted batches are not drawn again
2 1 2 8 8 of two behind 5 10 3: pact 0 put 1 uses 0:1, act 0 put 7, pact 1 bad uses 1:1, act 1 put 8, pact 0 put 2 uses 0:1, act 1 put 3, pact 1 put 4 uses 1:1
does submit 0, submit 1, submit 2, submit 3, submit 4
refuses 1: form 1, form 10, form 12, admit 1, admit 5, admit 7
does form 11
refuses 1: form 11, admit 6, admit 7
refuses 2: admit 8
does form 12, pass 1
refuses 1: form 12, admit 8, admit 10
refuses 2: form 13
does admit 9, admit 10, arrive 11 1, take 7 1, run 7 1, end 7 1
refuses 2: abort 11
does arrive 11 0, take 6 0, run 6 0, end 6 0, abort 11, submit 5, submit 6
refuses 1: form 11, form 12
does admit 11, pass 0, form 13
replies tx 0 cascade 11 2, tx 2 batchcode 11 4 9, tx 4 cascade 11 2
goes on
replies tx 0 cascade 11 2, tx 1 committed 10.1.4 107, tx 2 batchcode 11 4 9, tx 3 committed 13.1.5 62, tx 4 cascade 11 2, tx 5 died actor 1 older 10 own 11, tx 6 committed 13.0.12 54
fields 0: 107 62

A transfer over two logs: actor 0 writes to log 0, actor 1 and batch 1 to log 1
1 2 16 8 8 of two: pact 0 move 1 30 uses 0:1 1:1
goes on
replies tx 0 committed 1.0.1 80
fields 0: 70 80

A record counts from its Sync on: BatchComplete, BatchInfo, BatchCommit, ActPrepare and ActCommit
1 2 16 8 8 of two: pact 0 put 1 uses 0:1, act 1 put 7
does submit 0, submit 1, form 1, arrive 1 0, take 1 0, run 1 0, end 1 0, complete 1 0
refuses 2: note 1 0
does sync 0, note 1 0
refuses 4: commit 1
does sync 1, commit 1
refuses 2: settle 1
does sync 1, settle 1, admit 2, ask 2 1, run 2 1, end 2 1, prepare 2 1
refuses 2: vouch 2 1
does sync 1, vouch 2 1, decide 2
refuses 2: seal 2
does sync 0, seal 2
refuses 1: sync 0
goes on
replies tx 0 committed 1.0.1 101, tx 1 committed 0.1.1 57

Four logs, and earlier runs that ended with batch 10: ACT 6 stands behind that one. Its actors write to the logs 0 and 1, its commit record is in log 2, and batch 11 is in log 3
1 4 16 8 8 of two behind 5 10 3: act 0 move 1 30, pact 0 put 5 uses 0:1
does submit 0, submit 1, admit 6, ask 6 0
refuses 1: form 1, admit 1
goes on
replies tx 0 committed 10.1.4 80, tx 1 committed 11.0.7 75
fields 0: 75 80

A transaction that comes back to an actor keeps the image of its first run there
1 1 16 8 8 of two: pact 0 move 1 30 uses 0:1 1:1
does submit 0, form 1, arrive 1 0, arrive 1 1, take 1 0, run 1 0, send 1 0, take 1 1, run 1 1, send 1 1, take 1 0, run 1 0
fields 0: 70
goes on
replies tx 0 committed 1.0.1 80

A batch is live until it is trimmed on all its actors
1 1 1 1 8 of two: pact 0 put 1 uses 0:1 1:1, pact 0 put 2 uses 0:1
does submit 0, submit 1, form 1
refuses 3: form 2
does arrive 1 0, arrive 1 1, take 1 0, run 1 0, end 1 0, close 1 1, complete 1 0, complete 1 1, sync 0, note 1 0, note 1 1, commit 1, sync 0, settle 1, trim 1 0
refuses 3: form 2
does trim 1 1, form 2
goes on
replies tx 0 committed 1.0.1 101, tx 1 committed 2.0.2 103

A PACT leaves a declared actor alone. Whoever comes behind it there waits for its Close, which waits for its result
1 1 16 8 8 of two: pact 0 put 5 uses 0:1 1:1, pact 1 put 3 uses 1:1
does submit 0, submit 1, form 1, arrive 1 0, arrive 1 1, take 1 0, take 2 1, run 1 0
refuses 1: close 1 1
refuses 3: run 2 1
does end 1 0
refuses 2: close 1 0
refuses 3: run 2 1, complete 1 1
does close 1 1
refuses 2: close 1 1
does run 2 1, end 2 1, complete 1 1
goes on
replies tx 0 committed 1.0.1 105, tx 1 committed 1.0.2 53
fields 0: 105 53

What is refused before any event
1 1 16 8 8 of two: pact 0 move 1 30 uses 0:1 1:1, act 0 move 1 5
refuses 1: submit 1, submit 2, pass 1, form 2, admit 2, arrive 1 0, ask 1 0, take 1 0, run 1 0, send 1 0, end 1 0, close 1 0, complete 1 0, sync 0, sync 1, note 1 0, commit 1, settle 1, abort 1, rollback 0, rollback 5, dropsub 1 0, dropcontrol 1, prepare 1 0, vouch 1 0, decide 1, seal 1, finish 1 0, reply 2, trim 1 0
refuses 2: form 1, admit 1, reply 0
refuses 3: pass 0
replies

What is refused on the way of a batch and of an ACT behind it
1 1 16 8 8 of two: pact 0 move 1 30 uses 0:1 1:1, act 0 move 1 5
does submit 0, form 1
refuses 1: submit 0
refuses 2: ask 1 0, take 1 0, dropsub 1 0, dropcontrol 1
does arrive 1 0, arrive 1 1
refuses 1: arrive 1 0, run 1 0, send 1 0, end 1 0, ask 1 1, take 1 1
refuses 3: complete 1 0
does take 1 0, run 1 0, send 1 0, take 1 1, run 1 1, send 1 1, take 1 0, run 1 0
refuses 2: commit 1
does end 1 0
refuses 3: commit 1
does complete 1 0
refuses 1: complete 1 0
refuses 2: note 1 0
does complete 1 1, sync 0
refuses 1: sync 0
does note 1 0
refuses 1: note 1 0
refuses 3: commit 1
does note 1 1, commit 1
refuses 1: commit 1, trim 1 0
refuses 2: settle 1, reply 0
does sync 0, settle 1, reply 0, trim 1 0
refuses 1: settle 1, reply 0, trim 1 0
does submit 1, admit 2
refuses 2: take 2 0, dropcontrol 2
does ask 2 0, run 2 0, send 2 0, ask 2 1, run 2 1, send 2 1
refuses 3: ask 2 0
does take 2 0, run 2 0, end 2 0
refuses 1: vouch 2 0, seal 2, finish 2 0
refuses 2: decide 2
does prepare 2 0
refuses 2: prepare 2 0, vouch 2 0
does sync 0, vouch 2 0
refuses 1: vouch 2 0
refuses 2: decide 2
does prepare 2 1, sync 0, vouch 2 1, decide 2
refuses 1: decide 2, finish 2 0
refuses 2: seal 2, reply 1
does sync 0, seal 2, finish 2 0
refuses 1: seal 2
refuses 2: finish 2 0
goes on
replies tx 0 committed 1.0.1 80, tx 1 committed 1.1.1 85
fields 0: 65 85";
