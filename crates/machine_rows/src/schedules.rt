//! Whole schedules of a few seeds.

/// Rows of whole schedules of some seeds, in the form that `rows.rt` tells.
pub const SCHEDULES: &str = "\
A transfer by the first seed
1 1 16 8 8 of two: pact 0 move 1 30 uses 0:1 1:1
picks 1: submit 0, form 1, arrive 1 0, arrive 1 1, take 1 0, run 1 0, send 1 0, take 1 1, sync 0, run 1 1, send 1 1, take 1 0, run 1 0, complete 1 1, end 1 0, complete 1 0, sync 0, note 1 1, note 1 0, commit 1, sync 0, settle 1, trim 1 1, reply 0, trim 1 0
is quiet
replies tx 0 committed 1.0.1 80
fields 0: 70 80

An ACT and a batch meet on two actors. By this seed the ACT stands behind it on one and ahead of it on the other
1 1 16 8 8 of two: act 0 move 1 30, pact 0 move 1 5 uses 0:1 1:1
picks 1: submit 0, admit 1, ask 1 0, submit 1, form 1, run 1 0, arrive 1 0, arrive 1 1, sync 0, take 2 0, send 1 0, ask 1 1, finish 1 0, reply 0, run 2 0, send 2 0, finish 1 1, take 2 1, run 2 1, send 2 1, complete 1 1, sync 0, note 1 1, take 2 0, run 2 0, complete 1 0, sync 0, note 1 0, end 2 0, commit 1, sync 0, settle 1, trim 1 1, reply 1, trim 1 0
is quiet
replies tx 0 order before 1 after 1 actor 1, tx 1 committed 1.0.2 55
fields 0: 95 55

By this one it is ahead on both
1 1 16 8 8 of two: act 0 move 1 30, pact 0 move 1 5 uses 0:1 1:1
picks 7: submit 0, submit 1, admit 1, ask 1 0, form 1, arrive 1 0, take 2 0, sync 0, run 1 0, send 1 0, ask 1 1, arrive 1 1, run 1 1, send 1 1, take 1 0, run 1 0, end 1 0, prepare 1 1, prepare 1 0, sync 0, vouch 1 0, vouch 1 1, decide 1, sync 0, seal 1, reply 0, finish 1 1, finish 1 0, run 2 0, send 2 0, take 2 1, run 2 1, send 2 1, take 2 0, run 2 0, complete 1 0, complete 1 1, sync 0, end 2 0, note 1 0, note 1 1, commit 1, sync 0, settle 1, trim 1 1, trim 1 0, reply 1
is quiet
replies tx 0 committed 0.1.1 80, tx 1 committed 1.0.2 85
fields 0: 65 85

Sixteen transactions of both kinds over three actors, from two coordinators and on two logs. Each kind of event comes, and each kind of verdict
2 2 2 4 4 of three: pact 0 move 1 10 uses 0:1 1:1, act 1 move 2 5, act 0 put 3, pact 2 put 4 uses 1:1 2:1, pact 1 bad uses 0:1 1:1, act 2 move 0 7, act 2 move 1 300, pact 0 put 1 uses 0:1 2:1, act 0 bad, pact 2 move 0 6 uses 0:1 2:1, act 1 move 0 2, act 2 put 9, pact 1 put 8 uses 1:1, pact 2 bad uses 2:1, act 1 put 6, pact 0 move 2 20 uses 0:1 2:1
picks 24: submit 0, form 1, submit 1, pass 1, arrive 1 1, admit 2, arrive 1 0, sync 1, submit 2, submit 3, submit 4, ask 2 1, form 2, arrive 2 1, arrive 2 2, take 3 2, pass 0, form 3, admit 5, arrive 3 0, arrive 3 1, submit 5, sync 1, take 4 1, submit 6, sync 0, ask 5 0, run 3 2, admit 6, complete 2 2, pass 1, submit 7, ask 6 2, end 3 2, submit 8, form 4, sync 0, admit 8, run 6 2, arrive 4 2, take 1 0, end 6 2, arrive 4 0, submit 9, submit 10, close 3 1, submit 11, take 7 0, ask 8 2, run 1 0, note 2 2, submit 12, send 1 0, take 1 1, run 1 1, complete 1 1, run 2 1, send 1 1, sync 1, send 2 1, ask 2 2, finish 2 1, finish 2 2, admit 9, reply 1, take 1 0, ask 9 2, complete 2 1, sync 1, note 2 1, run 1 0, reply 11, complete 1 0, sync 0, submit 13, run 4 1, complete 3 1, sync 1, end 4 1, submit 14, close 4 0, note 1 0, complete 3 0, note 1 1, note 3 1, end 1 0, run 5 0, submit 15, sync 0, end 5 0, commit 1, sync 1, note 3 0, settle 1, commit 2, sync 0, prepare 5 0, trim 1 1, reply 0, trim 1 0, form 5, settle 2, reply 3, trim 2 2, abort 3, form 6, pass 0, reply 7, trim 2 1, reply 9, reply 5, finish 8 2, rollback 1, dropsub 5 0, finish 5 0, rollback 2, reply 4, rollback 0, sync 1, dropsub 5 2, arrive 6 0, arrive 6 2, form 7, decide 6, arrive 7 1, dropcontrol 10, sync 0, admit 14, reply 6, take 13 1, run 13 1, end 13 1, dropcontrol 11, sync 1, admit 15, ask 14 0, finish 6 2, admit 16, complete 7 1, reply 2, ask 16 1, reply 13, ask 15 1, run 16 1, sync 1, note 7 1, end 16 1, prepare 16 1, take 12 0, run 12 0, sync 1, send 12 0, vouch 16 1, take 12 2, run 12 2, complete 6 2, sync 0, note 6 2, send 12 2, take 12 0, run 12 0, complete 6 0, run 14 0, sync 0, end 12 0, end 14 0, note 6 0, commit 6, sync 0, settle 6, trim 6 0, reply 15, decide 14, finish 14 0, commit 7, sync 1, settle 7, reply 8, trim 6 2, reply 12, trim 7 1, decide 16, sync 0, seal 16, finish 16 1, run 15 1, send 15 1, ask 15 0, run 15 0, send 15 0, take 15 1, run 15 1, end 15 1, prepare 15 1, sync 1, prepare 15 0, reply 14, vouch 15 1, sync 0, vouch 15 0, decide 15, sync 1, seal 15, finish 15 1, finish 15 0, reply 10
is quiet
replies tx 0 committed 1.0.1 110, tx 1 order before 4 after 2 actor 2, tx 2 cascade 3 4, tx 3 committed 2.0.3 104, tx 4 batchcode 3 1 9, tx 5 cascade 3 4, tx 6 code 2.1.1 7, tx 7 cascade 3 4, tx 8 code 6.1.2 9, tx 9 cascade 3 4, tx 10 committed 7.1.4 72, tx 11 died actor 2 older 8 own 9, tx 12 committed 7.0.13 118, tx 13 cascade 3 4, tx 14 committed 7.1.3 124, tx 15 committed 6.0.12 124
fields 0: 72 122 124";
