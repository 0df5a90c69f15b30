//! Transactions under locks.

/// Rows of transactions under locks, in the form that `rows.rt` tells.
pub const ACTS: &str = "\
A transfer under locks. It is not decided before its actors are vouched
1 1 16 8 8 of two: act 0 move 1 30
does submit 0, admit 1, ask 1 0, run 1 0, send 1 0, ask 1 1, run 1 1, send 1 1, take 1 0, run 1 0, end 1 0
refuses 2: prepare 1 99, decide 1
goes on
replies tx 0 committed 0.1.1 80
fields 0: 70 80

An ACT moves more than there is
1 1 16 8 8 of two: act 0 move 1 300
goes on
replies tx 0 code 0.1.1 7
fields 0: 100 50

Two ACTs want each the actor that the other has, and the younger one dies
1 1 16 8 8 of two: act 0 move 1 10, act 1 move 0 5
goes on
replies tx 0 committed 0.1.1 60, tx 1 died actor 0 older 1 own 2
fields 0: 90 60

Wait-die. Who comes to an actor first has it, an older one waits behind it, and a younger one dies of the oldest that is there
1 1 16 8 8 of two: act 0 put 1, act 0 put 2, act 0 put 3, act 0 put 4
does submit 0, submit 1, submit 2, submit 3, admit 1, admit 2, admit 3, admit 4, ask 3 0, ask 2 0
refuses 2: run 2 0
does ask 4 0
replies tx 3 died actor 0 older 2 own 4
does ask 1 0
refuses 2: run 1 0, run 2 0
refuses 1: run 4 0
does run 3 0, end 3 0, prepare 3 0, sync 0, vouch 3 0, decide 3, sync 0, seal 3
refuses 2: run 2 0
does finish 3 0
refuses 2: run 1 0
does run 2 0
goes on
replies tx 0 committed 0.1.3 106, tx 1 committed 0.1.2 105, tx 2 committed 0.1.1 103, tx 3 died actor 0 older 2 own 4
fields 0: 106 50

An ACT stands behind a batch on one actor; the batch arrives behind it on the other, and dooms it
1 1 16 8 8 of two: act 0 move 1 30, pact 0 move 1 5 uses 0:1 1:1
does submit 0, admit 1, ask 1 0, submit 1, form 1, arrive 1 1, run 1 0, send 1 0, ask 1 1, arrive 1 0
replies tx 0 order before 1 after 1 actor 0
goes on
replies tx 0 order before 1 after 1 actor 0, tx 1 committed 1.0.2 55
fields 0: 95 55

An ACT that is doomed is in the way until it has left the actor; then the next one has it at once
1 1 16 8 8 of two: act 0 move 1 30, pact 0 move 1 5 uses 0:1 1:1, act 1 put 7, act 1 put 8
does submit 0, admit 1, ask 1 0, submit 1, form 1, arrive 1 1, run 1 0, send 1 0, ask 1 1, arrive 1 0
replies tx 0 order before 1 after 1 actor 0
does submit 2, submit 3, admit 3, admit 4, ask 3 1
replies tx 0 order before 1 after 1 actor 0, tx 2 died actor 1 older 1 own 3
does finish 1 1, ask 4 1
refuses 2: run 4 1
goes on
replies tx 0 order before 1 after 1 actor 0, tx 1 committed 1.0.2 55, tx 2 died actor 1 older 1 own 3, tx 3 committed 1.1.1 63
fields 0: 95 63

An ACT stands behind another one. The number of that one rises, by it the first one's, which reaches its after number
1 1 16 8 8 of three: act 2 move 1 10, act 1 move 0 5, pact 0 move 2 20 uses 0:1 2:1
does submit 0, submit 1, submit 2, admit 1, admit 2, ask 1 2, ask 2 1, form 1, arrive 1 0, arrive 1 2, run 1 2, send 1 2, ask 1 1, run 2 1, send 2 1, ask 2 0
replies tx 0 order before 1 after 1 actor 0
goes on
replies tx 0 order before 1 after 1 actor 0, tx 1 committed 1.1.1 85, tx 2 committed 1.0.3 120
fields 0: 85 95 120

Two ACTs behind two batches; the one that came with the smaller number takes the greater one over
1 1 1 8 8 of three: pact 1 put 1 uses 1:1, pact 0 put 1 uses 0:1, act 1 move 2 10, act 0 move 2 10
does submit 0, submit 1, submit 2, submit 3, form 1, form 2, admit 3, admit 4, arrive 1 1, arrive 2 0, ask 3 1, ask 4 0, take 1 1, take 2 0, run 1 1, run 2 0, end 1 1, end 2 0, complete 2 0, run 4 0, send 4 0, ask 4 2
goes on
replies tx 0 committed 1.0.1 101, tx 1 committed 2.0.2 101, tx 2 committed 2.1.2 120, tx 3 committed 2.1.1 110
fields 0: 91 91 120

An ACT that failed by its own code has its place all the same: the actor's floor rises to its before number
1 1 16 8 8 of two: pact 0 put 1 uses 0:1, act 0 move 1 300
does submit 0, form 1, arrive 1 0, take 1 0, run 1 0, end 1 0, complete 1 0, submit 1, admit 2, ask 2 0, run 2 0, end 2 0
refuses 3: decide 2
does sync 0, note 1 0, commit 1, sync 0, settle 1, decide 2, finish 2 0
goes on
replies tx 0 committed 1.0.1 101, tx 1 code 1.1.1 7
fields 0: 101 50

An ACT that joins actor 1 before actor 0: its commit record names them in ascending order
1 1 16 8 8 of two: act 1 move 0 5
does submit 0, admit 1, ask 1 1, run 1 1, send 1 1, ask 1 0, run 1 0, send 1 0, take 1 1, run 1 1, end 1 1, prepare 1 0, prepare 1 1, sync 0, vouch 1 0
refuses 2: decide 1
does vouch 1 1, decide 1
goes on
replies tx 0 committed 0.1.1 105
fields 0: 105 45

Two batches arrive behind an ACT. Its after number is the first of them, and stays so
1 1 1 8 8 of two: act 0 move 1 3, pact 0 put 1 uses 0:1, pact 0 put 2 uses 0:1
does submit 0, submit 1, submit 2, admit 1, ask 1 0, form 1, form 2, arrive 1 0, arrive 2 0
goes on
replies tx 0 committed 0.1.1 53, tx 1 committed 1.0.2 98, tx 2 committed 2.0.3 100
fields 0: 100 53

An ACT adds 1 and fails. It keeps nothing, can't be prepared, and the actor has its old state back
1 1 16 8 8 of two: act 0 bad, pact 0 put 5 uses 0:1
does submit 0, submit 1, admit 1, ask 1 0
refuses 1: prepare 1 0
does run 1 0
fields 0: 101
does end 1 0
refuses 1: prepare 1 0
does decide 1, form 1, arrive 1 0, take 2 0
refuses 2: run 2 0
fields 0: 101
does finish 1 0
fields 0: 100
goes on
replies tx 0 code 0.1.1 9, tx 1 committed 1.0.2 105
fields 0: 105 50

An ACT is live until it is finished on all its actors, and not only until it is decided or sealed
1 1 16 8 1 of two: act 0 put 7, act 1 put 7
does submit 0, submit 1, admit 1
refuses 3: admit 2
does ask 1 0, run 1 0, end 1 0, prepare 1 0, sync 0, vouch 1 0, decide 1
refuses 3: admit 2
does sync 0, seal 1
refuses 3: admit 2
does finish 1 0, admit 2
goes on
replies tx 0 committed 0.1.1 107, tx 1 committed 0.1.2 57

An ACT that died at its first actor has none, and makes room at once
1 1 16 8 2 of two: act 0 put 7, act 0 put 8, act 1 put 9
does submit 0, submit 1, submit 2, admit 1, admit 2, ask 1 0
refuses 3: admit 3
does ask 2 0, admit 3
refuses 2: finish 2 0
goes on
replies tx 0 committed 0.1.1 107, tx 1 died actor 0 older 1 own 2, tx 2 committed 0.1.2 59
fields 0: 107 59";
