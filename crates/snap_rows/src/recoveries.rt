//! What logs recover to, and why they are refused; and what migrating and compacting them leaves.

/// The rows of `recover`, `migrate` and `compact`.
pub const RECOVERIES: &str = "\
recover
tells Logs { log: 0, offset: 0, cause: NoGenesis }||2 2 2 2|
leaves =SNAPLOG2\0

recover||=anything!
tells Logs { log: 0, offset: 0, cause: NoGenesis }||2 2 2 2|
leaves =SNAPLOG2\0

recover||commit:1
tells Logs { log: 0, offset: 0, cause: NoGenesis }||1 2 2 2|
leaves |

recover||genesis:1:1;genesis:1:1
tells Logs { log: 0, offset: 0, cause: TwoGenesis }||1 2 2 2|
leaves |

recover||genesis:1:100|=foreign file
tells Logs { log: 1, offset: 0, cause: NotALog }||1 0 0 0|
leaves |

recover||genesis:1:0.0_-7.0
tells Done|actor 0 0/actor 1 0 -7/actor 2 0/recovered batches 0 acts 0 next 1 1 1/|1 2 2 2|
leaves |

recover||genesis:1:100;info:1:0:1,complete:1:0:105
tells Done|actor 0 100/recovered batches 0 acts 0 next 2 2 1/|1 2 2 2|
leaves |

recover||genesis:1:100;info:1:0:1,complete:1:0:105;done:1:105;info:2:0:2,complete:2:0:110;done:2:-7
tells Done|actor 0 110/kept 1.0.1 105/kept 2.0.2 -7/recovered batches 2 acts 0 next 3 3 1/|1 2 2 2|
leaves |

recover||genesis:1:1.1;info:4:1:7.9;complete:4:1:9;done:4:9.0
tells Done|actor 0 1/actor 1 9/kept 4.0.7 9/kept 4.0.9 0/recovered batches 1 acts 0 next 10 5 1/|1 2 2 2|
leaves |

recover||genesis:1:1;info:4:0:9;complete:4:0:5
tells Done|actor 0 1/recovered batches 0 acts 0 next 10 5 1/|1 2 2 2|
leaves |

recover||genesis:1:1;info:2:0:3;info:2:0:4;commit:2;info:1:0:1;complete:2:0:6;complete:3:0:7;complete:1:0:5;commit:1
tells Done|actor 0 5/kept 1.0.1 unknown/kept 2.0.4 unknown/recovered batches 2 acts 0 next 5 4 1/|1 2 2 2|
leaves |

recover||genesis:1:1;info:4611686018427387904:0:4611686018427387904
tells Done|actor 0 1/recovered batches 0 acts 0 next 4611686018427387905 4611686018427387905 1/|1 2 2 2|
leaves |

recover||genesis:1:1;complete:4611686018427387905:0:0
tells Logs { log: 0, offset: 0, cause: Range { key: Complete(Bid(4611686018427387905), ActorId(0)) } }||1 2 2 2|
leaves |

recover||genesis:1:1.2;commit:1
tells Logs { log: 0, offset: 0, cause: Missing { key: Info(Bid(1)) } }||1 2 2 2|
leaves |

recover||genesis:1:1.2;commit:1;complete:1:5:0
tells Logs { log: 0, offset: 0, cause: Range { key: Complete(Bid(1), ActorId(5)) } }||1 2 2 2|
leaves |

recover||genesis:1:100;prepare:1:0:105
tells Done|actor 0 100/recovered batches 0 acts 0 next 2 1 1/|1 2 2 2|
leaves |

recover||genesis:1:100;prepare:1:0:105;actdone:1:0:1:105:0
tells Done|actor 0 105/kept 0.1.1 105/recovered batches 0 acts 1 next 2 1 2/|1 2 2 2|
leaves |

recover||genesis:1:1;info:1:0:1,complete:1:0:5;done:1:5;prepare:2:0:6;actdone:2:1:1:6:0;info:2:0:3,complete:2:0:9;commit:2
tells Done|actor 0 9/kept 1.0.1 5/kept 1.1.1 6/kept 2.0.3 unknown/recovered batches 2 acts 1 next 4 3 2/|1 2 2 2|
leaves |

recover||genesis:1:1;info:1:0:1,complete:1:0:5;commit:1;prepare:2:0:6;act:2:4:7:0;info:2:0:3,complete:2:0:9
tells Done|actor 0 6/kept 1.0.1 unknown/kept 4.1.7 unknown/recovered batches 1 acts 1 next 4 5 8/|1 2 2 2|
leaves |

recover||genesis:1:1.2;prepare:3:0:7;act:3:2:5:0.1
tells Logs { log: 0, offset: 0, cause: Missing { key: Prepare(Tid(3), ActorId(1)) } }||1 2 2 2|
leaves |

recover||genesis:1:1.2;act:1:0:1:0;commit:2
tells Logs { log: 0, offset: 0, cause: Missing { key: Info(Bid(2)) } }||1 2 2 2|
leaves |

recover||genesis:1:1;act:1:0:4611686018427387905:0
tells Logs { log: 0, offset: 0, cause: Range { key: Act(Tid(1)) } }||1 2 2 2|
leaves |

recover||genesis:1:1;prepare:1:3:0
tells Logs { log: 0, offset: 0, cause: Range { key: Prepare(Tid(1), ActorId(3)) } }||1 2 2 2|
leaves |

recover||genesis:2:1.2;prepare:1:0:5|actdone:1:0:1:-9223372036854775808:0.1;prepare:1:1:6
tells Done|actor 0 5/actor 1 6/kept 0.1.1 -9223372036854775808/recovered batches 0 acts 1 next 2 1 2/|1 1 2 2|
leaves |

recover||genesis:2:1.2;prepare:1:0:5;prepare:1:1:6|act:1:0:1:0.1
tells Logs { log: 1, offset: 0, cause: Missing { key: Prepare(Tid(1), ActorId(1)) } }||1 1 2 2|
leaves |

recover||genesis:2:100
tells Done|actor 0 100/recovered batches 0 acts 0 next 1 1 1/|1 2 2 2|
leaves |=SNAPLOG2\0

recover||genesis:2:1.2;complete:1:0:5;commit:3|info:1:0.1:1;complete:1:1:6;commit:1
tells Done|actor 0 5/actor 1 6/kept 1.0.1 unknown/recovered batches 1 acts 0 next 2 4 1/|1 1 2 2|
leaves |

recover||genesis:2:1.2;complete:1:0:5;info:2:1:2;commit:2|info:1:0:1;commit:1;complete:2:1:6
tells Done|actor 0 5/actor 1 6/kept 1.0.1 unknown/kept 2.0.2 unknown/recovered batches 2 acts 0 next 3 3 1/|1 1 2 2|
leaves |

recover||genesis:2:1.2;complete:1:0:5;info:2:1:2;commit:2|info:1:0:1;commit:1;complete:2:1:6|=foreign file
tells Logs { log: 2, offset: 0, cause: NotALog }||1 1 0 0|
leaves |

recover||genesis:2:1.2;complete:1:0:5;info:2:1:2;commit:2
tells Logs { log: 1, offset: 0, cause: Missing { key: Complete(Bid(2), ActorId(1)) } }||1 2 2 2|
leaves |=SNAPLOG2\0

recover||genesis:2:1.2;complete:1:1:6|info:1:1:1;commit:1
tells Logs { log: 1, offset: 0, cause: Missing { key: Complete(Bid(1), ActorId(1)) } }||1 1 2 2|
leaves |

recover||genesis:3:1|x\x04\0\0\0\0\0\0\x01|=SNAPLOX1\0\0|=foreign file
tells Logs { log: 2, offset: 6, cause: NotALog }||1 1 0 0|
leaves |

recover||genesis:3:1|x\x04\0\0\0\0\0\0\x01
tells Logs { log: 1, offset: 23, cause: BadRecord }||1 1 2 2|
leaves |

recover||genesis:3:1|x\x04\0\0\0\0\0\0\x01||=foreign file
tells Logs { log: 3, offset: 0, cause: NotALog }||1 1 2 0|
leaves |

recover||genesis:3:1|=foreign file
tells Logs { log: 1, offset: 0, cause: NotALog }||1 0 0 0|
leaves |

recover||=SNAPLOG1\x01\0|=foreign file
tells Logs { log: 0, offset: 8, cause: Damage }||0 0 0 0|
leaves |

recover||commit:1-c5
tells Logs { log: 0, offset: 8, cause: Damage }||0 0 0 0|
leaves |

recover||genesis:1:100;info:1:0:1,complete:1:0:105;commit:1-c2
tells Logs { log: 0, offset: 318, cause: Damage }||0 0 0 0|
leaves |

recover||=SNAPLOG3\0\0
tells Logs { log: 0, offset: 0, cause: NoGenesis }||1 2 2 2|
leaves |

recover||=SNAPLOX1\0\0
tells Logs { log: 0, offset: 6, cause: NotALog }||0 0 0 0|
leaves |

recover||x\x04\0\0\0\0\0\0\x01|commit:1
tells Logs { log: 0, offset: 23, cause: BadRecord }||1 1 2 2|
leaves |

recover||genesis:1:100;info:1:0:1.2,complete:1:0:105;done:1:5
tells Logs { log: 0, offset: 0, cause: Values { key: Commit(Bid(1)), kept: 2, found: 1 } }||1 2 2 2|
leaves |

recover||genesis:2:1.2;complete:1:0:5|info:1:0:1;done:1:5.6
tells Logs { log: 1, offset: 0, cause: Values { key: Commit(Bid(1)), kept: 1, found: 2 } }||1 1 2 2|
leaves |

recover||genesis:1:1;info:1:0:1,complete:1:0:5;commit:1;done:1:5
tells Done|actor 0 5/kept 1.0.1 5/recovered batches 1 acts 0 next 2 2 1/|1 2 2 2|
leaves |

recover||genesis:1:100,checkpoint:1:3:3:1:2:0:105
tells Done|actor 0 105/recovered batches 2 acts 0 next 3 3 1/|1 2 2 2|
leaves |

recover||genesis:1:100;checkpoint:2:9:5:4:3:2:105;info:5:0:9,complete:5:0:108;done:5:108;prepare:10:0:107;actdone:10:5:4:107:0
tells Done|actor 0 107/kept 5.0.9 108/kept 5.1.4 107/recovered batches 4 acts 3 next 11 6 5/|1 2 2 2|
leaves |

recover||genesis:2:1.2,checkpoint:1:9:5:4:3:2:5.7|done:5:9
tells Logs { log: 1, offset: 0, cause: Missing { key: Info(Bid(5)) } }||1 1 2 2|
leaves |

recover||genesis:2:1.2,checkpoint:1:9:5:4:3:2:5.7
tells Done|actor 0 5/actor 1 7/recovered batches 3 acts 2 next 9 5 4/|1 2 2 2|
leaves |=SNAPLOG2\0

recover||genesis:1:100;info:1:0:1,complete:1:0:105;done:1:105;checkpoint:1:2:2:1:1:0:105
tells Logs { log: 0, offset: 0, cause: Stray }||1 2 2 2|
leaves |

recover||genesis:1:100;checkpoint:1:2:2:1:1:0:105.7
tells Logs { log: 0, offset: 0, cause: Stray }||1 2 2 2|
leaves |

recover||genesis:2:1.2|checkpoint:1:2:2:1:1:0:1.2
tells Logs { log: 1, offset: 0, cause: Stray }||1 1 2 2|
leaves |

recover||genesis:1:100;checkpoint:1:2:2:1:4611686018427387905:0:105
tells Logs { log: 0, offset: 0, cause: Range { key: Checkpoint } }||1 2 2 2|
leaves |

recover||old genesis:1:100
tells Done|actor 0 100/recovered batches 0 acts 0 next 1 1 1/|1 2 2 2|
leaves |

recover||old genesis:2:1.2;complete:1:0:5;prepare:2:0:7;act:2:1:1:0|info:1:0:1;done:1:-5
tells Done|actor 0 7/actor 1 2/kept 1.0.1 -5/kept 1.1.1 unknown/recovered batches 1 acts 1 next 3 2 2/|1 1 2 2|
leaves |

migrate||old genesis:1:100;info:1:0:1,complete:1:0:105;commit:1
tells Done|migrated 1/|3 2 2 2|
leaves genesis:1:100;info:1:0:1,complete:1:0:105;commit:1

migrate||genesis:1:100
tells Done|migrated 0/|1 2 2 2|
leaves |

migrate||genesis:2:1.2;complete:1:0:5|old info:1:0:1;commit:1
tells Done|migrated 1/|1 3 2 2|
leaves |info:1:0:1;commit:1

migrate||old genesis:2:1.2|old prepare:1:1:6|old commit:1
tells Done|migrated 2/|3 3 1 2|
leaves genesis:2:1.2|prepare:1:1:6

migrate||old genesis:2:1.2|old prepare:1:1:6|=foreign file
tells Logs { log: 2, offset: 0, cause: NotALog }||1 1 0 0|
leaves |

migrate||old genesis:2:100
tells Done|migrated 1/|3 2 2 2|
leaves genesis:2:100|=SNAPLOG2\0

migrate||old genesis:1:100|old commit:1
tells Done|migrated 1/|3 1 2 2|
leaves genesis:1:100

migrate||old commit:1
tells Logs { log: 0, offset: 0, cause: NoGenesis }||1 2 2 2|
leaves |

migrate||old genesis:2:1.2|=SNAPLOG1\0\0-foreign
tells Done|migrated 2/|3 3 2 2|
leaves genesis:2:1.2|=SNAPLOG2\0\0-foreign

migrate||old genesis:1:100;commit:1
tells Logs { log: 0, offset: 0, cause: Missing { key: Info(Bid(1)) } }||1 2 2 2|
leaves |

migrate||commit:1|old genesis:1:100,checkpoint:1:3:3:1:2:0:105
tells Done|migrated 1/|1 3 2 2|
leaves |genesis:1:100,checkpoint:1:3:3:1:2:0:105

recover||commit:1|genesis:1:100,checkpoint:1:3:3:1:2:0:105
tells Done|actor 0 105/recovered batches 2 acts 0 next 3 3 1/|1 1 2 2|
leaves |

recover||genesis:1:100|genesis:1:100,checkpoint:1:3:3:1:2:0:105
tells Done|actor 0 105/recovered batches 2 acts 0 next 3 3 1/|1 1 2 2|
leaves |

recover||genesis:1:100,checkpoint:2:4:4:1:3:0:110|genesis:1:100,checkpoint:1:3:3:1:2:0:105
tells Done|actor 0 110/recovered batches 3 acts 0 next 4 4 1/|1 1 2 2|
leaves |

recover||genesis:1:100|genesis:1:7
tells Done|actor 0 100/recovered batches 0 acts 0 next 1 1 1/|1 1 2 2|
leaves |

recover||genesis:2:1.2|commit:1|genesis:2:1.2,checkpoint:1:9:5:4:3:2:5.7|info:5:1:9;commit:5
tells Logs { log: 3, offset: 0, cause: Missing { key: Complete(Bid(5), ActorId(1)) } }||1 1 1 1|
leaves |

recover||genesis:2:1.2|commit:1|genesis:2:1.2,checkpoint:1:9:5:4:3:2:5.7|info:5:1:9;complete:5:1:8;commit:5
tells Done|actor 0 5/actor 1 8/kept 5.0.9 unknown/recovered batches 4 acts 2 next 10 6 4/|1 1 1 1|
leaves |

recover|||genesis:1:100,checkpoint:1:3:3:1:2:0:105.7
tells Logs { log: 1, offset: 0, cause: Stray }||2 1 2 2|
leaves |

compact||genesis:1:100;info:1:0:1,complete:1:0:105;done:1:105
tells Done|compacted 1/|3 6 2 2|
recovers Done|actor 0 105/recovered batches 1 acts 0 next 2 2 1/|

compact||commit:1|genesis:1:100,checkpoint:1:2:2:1:1:0:105;info:2:0:2,complete:2:0:110;done:2:110
tells Done|compacted 2/|7 3 2 2|
recovers Done|actor 0 110/recovered batches 2 acts 0 next 3 3 1/|

compact||genesis:2:1.2;complete:1:0:5;actdone:2:1:1:9:1|info:1:0:1;done:1:5;prepare:2:1:9
tells Done|compacted 1/|3 3 6 2|
recovers Done|actor 0 5/actor 1 9/recovered batches 1 acts 1 next 3 2 2/|

compact||genesis:2:1.2|commit:1|genesis:2:1.2,checkpoint:1:9:5:4:3:2:5.7|done:5:9
tells Logs { log: 3, offset: 0, cause: Missing { key: Info(Bid(5)) } }||1 1 1 1|
leaves |

compact
tells Logs { log: 0, offset: 0, cause: NoGenesis }||2 2 2 2|
leaves |

compact||old genesis:1:100
tells Logs { log: 0, offset: 0, cause: OldFormat }||1 2 2 2|
leaves |

compact|||old genesis:1:100
tells Logs { log: 1, offset: 0, cause: OldFormat }||2 1 2 2|
leaves |

compact||=SNAPLOG1\0\0|genesis:1:100
tells Done|compacted 1/|7 3 2 2|
recovers Done|actor 0 100/recovered batches 0 acts 0 next 1 1 1/|

compact||genesis:1:1;info:4611686018427387904:0:4611686018427387904
tells Logs { log: 0, offset: 0, cause: Spent { number: 4611686018427387905 } }||1 2 2 2|
leaves |

compact||genesis:3:1
tells Compact { logs: 3 }||1 2 2 2|snapper: compact: 3 logs/|
leaves |

compact||genesis:4:1
tells Compact { logs: 4 }||1 2 2 2|snapper: compact: 4 logs/|
leaves |";
