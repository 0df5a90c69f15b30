//! Runs of texts on empty and on kept logs.

/// The rows of `run`.
pub const RUNS: &str = "\
deposit
tells Done|tx 0 committed 1.0.1 105/actor 0 105/end committed 1 aborted 0 batches 1/|14 2 2 2||
leaves genesis:1:100;info:1:0:1,complete:1:0:105;done:1:105

deposit||=anything!
tells Done|tx 0 committed 1.0.1 105/actor 0 105/end committed 1 aborted 0 batches 1/|14 2 2 2||
leaves genesis:1:100;info:1:0:1,complete:1:0:105;done:1:105

two deposits
tells Done|tx 0 committed 1.0.1 105/tx 1 committed 1.0.2 107/actor 0 107/end committed 2 aborted 0 batches 1/|14 2 2 2||
leaves genesis:1:100;info:1:0:1.2,complete:1:0:107;done:1:105.107

no transaction
tells Done|actor 0 0/actor 1 0 -7/actor 2 0/end committed 0 aborted 0 batches 0/|6 2 2 2||
leaves genesis:1:0.0_-7.0

no transaction||genesis:1:0.0_-7.0
tells Done|actor 0 0/actor 1 0 -7/actor 2 0/end committed 0 aborted 0 batches 0/|1 2 2 2||
leaves |

both signs
tells Done|tx 0 committed 1.0.1 -15/actor 0 0/actor 1 3 8 0 0 0 0 0 0 0 0 0 0 0 0 0 15/end committed 1 aborted 0 batches 1/|14 2 2 2||
leaves genesis:1:0.8_3;info:1:1:1,complete:1:1:3_8_0_0_0_0_0_0_0_0_0_0_0_0_0_15;done:1:-15

another is called
tells Done|tx 0 committed 1.0.1 15/actor 0 15/actor 1 20/actor 2 25/end committed 1 aborted 0 batches 1/|14 2 2 2||
leaves genesis:1:10.20.30;info:1:0.1.2:1,complete:1:0:15,complete:1:1:20,complete:1:2:25;done:1:15

deposit||genesis:1:100;info:1:0:1,complete:1:0:105;commit:1
tells Done|tx 0 committed 2.0.2 110/actor 0 110/end committed 1 aborted 0 batches 1/|9 2 2 2||
leaves genesis:1:100;info:1:0:1,complete:1:0:105;commit:1;info:2:0:2,complete:2:0:110;done:2:110

deposit||genesis:1:100;info:1:0:1,complete:1:0:105
tells Done|tx 0 committed 2.0.2 105/actor 0 105/end committed 1 aborted 0 batches 1/|9 2 2 2||
leaves genesis:1:100;info:1:0:1,complete:1:0:105;info:2:0:2,complete:2:0:105;done:2:105

two of three||genesis:1:10.20.30;info:3:0:6
tells Done|tx 0 committed 4.0.7 35/tx 1 committed 4.0.8 17/actor 0 17/actor 1 20/actor 2 35/end committed 2 aborted 0 batches 1/|9 2 2 2||
leaves genesis:1:10.20.30;info:3:0:6;info:4:0.2:7.8,complete:4:0:17,complete:4:2:35;done:4:35.17

sum beyond
tells Done|tx 0 cascade 1 1/tx 1 batchcode 1 1 1002/actor 0 9223372036854775807/end committed 0 aborted 2 batches 0/|10 2 2 2||
leaves genesis:1:9223372036854775807;info:1:0:1.2,complete:1:0:9223372036854775807

locked
tells Done|tx 0 committed 0.1.1 80/actor 0 70/actor 1 80/end committed 1 aborted 0 batches 0/|18 2 2 2||
leaves genesis:1:100.50;prepare:1:0:70;prepare:1:1:80;actdone:1:0:1:80:0.1

locked||genesis:1:100.50;prepare:1:0:70;prepare:1:1:80;act:1:0:1:0.1
tells Done|tx 0 committed 0.1.2 110/actor 0 40/actor 1 110/end committed 1 aborted 0 batches 0/|13 2 2 2||
leaves genesis:1:100.50;prepare:1:0:70;prepare:1:1:80;act:1:0:1:0.1;prepare:2:0:40;prepare:2:1:110;actdone:2:0:2:110:0.1

too much
tells Done|tx 0 code 0.1.1 7/actor 0 100/actor 1 50/end committed 0 aborted 1 batches 0/|6 2 2 2||
leaves genesis:1:100.50

two logs
tells Done|tx 0 committed 1.0.1 80/actor 0 70/actor 1 80/end committed 1 aborted 0 batches 1/|10 10 2 2||
leaves genesis:2:100.50;complete:1:0:70|info:1:0.1:1,complete:1:1:80;done:1:80

locked on two logs
tells Done|tx 0 committed 0.1.1 80/actor 0 70/actor 1 80/end committed 1 aborted 0 batches 0/|10 10 2 2||
leaves genesis:2:100.50;prepare:1:0:70|prepare:1:1:80;actdone:1:0:1:80:0.1

both kinds on two logs
tells Done|tx 0 committed 1.1.1 85/tx 1 committed 1.0.1 55/actor 0 70/actor 1 85/end committed 2 aborted 0 batches 1/|14 14 2 2||
leaves genesis:2:100.50;prepare:2:0:70;actdone:2:1:1:85:0.1|info:1:1:1,complete:1:1:55;done:1:55;prepare:2:1:85

two logs||genesis:2:100.50;complete:1:0:70|info:1:0.1:1,complete:1:1:80
tells Done|tx 0 committed 2.0.2 80/actor 0 70/actor 1 80/end committed 1 aborted 0 batches 1/|9 5 2 2||
leaves genesis:2:100.50;complete:1:0:70;info:2:0.1:2,complete:2:0:70;done:2:80|info:1:0.1:1,complete:1:1:80;complete:2:1:80

deposit||genesis:1:100;info:1:0:4611686018426339328
tells Logs { log: 0, offset: 0, cause: Spent { number: 4611686018426339329 } }||1 2 2 2|snapper: log 0 at 0: Spent/|
leaves |

deposit||genesis:1:100;info:4611686018426339328:0:1
tells Logs { log: 0, offset: 0, cause: Spent { number: 4611686018426339329 } }||1 2 2 2|snapper: log 0 at 0: Spent/|
leaves |

from 99||genesis:1:100
tells Logs { log: 0, offset: 0, cause: Differs { what: Field { actor: ActorId(0), field: 0 }, kept: 100, text: 99 } }||1 2 2 2|snapper: log 0 at 0: Differs/|
leaves |

two actors||genesis:1:100
tells Logs { log: 0, offset: 0, cause: Differs { what: Actors, kept: 1, text: 2 } }||1 2 2 2|snapper: log 0 at 0: Differs/|
leaves |

two actors||genesis:1:100.50_0_0_0_0_0_0_0_0_0_0_0_0_0_0_-7
tells Logs { log: 0, offset: 0, cause: Differs { what: Field { actor: ActorId(1), field: 15 }, kept: -7, text: 0 } }||1 2 2 2|snapper: log 0 at 0: Differs/|
leaves |

deposit||=SNAPLOG1\0\0
tells Done|tx 0 committed 1.0.1 105/actor 0 105/end committed 1 aborted 0 batches 1/|15 2 2 2||
leaves genesis:1:100;info:1:0:1,complete:1:0:105;done:1:105

deposit||old genesis:1:100
tells Logs { log: 0, offset: 0, cause: OldFormat }||1 2 2 2|snapper: log 0 at 0: OldFormat/|
leaves |

deposit||old x\x04\0\0\0\0\0\0\x01
tells Logs { log: 0, offset: 0, cause: OldFormat }||1 2 2 2|snapper: log 0 at 0: OldFormat/|
leaves |

two logs||x\x04\0\0\0\0\0\0\x01|old commit:1
tells Logs { log: 1, offset: 0, cause: OldFormat }||1 1 2 2|snapper: log 1 at 0: OldFormat/|
leaves |

two logs||old genesis:2:100.50|=SNAPLOG1\0\0
tells Logs { log: 0, offset: 0, cause: OldFormat }||1 3 2 2|snapper: log 0 at 0: OldFormat/|
leaves |=SNAPLOG2\0\0

deposit|||genesis:1:100,checkpoint:1:2:2:1:1:0:105
tells Done|tx 0 committed 2.0.2 110/actor 0 110/end committed 1 aborted 0 batches 1/|2 9 2 2||
leaves |genesis:1:100,checkpoint:1:2:2:1:1:0:105;info:2:0:2,complete:2:0:110;done:2:110

deposit||commit:1|genesis:1:100,checkpoint:1:2:2:1:1:0:105
tells Done|tx 0 committed 2.0.2 110/actor 0 110/end committed 1 aborted 0 batches 1/|3 9 2 2||
recovers Done|actor 0 110/kept 2.0.2 110/recovered batches 2 acts 0 next 3 3 1/|

two logs||genesis:2:100.50|commit:1|genesis:2:100.50,checkpoint:3:2:2:1:1:0:70.80|=SNAPLOG1\0\0
tells Done|tx 0 committed 2.0.2 110/actor 0 40/actor 1 110/end committed 1 aborted 0 batches 1/|3 3 9 7||
recovers Done|actor 0 40/actor 1 110/kept 2.0.2 110/recovered batches 2 acts 0 next 3 3 1/|

two logs||||genesis:2:100.50,checkpoint:3:2:2:1:1:0:70.80|old commit:1
tells Logs { log: 3, offset: 0, cause: OldFormat }||2 2 1 1|snapper: log 3 at 0: OldFormat/|
leaves |

deposit||||genesis:2:100.50
tells Logs { log: 2, offset: 0, cause: LogCount { kept: 2, found: 1 } }||2 2 1 2|snapper: log 2 at 0: LogCount/|
leaves |

from 99|||genesis:1:100
tells Logs { log: 1, offset: 0, cause: Differs { what: Field { actor: ActorId(0), field: 0 }, kept: 100, text: 99 } }||2 1 2 2|snapper: log 1 at 0: Differs/|
leaves |

deposit||genesis:1:100|old commit:1
tells Done|tx 0 committed 1.0.1 105/actor 0 105/end committed 1 aborted 0 batches 1/|9 1 2 2||
leaves genesis:1:100;info:1:0:1,complete:1:0:105;done:1:105|

deposit||genesis:1:100;info:1:0:1,complete:1:0:105;done:1:5.6
tells Logs { log: 0, offset: 0, cause: Values { key: Commit(Bid(1)), kept: 1, found: 2 } }||1 2 2 2|snapper: log 0 at 0: Values/|
leaves |

deposit||=SNAPLOX1\0\0
tells Logs { log: 0, offset: 6, cause: NotALog }||0 0 0 0|snapper: log 0 at 6: NotALog/|
leaves |

deposit||genesis:1:100;info:1:0:1,complete:1:0:105;commit:1-c2
tells Logs { log: 0, offset: 318, cause: Damage }||0 0 0 0|snapper: log 0 at 318: Damage/|
leaves |

deposit||x\x04\0\0\0\0\0\0\x01
tells Logs { log: 0, offset: 23, cause: BadRecord }||1 2 2 2|snapper: log 0 at 23: BadRecord/|
leaves |

deposit||commit:1
tells Logs { log: 0, offset: 0, cause: NoGenesis }||1 2 2 2|snapper: log 0 at 0: NoGenesis/|
leaves |

deposit||genesis:1:100;genesis:1:100
tells Logs { log: 0, offset: 0, cause: TwoGenesis }||1 2 2 2|snapper: log 0 at 0: TwoGenesis/|
leaves |

deposit||genesis:4:100
tells Logs { log: 0, offset: 0, cause: LogCount { kept: 4, found: 1 } }||1 2 2 2|snapper: log 0 at 0: LogCount/|
leaves |

two logs||genesis:2:100.50|genesis:1:1
tells Logs { log: 0, offset: 0, cause: TwoGenesis }||1 1 2 2|snapper: log 0 at 0: TwoGenesis/|
leaves |

two logs||genesis:2:100.50;complete:1:0:70|info:1:0.1:1;commit:1
tells Logs { log: 1, offset: 0, cause: Missing { key: Complete(Bid(1), ActorId(1)) } }||1 1 2 2|snapper: log 1 at 0: Missing/|
leaves |

deposit||genesis:1:100;info:1:2:1
tells Logs { log: 0, offset: 0, cause: Range { key: Info(Bid(1)) } }||1 2 2 2|snapper: log 0 at 0: Range/|
leaves |

empty
tells Input { line: 1, cause: BadHeader }||0 0 0 0|snapper: line 1: BadHeader/|
leaves |

endless
tells Input { line: 0, cause: Limit { which: Input, found: 8388609 } }||0 0 0 0|snapper: line 0: Limit/|
leaves |";
