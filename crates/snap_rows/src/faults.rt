//! Calls whose source, sinks and devices fail.

/// Runs and recoveries that a call of theirs cuts off. On its own, log 0 with a record takes three calls to recover: its length,
/// a read and a sync, and to upgrade two more, a write and a sync; and an empty log 1 its length, a write and a sync.
pub const CUTS: &str = "\
two in turn|21
tells LogFault { log: 0 }|tx 0 committed 1.0.1 101/tx 1 unsure 0/|
recovers Done|actor 0 101/kept 1.0.1 101/recovered batches 1 acts 0 next 3 3 1/|

two in turn|1
tells LogFault { log: 0 }|tx 0 unsure 0/tx 1 unsure 0/|
recovers Logs { log: 0, offset: 0, cause: NoGenesis }||

two in turn|1 0 0 4
tells LogFault { log: 0 }|tx 0 unsure 0/tx 1 uns|
recovers Logs { log: 0, offset: 0, cause: NoGenesis }||

one on two logs|0 1
tells LogFault { log: 1 }|tx 0 unsure 1/|
recovers Logs { log: 0, offset: 0, cause: NoGenesis }||

each kind on its log|0 8
tells LogFault { log: 1 }|tx 0 unsure 1/tx 1 unsure 1/|
recovers Done|actor 0 0/actor 1 0/recovered batches 0 acts 0 next 2 2 1/|

recover|1 0 1 1 1|genesis:2:100
tells LogFault { log: 0 }||
leaves |

recover|2 0 1 1 1|genesis:2:100
tells LogFault { log: 0 }||
leaves |

recover|3 0 1 1 1|genesis:2:100
tells LogFault { log: 0 }||
leaves |

recover|0 1 1 1 1|genesis:2:100
tells LogFault { log: 1 }||
leaves |

recover|0 2 1 1 1|genesis:2:100
tells LogFault { log: 1 }||
leaves |

recover|0 3 1 1 1|genesis:2:100
tells LogFault { log: 1 }||
leaves |=SNAPLOG2\0

migrate|4|old genesis:1:100
tells LogFault { log: 0 }||1 2 2 2|
leaves |

migrate|5|old genesis:1:100
tells LogFault { log: 0 }||2 2 2 2|
leaves genesis:1:100

migrate|0 4|old genesis:2:1.2|old prepare:1:1:6
tells LogFault { log: 1 }||3 1 2 2|
leaves genesis:2:1.2|

migrate|4|old genesis:2:1.2|old prepare:1:1:6
tells LogFault { log: 0 }||1 1 2 2|
leaves |

migrate|0 0 0 1|old genesis:1:100
tells OutFault||3 2 2 2|
leaves genesis:1:100

deposit|4|commit:1|genesis:1:100,checkpoint:1:2:2:1:1:0:105
tells LogFault { log: 0 }|tx 0 unsure 0/|1 1 2 2|
recovers Done|actor 0 105/recovered batches 1 acts 0 next 2 2 1/|

deposit|0 4||genesis:1:100,checkpoint:1:2:2:1:1:0:105
tells LogFault { log: 1 }|tx 0 unsure 1/|2 1 2 2|
recovers Done|actor 0 105/recovered batches 1 acts 0 next 2 2 1/|

compact|4|genesis:1:100
tells LogFault { log: 0 }||1 6 2 2|
recovers Done|actor 0 100/recovered batches 0 acts 0 next 1 1 1/|

compact|0 4|genesis:1:100
tells LogFault { log: 1 }||1 2 2 2|
recovers Done|actor 0 100/recovered batches 0 acts 0 next 1 1 1/|

compact|0 0 0 1|genesis:1:100
tells OutFault||3 6 2 2|
recovers Done|actor 0 100/recovered batches 0 acts 0 next 1 1 1/|

deposit|4|=SNAPLOG1\0\0
tells LogFault { log: 0 }|tx 0 unsure 0/|1 2 2 2|
leaves |

deposit|5|=SNAPLOG1\0\0
tells LogFault { log: 0 }|tx 0 unsure 0/|2 2 2 2|
leaves =SNAPLOG2\0\0";

/// Runs of which each call of the outside fails in turn, that are stopped at each moment, or that may lack memory.
pub const SWEEPS: &str = "\
a transfer
tells Done|tx 0 committed 1.0.1 80/actor 0 70/actor 1 80/end committed 1 aborted 0 batches 1/|14 2 2 2|
fails at any call
stops at any moment
may lack memory

locked
tells Done|tx 0 committed 0.1.1 80/actor 0 70/actor 1 80/end committed 1 aborted 0 batches 0/|18 2 2 2|
fails at any call
stops at any moment
may lack memory

a failing batch
tells Done|tx 0 committed 1.0.1 101/tx 1 batchcode 2 1 9/tx 2 cascade 2 1/tx 3 cascade 2 1/tx 4 committed 1.1.1 108/actor 0 108/actor 1 100/actor 2 100/end committed 2 aborted 3 batches 1/|
fails at any call
stops at any moment
may lack memory

two logs
tells Done|tx 0 committed 1.0.1 80/actor 0 70/actor 1 80/end committed 1 aborted 0 batches 1/|10 10 2 2|
fails at any call
stops at any moment

marks of both kinds
tells Done|tx 0 committed 2.1.2 95/tx 1 committed 1.0.1 55/tx 2 committed 2.1.1 65/tx 3 committed 2.0.2 61/actor 0 65 3/actor 1 95 12/end committed 4 aborted 0 batches 2/|
fails at any call

marks on two logs
tells Done|tx 0 committed 1.0.1 80/tx 1 committed 1.1.1 75/actor 0 75 1/actor 1 75 2/end committed 2 aborted 0 batches 1/|
fails at any call
stops at any moment

many images
tells Done|tx 0 batchcode 1 1 9/tx 1 cascade 1 0/tx 2 cascade 1 0/tx 3 cascade 1 0/tx 4 cascade 1 0/tx 5 cascade 1 0/tx 6 cascade 1 0/tx 7 cascade 1 0/tx 8 cascade 1 0/tx 9 cascade 1 0/tx 10 cascade 1 0/tx 11 cascade 1 0/tx 12 cascade 1 0/tx 13 cascade 1 0/tx 14 cascade 1 0/tx 15 cascade 1 0/tx 16 cascade 1 0/tx 17 cascade 1 0/tx 18 cascade 1 0/tx 19 cascade 1 0/tx 20 cascade 1 0/tx 21 cascade 1 0/tx 22 cascade 1 0/tx 23 cascade 1 0/tx 24 cascade 1 0/tx 25 cascade 1 0/tx 26 cascade 1 0/tx 27 cascade 1 0/tx 28 cascade 1 0/tx 29 cascade 1 0/tx 30 cascade 1 0/tx 31 cascade 1 0/actor 0 100/end committed 0 aborted 32 batches 0/|10 2 2 2|
leaves genesis:1:100;info:1:0:1,info:2:0:2,info:3:0:3,info:4:0:4,info:5:0:5,info:6:0:6,info:7:0:7,info:8:0:8,info:9:0:9,info:10:0:10,info:11:0:11,info:12:0:12,info:13:0:13,info:14:0:14,info:15:0:15,info:16:0:16,info:17:0:17,info:18:0:18,info:19:0:19,info:20:0:20,info:21:0:21,info:22:0:22,info:23:0:23,info:24:0:24,info:25:0:25,info:26:0:26,info:27:0:27,info:28:0:28,info:29:0:29,info:30:0:30,info:31:0:31,info:32:0:32,complete:1:0:101,complete:2:0:102,complete:3:0:103,complete:4:0:104,complete:5:0:105,complete:6:0:106,complete:7:0:107,complete:8:0:108,complete:9:0:109,complete:10:0:110,complete:11:0:111,complete:12:0:112,complete:13:0:113,complete:14:0:114,complete:15:0:115,complete:16:0:116,complete:17:0:117,complete:18:0:118,complete:19:0:119,complete:20:0:120,complete:21:0:121,complete:22:0:122,complete:23:0:123,complete:24:0:124,complete:25:0:125,complete:26:0:126,complete:27:0:127,complete:28:0:128,complete:29:0:129,complete:30:0:130,complete:31:0:131,complete:32:0:132
may lack memory";
