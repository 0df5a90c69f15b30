//! Lines that stand in a work text in place of its own: which limit is passed then, or the work that the text stands for. Rows
//! end with `@`, their parts with `|`.

/// The number of the line that is replaced, what stands in its place, and the line of the fault, which limit, and what is
/// found.
pub const LINE_LIMITS: &str = "\
    2|coordinators 0|2 Coordinators 0@\
    2|coordinators 9|2 Coordinators 9@\
    2|coordinators 18446744073709551615|2 Coordinators 18446744073709551615@\
    3|logs 0|3 Logs 0@\
    3|logs 5|3 Logs 5@\
    4|batch 0|4 Batch 0@\
    4|batch 257|4 Batch 257@\
    4|batch 65537|4 Batch 65537@\
    5|batches 0|5 Batches 0@\
    5|batches 33|5 Batches 33@\
    6|acts 0|6 Acts 0@\
    6|acts 33|6 Acts 33@\
    6|acts 256|6 Acts 256@\
    10|actors 0|10 Actors 0@\
    10|actors 257|10 Actors 257@\
    10|actors 65537|10 Actors 65537@\
    11|actor 0 1 2 3 4 5 6 7 8 9 10 11 12 13 14 15 16 17|11 Fields 17@\
    11|actor 19 0 0 0 0 0 0 0 0 0 0 0 0 0 0 0 0 0 0 0 0|11 Fields 20@\
    12|pact 0 put 5 uses 0:1 1:1 2:1 3:1 4:1 5:1 6:1 7:1 8:1 9:1 10:1 11:1 12:1 13:1 14:1 15:1 16:1|12 Uses 17@\
    12|pact 0 put 5 uses 0:1 1:1 2:1 3:1 4:1 5:1 6:1 7:1 8:1 9:1 10:1 11:1 12:1 13:1 14:1 15:1 16:1 17:1 18:1 19:1|12 Uses 20@\
    12|pact 0 put 5 uses 1:1 2:1 3:1 4:1 5:1 6:1 7:1 8:1 9:1 10:1 11:1 12:1 13:1 14:1 15:1 16:1 17:1|12 Uses 17";

/// The number of a line that is replaced, what stands in its place, once or twice, and the work that the text stands
/// for: its coordinators, logs, transactions of a batch, live batches and live ACTs, and the kinds of its transactions.
pub const WORKS: &str = "\
    1|snapper 1|1 1 16 8 8 Pact@\
    2|coordinators 2|2 1 16 8 8 Pact@\
    2|coordinators 8|8 1 16 8 8 Pact@\
    3|logs 2|1 2 16 8 8 Pact@\
    3|\nlogs 4|1 4 16 8 8 Pact@\
    4|batch 256|1 1 256 8 8 Pact@\
    5|batches 32|1 1 16 32 8 Pact@\
    6|acts 32|1 1 16 8 32 Pact@\
    12|act 0 put 5|1 1 16 8 8 Act@\
    12|# x\n\nact 0 put 5|1 1 16 8 8 Act@\
    12|pact 0 put 5 uses 0:1\nact 0 put 5\nact 0 put 5|1 1 16 8 8 Pact Act Act@\
    2|coordinators 2|3|logs 2|2 2 16 8 8 Pact@\
    2|coordinators 2|12|act 0 put 5|2 1 16 8 8 Act@\
    3|logs 4|12|act 0 put 5|1 4 16 8 8 Act@\
    4|batch 1|12|pact 0 put 5 uses 0:1\n#\npact 0 put 5 uses 0:1|1 1 1 8 8 Pact Pact@\
    4|batch 1|12|pact 0 put 5 uses 0:1\nact 0 put 5|1 1 1 8 8 Pact Act@\
    4|batch 1|12|pact 0 put 5 uses 0:1\npact 0 put 5 uses 0:1\nact 0 put 5|1 1 1 8 8 Pact Pact Act@\
    4|batch 2|12|act 0 put 5\npact 0 put 5 uses 0:1\npact 0 put 5 uses 0:1\npact 0 put 5 uses 0:1|1 1 2 8 8 Act Pact Pact Pact";

/// A line that stands so many times in place of line 12, where a batch may have 256 transactions; what stands behind; and
/// what is wrong first.
pub const TRANSACTIONS: &str = "\
    pact 0 put 5 uses 0:1\n|255|pact 0 put 5 uses 0:1|good@\
    pact 0 put 5 uses 0:1\n|256|pact 0 put 5 uses 0:1|good@\
    pact 0 put 5 uses 0:1\n|19999|pact 0 put 5 uses 0:1|good@\
    pact 0 put 5 uses 0:1\n|19999|pact 0 put 5 uses 1:1|20011 RootNotDeclared@\
    pact 0 put 5 uses 0:1\n|20000|pact 0 put 5 uses 0:1|20012 Transactions 20001@\
    pact 0 put 5 uses 0:1\n|20000|pact 0 put 5 uses 1:1|20012 Transactions 20001@\
    pact 0 put 5 uses 0:1\n|20000|pact 0 put 5 uses 1:1 2:1 3:1 4:1 5:1 6:1 7:1 8:1 9:1 10:1 11:1 12:1 13:1 14:1 15:1 16:1 17:1|20012 Uses 17@\
    pact 0 put 5 uses 0:1\n|20000|pact 0 put uses 0:1|20012 BadTx@\
    pact 0 put 5 uses 0:1\n|20001|pact|20012 Transactions 20001";
