//! The tables. Rows stand apart by `@`, their parts by `|`, and the last part is what is wanted. A `;` ends a line, and in a trace a
//! `,` does.

/// The papers of runs, by number: the settings `batch` and `acts` of the text and what follows its program; the trace; the report.
pub const PAPERS: [(&str, &str, &str); 7] = [
    // 0: an ACT dies, since an older one is in its way
    (
        "16 8|actors 2@actor 0 100@actor 1 50@act 0 move 1 10@act 1 move 0 5",
        "submit 0,submit 1,admit 1,admit 2,ask 1 0,ask 2 1,run 1 0,run 2 1,ask 2 0,finish 2 1,ask 1 1,run 1 1,run 1 0,decide 1,finish 1 0,finish 1 1",
        "tx 0 committed 0.1.1 60;tx 1 died actor 0 older 1 own 2;actor 0 90;actor 1 60;end committed 1 aborted 1 batches 0",
    ),
    // 1: two batches follow one another
    (
        "1 8|actors 1@pact 0 put 1 uses 0:1@pact 0 put 2 uses 0:1",
        "submit 0,submit 1,form 1,form 2,arrive 1 0,arrive 2 0,run 1 0,run 2 0,commit 1,commit 2,settle 1,settle 2",
        "tx 0 committed 1.0.1 1;tx 1 committed 2.0.2 3;actor 0 3;end committed 2 aborted 0 batches 2",
    ),
    // 2: a PACT fails with its batch
    (
        "16 8|actors 3@actor 0 100@actor 1 50@actor 2 7@pact 0 twice 1 uses 0:1 1:1@pact 2 put 5 uses 2:1",
        "submit 0,submit 1,form 1,arrive 1 0,arrive 1 1,arrive 1 2,run 1 0,run 2 2,run 1 1,run 1 0,run 1 1,abort 1,rollback 0,rollback 1,rollback 2",
        "tx 0 batchcode 1 1 1001;tx 1 cascade 1 0;actor 0 100;actor 1 50;actor 2 7;end committed 0 aborted 2 batches 0",
    ),
    // 3: an ACT fails by its own code
    (
        "16 8|actors 2@actor 0 100@actor 1 50@act 0 move 1 300",
        "submit 0,admit 1,ask 1 0,run 1 0,decide 1,finish 1 0",
        "tx 0 code 0.1.1 7;actor 0 100;actor 1 50;end committed 0 aborted 1 batches 0",
    ),
    // 4: two that only read
    (
        "16 8|actors 1@actor 0 100@act 0 peek@act 0 peek",
        "submit 0,submit 1,admit 1,admit 2,ask 1 0,ask 2 0,run 1 0,run 2 0,decide 1,decide 2,finish 1 0,finish 2 0",
        "tx 0 committed 0.1.1 100;tx 1 committed 0.1.2 100;actor 0 100;end committed 2 aborted 0 batches 0",
    ),
    // 5: one that only reads, and one that writes behind it
    (
        "16 8|actors 1@actor 0 100@act 0 peek@act 0 put 5",
        "submit 0,submit 1,admit 1,ask 1 0,run 1 0,decide 1,finish 1 0,admit 2,ask 2 0,run 2 0,decide 2,finish 2 0",
        "tx 0 committed 0.1.1 100;tx 1 committed 0.1.2 105;actor 0 105;end committed 2 aborted 0 batches 0",
    ),
    // 6: the second ACT comes when the first is gone
    (
        "16 1|actors 2@actor 0 100@actor 1 50@act 0 put 0@act 0 put 0",
        "submit 0,submit 1,admit 1,ask 1 0,run 1 0,decide 1,finish 1 0,admit 2,ask 2 0,run 2 0,decide 2,finish 2 0",
        "tx 0 committed 0.1.1 100;tx 1 committed 0.1.2 100;actor 0 100;actor 1 50;end committed 2 aborted 0 batches 0",
    ),
];

/// The number of papers; lines that stand there instead, by `w`, `t` or `r` and the number of a line of the text, the trace or the
/// report, from 1 on, and by `d1` or `d2` for the dividers (`-` of no line at all); and what is wrong then.
pub const CHANGES: &str = "0||ok@1||ok@2||ok@3||ok@4||ok@5||ok@6||ok@\
0|d1=-|Parts@0|d2=-|Parts@0|d2=== trace|Parts@0|t1=== trace|Text 18@0|r5=== report|Trace line 17@\
0|w2=coordinators 9|Text 2@0|w2=coordinators 9;t1=fly 1|Text 2@0|w17=act 2 put 1|Text 17@\
0|t1=fly 1|Trace line 1@0|t12=finish 1|Trace line 12@0|t1=fly 1;r1=migrated 1|Trace line 1@\
0|r1=tx 0 committed 0.256.1 60|Report line 1@0|r1=migrated 1|Report line 1@\
0|t1=submit 1;t2=submit 0|Clause 1 at 0@0|t4=admit 3|Clause 1 at 3@\
0|r5=-|Clause 2 at 5@0|r2=tx 0 committed 0.1.1 60|Clause 2 at 2@0|r5=end committed 1 aborted 1 batches 1|Clause 2 at 5@\
0|r2=tx 1 unsure 0|Clause 2 at 2@0|r1=kept 0.1.1 60|Clause 2 at 1@1|t12=-|Clause 2 at 4@\
0|r1=tx 0 committed 0.1.2 60|Clause 3 at 1@0|r1=tx 0 committed 0.2.1 60|Clause 3 at 1@0|t14=-|Clause 3 at 1@\
1|t9=commit 2;t10=commit 1|Clause 3 at 2@3|r1=tx 0 code 0.0.1 7|Clause 3 at 1@\
0|r1=tx 0 committed 0.1.1 61|Clause 4 at 1@0|r1=tx 0 committed 0.1.1 61;r3=actor 0 91|Clause 4 at 1@\
0|r3=actor 0 90 0|Clause 4 at 3@0|r4=actor 1 61|Clause 4 at 4@3|r1=tx 0 code 0.1.1 8|Clause 4 at 1@\
1|t5=arrive 2 0;t6=arrive 1 0|Clause 5 at 1@4|t5=ask 2 0;t6=ask 1 0|ok@\
0|r2=tx 1 died actor 1 older 1 own 2|Clause 6 at 2@0|r2=tx 1 died actor 0 older 1 own 3|Clause 6 at 2@\
0|r2=tx 1 order before 1 after 1 actor 0|Clause 6 at 2@0|r2=tx 1 cascade 1 0|Clause 6 at 2@\
2|r1=tx 0 batchcode 1 1 1002|Clause 6 at 1@2|r1=tx 0 batchcode 1 2 1001|Clause 6 at 1@2|t12=-|Clause 6 at 1@\
2|r2=tx 1 cascade 1 1|Clause 6 at 2@2|r2=tx 1 cascade 2 0|Clause 6 at 2@\
6|r2=tx 1 died actor 0 older 1 own 2;r5=end committed 1 aborted 1 batches 0|Clause 6 at 2";
