//! Tables with one counter, with two and with the most, and workers in threads.
use crate::counters::{Change, Counter};
use crate::runs::{Told, two_passes, two_workers};
use std::test::Fail;
use turn_table::MOST_PARTS;

/// How many counters a table has; what the first and the last of them end with, where 5 is added to the first and 6 to
/// the last, and 2 moved from one to the other; and the number of the move, where they are two.
const ROWS: [(usize, u64, u64, Option<u64>); 3] = [
    (1, 11, 11, None),
    (2, 3, 8, Some(2)),
    (MOST_PARTS, 3, 8, Some(2)),
];

/// A turn that is held is refused, changes get the numbers from 0 on, and they come out in this order. Each of two workers in
/// threads records ten thousand changes, by turns of one counter and of both at a time, and all of them come out once.
#[test]
fn turns_are_taken_as_the_rows_say(rt: HostRuntime) -> Result<(), Fail> {
    for (count, first, last, third_number) in ROWS {
        assert!(rt; 0 < count && count <= MOST_PARTS);
        let (told, ending) = two_passes(rt.alloc(), count)?;
        let expected = Told {
            free: Some(false),
            first_number: Some(0),
            second_number: Some(1),
            third_number,
        };
        assert_eq!(rt; told, expected, "{count} counters");
        let counters = ending.counters.as_slice();
        assert_eq!(rt; counters.len(), count);
        assert!(rt; counters.first() == Some(&Counter { value: first }));
        assert!(rt; counters.last() == Some(&Counter { value: last }));
        let part = (count - 1) as u64;
        let moved = Change::Move {
            from: 0,
            to: part,
            amount: 2,
        };
        let changes = ending.changes.as_slice();
        let added = [
            Change::Add { part: 0, amount: 5 },
            Change::Add { part, amount: 6 },
        ];
        assert!(rt; changes.starts_with(&added));
        assert_eq!(rt; changes.get(2).copied(), third_number.map(|_| moved));
        assert_eq!(rt; changes.get(3).copied(), None);
    }
    let ending = two_workers(&rt, rt.alloc(), 10_000)?;
    assert_eq!(rt; ending.changes.len(), 20_000);
    let counted = Counter { value: 5_000 };
    assert_eq!(rt; ending.counters.as_slice(), [counted, counted].as_slice());
    Ok(())
}
