//! Which devices hold the logs in use.
ghost use Rattle.std.specs.Prelude.{◌≡◌, ◌<◌};
ghost use Rattle.log_compact.specs.Finding.{lists_at, better, IsHeadIn, IsFoundSet};
ghost use Rattle.log_compact.specs.Sets.{generation_of};

use snap_base::Sequence;
use txn_records::Record;

/// The logs in use: so many devices from the head on, and the generation that the head tells, 0 where it has no checkpoint.
#[derive(Clone, Copy, Debug, PartialEq, Eq)]
pub struct Found {
    /// The device that is the head: 0, 1 or 2.
    pub head: u8,
    /// How many logs there are, as the head's Genesis says.
    pub logs: u8,
    /// The checkpoint's generation, and 0 where there is none.
    pub generation: u64,
}

/// The set of devices that hold these records, one list for each device in their order; `None` where no device is a head.
/// The first two records of each list tell it, so lists that are cut behind these tell the same.
pub fn set_of(lists: &[Sequence<Record>]) -> Option<Found>
    ensures { IsFoundSet (lists_at lists.now) result }
{
    let first = head_at(lists, 0);
    let second = head_at(lists, 1);
    let third = head_at(lists, 2);
    greater(greater(first, second), third)
}

/// The head that this device is, if it is one.
fn head_at(lists: &[Sequence<Record>], device: u8) -> Option<Found>
    requires { device < 3 }
    ensures { IsHeadIn device (lists_at lists.now device) result }
{
    match lists.get(device as usize) {
        Some(records) => head_of(records.as_slice(), device),
        None => None,
    }
}

/// The head that a device with these records is, if it is one.
fn head_of(records: &[Record], device: u8) -> Option<Found>
    requires { device < 3 }
    ensures { IsHeadIn device records.now result }
{
    let Some(Record::Genesis { logs, .. }) = records.get(0) else {
        return None;
    };
    if device != 0 && *logs != device {
        return None;
    }
    Some(Found {
        head: device,
        logs: *logs,
        generation: generation_in(records),
    })
}

/// The generation that the second record tells, and 0 where it is no checkpoint.
fn generation_in(records: &[Record]) -> u64
    ensures { result ≡ generation_of records.now }
{
    match records.get(1) {
        Some(Record::Checkpoint { generation, .. }) => *generation,
        _ => 0,
    }
}

/// The one of two heads with the greater generation, the first one where they are alike.
fn greater(first: Option<Found>, next: Option<Found>) -> Option<Found>
    ensures { result ≡ better first next }
{
    match (first, next) {
        (Some(f), Some(g)) if f.generation < g.generation => Some(g),
        (Some(f), _) => Some(f),
        (None, h) => h,
    }
}
