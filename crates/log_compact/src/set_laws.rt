//! Laws of the logs in use: what tells them, and what the records in front of a log are.
ghost use Rattle.log_compact.specs.Finding.{BegunIsSet, FrontsTell, OneUse};
ghost use Rattle.log_compact.specs.Fronts.{FrontsOfRecords, OneFront};

use crate::laws::one_set;
use gate_log::one_list;
use txn_records::one_record;

/// There is one choice of the logs in use: one head, with its number of logs and its generation.
pub fn one_use()
    ensures { OneUse }
{
    one_set();
}

/// The first two records of each device tell which logs are in use.
pub fn fronts_tell()
    ensures { FrontsTell }
{}

/// Items have one front at most.
pub fn one_front()
    ensures { OneFront }
{
    one_record();
}

/// Of bytes that hold records the first two of these stand in front, and nothing else does.
pub fn fronts_of_records()
    ensures { FrontsOfRecords }
{
    one_front();
    one_list();
}

/// Where no device is a head and device 0 gets a Genesis alone, this is the set: device 0 is the head, of so many logs, and of
/// generation 0. Each other device may hold what it held, or none.
pub fn begun_is_set()
    ensures { BegunIsSet }
{}
