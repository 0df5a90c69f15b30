//! The rows, in one test: a test costs the prover some ten seconds before its first function.

use crate::{bytes, crashes, devices, files, record_logs, records, streams};
use std::test::Fail;

#[test]
fn journals_and_streams_are_as_their_rows_say(rt: HostRuntime) -> Result<(), Fail> {
    let alloc = rt.alloc();
    assert!(rt; streams::memory_moves_bytes(alloc)?);
    assert!(rt; streams::standard_streams_are_there(&rt)?);
    assert!(rt; devices::keeps_what_a_crash_leaves(alloc)?);
    assert!(rt; devices::stays_where_a_call_fails(alloc)?);
    assert!(rt; files::log_is_read(&rt)?);
    assert!(rt; files::short_file_is_a_fault(&rt)?);
    assert!(rt; files::missing_folder_is_a_fault(&rt)?);
    assert!(rt; files::sink_makes_its_file(&rt)?);
    assert!(rt; bytes::first_group_is_written(alloc)?);
    assert!(rt; bytes::long_groups_are_found(alloc)?);
    assert_eq!(rt; bytes::opened_otherwise(alloc)?, None);
    assert_eq!(rt; crashes::wrong_call(alloc)?, None);
    assert_eq!(rt; records::written_otherwise(alloc)?, None);
    assert!(rt; record_logs::crashes_leave_records(alloc)?);
    assert!(rt; record_logs::bad_records_are_told(alloc)?);
    assert!(rt; record_logs::fault_shuts_the_log(alloc)?);
    Ok(())
}
