//! Worked rows of the journal and of what stands below it: devices, sources and sinks in memory and as the system has
//! them; the bytes of records and of logs; what opening answers; and what every crash inside an append leaves. Expected
//! values are worked out by hand from the format.
#![tactic(auto)]

#[cfg(test)]
mod bytes;
#[cfg(test)]
mod crashes;
#[cfg(test)]
mod devices;
#[cfg(test)]
mod files;
#[cfg(test)]
mod logs;
#[cfg(test)]
mod record_logs;
#[cfg(test)]
mod records;
#[cfg(test)]
mod rows;
#[cfg(test)]
mod streams;
