//! What a worker records.
use core_events::Event;

/// What a worker does to the parts that it holds: an event of the machine, with what stands before it; or what stands before
/// it alone, where that met a fault.
#[derive(Clone, Copy, Debug, PartialEq, Eq)]
pub struct Act {
    /// The event that was done, or before which the fault came.
    pub event: Event,
    /// Whether the event happened. Where not, a device failed at the append before a Sync, or the output at the line of a reply.
    pub done: bool,
}
