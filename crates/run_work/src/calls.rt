//! What a call is handed, and what it gives back.
ghost use Rattle.run_work.specs.Calls.{CallState, call_of};

use snap_outside::{LogDev, Sink};
use std::marker::Model;

/// What a call is handed, and what it gives back. A contract sees the devices and the trace themselves, and what the devices, the
/// output and the trace tell.
pub struct Call<D: LogDev, O: Sink, T: Sink> {
    /// The devices on which the logs lie. A run asks for four, whatever the number of its logs.
    pub logs: Vec<D>,
    /// The sink that gets what is printed.
    pub out: O,
    /// The sink that gets a line for each event that was taken, at the end.
    pub trace: T,
}

impl<D: LogDev, O: Sink, T: Sink> Model for Call<D, O, T> {
    ghost Value = { CallState D T };

    ghost view = { λ c. call_of D.LogDev O.Sink T.Sink c.logs c.out c.trace };
}
