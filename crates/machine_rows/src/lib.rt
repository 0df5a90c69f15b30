//! The core, stepped by scripts: texts with events in a table, which of them are refused and by which rule, what the machine
//! tells between them and at the end. Expected values are worked out by hand from the event table, or are those of the worked
//! runs that the definitions compute. Beside the core goes one of which each event gets just its footprint, and the list of
//! allowed events is kept from event to event; both have to answer as the core does.
#![tactic(auto)]

#[cfg(test)]
mod acts;
#[cfg(test)]
mod batches;
#[cfg(test)]
mod cascades;
#[cfg(test)]
mod likeness;
#[cfg(test)]
mod rows;
#[cfg(test)]
mod schedules;
#[cfg(test)]
mod stepping;
#[cfg(test)]
mod telling;
#[cfg(test)]
mod texts;
