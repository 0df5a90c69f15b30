//! Rows of calls of the top call: what a run of a text prints and leaves on the logs, record by record, on empty and on kept
//! logs; what logs recover to, and why they are refused; and runs whose source, sinks and devices fail at each call in turn,
//! with every image that a crash then leaves; and compactions, and runs behind them, with every image behind each of their
//! operations. Expected values are worked out from the rules, apart from the code. What the program itself shows, stands in `rows/`.
#![tactic(auto)]

#[cfg(test)]
mod calls;
#[cfg(test)]
mod compactions;
#[cfg(test)]
mod crashes;
#[cfg(test)]
mod cut_offs;
#[cfg(test)]
mod failing;
#[cfg(test)]
mod fakes;
#[cfg(test)]
mod faults;
#[cfg(test)]
mod growing;
#[cfg(test)]
mod logs;
#[cfg(test)]
mod ran;
#[cfg(test)]
mod recoveries;
#[cfg(test)]
mod runs;
#[cfg(test)]
mod stops;
#[cfg(test)]
mod texts;
