//! Tables of papers: what is wrong with a text, a trace and a report, or that they are in order; how an input is cut into its
//! parts; and which line of a report is of no form. Expected values are worked out by hand from the rules.
#![tactic(auto)]

#[cfg(test)]
mod papers;
#[cfg(test)]
mod rows;
