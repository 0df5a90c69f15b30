//! What a pass knows, as the rule of the table and contracts name it.
use std::collections::LinkedList;

/// What a pass knows. No value of it is made.
pub struct View<P, E> {
    /// By part, its value where the turn is held.
    pub held: LinkedList<Option<P>>,
    /// By part, how many events were recorded by all when the turn was taken, where it is held.
    pub since: LinkedList<Option<u64>>,
    /// The events that it recorded, each with its number.
    pub entries: LinkedList<(u64, E)>,
    /// How many passes it stands for: 1, more where a closing table joined passes to it, and 0 where it was joined to another.
    pub weight: u64,
    /// How many passes may still be split from it.
    pub splits: u64,
    /// 0, or 1 more than the part whose slot is out.
    pub hand: u64,
    /// How many tries found the turn held.
    pub refusals: u64,
}
