//! Which transactions were replied to.
ghost use Rattle.std.specs.Prelude.{◌≡◌, ◌-◌, ◌<◌, ◌^◌, min, true, false, map, take, length, replicate, slice_set, IfOk};
ghost use Rattle.std.specs.List.{list_all};
ghost use Rattle.protocol.specs.Left.{reply_left, total};
ghost use Rattle.batch_table.specs.Listed.{is_unreplied, unreplied_below};

use protocol::unless;
use snap_base::{Memory, TxNo};
use std::alloc::Global;
use std::marker::Model;

/// For each transaction of the text whether it was replied to. Contracts see the list.
#[derive(Drop)]
pub(crate) struct Replies {
    marks: Vec<bool>,
    /// So many transactions, from the first one on, were all replied to.
    replied: usize,
}

impl Model for Replies {
    ghost use Rattle.std.specs.Prelude.{◌≡◌, Bool, true, take, List};
    ghost use Rattle.std.specs.List.{list_all};

    ghost Value = { List Bool };

    ghost view = { λ r. r.marks.items };

    ghost invariant = { λ r. list_all (λ m. m) (take r.replied r.marks.items) ≡ true };
}

impl Replies {
    /// None of so many transactions.
    pub(crate) fn new(alloc: Global, txs: u32) -> Result<Self, Memory>
        ensures { IfOk result (λ r. r ≡ replicate txs false) }
    {
        let marks = vec![in alloc; false; txs as usize]?;
        Ok(Replies { marks, replied: 0 })
    }

    /// Whether the transaction is there, and was not replied to.
    pub(crate) fn is_awaited(&self, tx: TxNo) -> bool
        ensures { result ≡ is_unreplied self.now tx.0 }
    {
        is_awaited(self.marks.as_slice(), tx)
    }

    /// The transaction was replied to.
    pub(crate) fn mark(&mut self, tx: TxNo)
        requires { tx.0 < length self.old }
        ensures { self.new ≡ slice_set self.old tx.0 true }
    {
        self.marks[tx.0 as usize] = true;
        self.replied = end_of_replied(self.marks.as_slice(), self.replied);
    }

    /// How many wait for a reply, and `u64::MAX` where more do.
    pub(crate) fn left(&self) -> u64
        ensures { result ≡ min (total reply_left self.now) (2 ^ 64 - 1) }
    {
        left_of(self.marks.as_slice())
    }

    /// Those below this number that wait for a reply, ascending. It walks them from the first one on that waits.
    pub(crate) fn awaited(&self, alloc: Global, upto: TxNo) -> Result<Vec<TxNo>, Memory>
        ensures { IfOk result (λ txs. map (λ n. n.0) txs.items ≡ unreplied_below upto.0 self.now) }
    {
        awaited_from(alloc, self.marks.as_slice(), self.replied, upto)
    }
}

fn is_awaited(marks: &[bool], tx: TxNo) -> bool
    ensures { result ≡ is_unreplied marks.now tx.0 }
{
    match marks.get(tx.0 as usize) {
        Some(replied) => !*replied,
        None => false,
    }
}

/// How many are not replied to.
fn left_of(marks: &[bool]) -> u64
    ensures { result ≡ min (total reply_left marks.now) (2 ^ 64 - 1) }
{
    let mut left: u64 = 0;
    for replied in marks {
        left = left.saturating_add(unless(*replied, 1));
    }
    left
}

/// How many are replied to, from the first one on, where so many are.
fn end_of_replied(marks: &[bool], least: usize) -> usize
    requires { list_all (λ m. m) (take least marks.now) ≡ true }
    ensures { list_all (λ m. m) (take result marks.now) ≡ true }
{
    let mut end = least;
    while end < marks.len() && marks[end] {
        end += 1;
    }
    end
}

/// Those below a number that wait for a reply, where so many, from the first one on, do not.
#[tactic(auto, using(crate::proofs::Unfinished::unreplied_more))]
fn awaited_from(
    alloc: Global,
    marks: &[bool],
    replied: usize,
    upto: TxNo,
) -> Result<Vec<TxNo>, Memory>
    requires { list_all (λ m. m) (take replied marks.now) ≡ true }
    ensures { IfOk result (λ txs. map (λ n. n.0) txs.items ≡ unreplied_below upto.0 marks.now) }
{
    let mut awaited = Vec::new(alloc);
    let first = replied.min(upto.0 as usize) as u32;
    for n in first..upto.0 {
        if is_awaited(marks, TxNo(n)) {
            awaited.push(TxNo(n))?;
        }
    }
    Ok(awaited)
}
