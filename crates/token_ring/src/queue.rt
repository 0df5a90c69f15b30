//! What waits at the coordinators, in queues.
ghost use Rattle.std.specs.Prelude.{◌≡◌, ◌+◌, ◌-◌, ◌<◌, ◌≤◌, ◌^◌, min, not, [], ◌∷◌, ◌++◌, map, take, drop, replicate, IfOk, OnOk, OnErr, slice_index_or, length};
ghost use Rattle.std.specs.List.{list_all};
ghost use Rattle.protocol.specs.Left.{busy_from, total};
ghost use Rattle.protocol.specs.Words.{is_empty};
ghost use Rattle.protocol.specs.OnRing.{numbered, joined_at};
ghost use Rattle.protocol.specs.Meant.{batch_pact};
ghost use Rattle.token_ring.specs.Asked.{first_waiting};

use snap_base::{Memory, Tid, TxNo};
use std::alloc::Global;
use std::collections::VecDeque;
use std::marker::Model;

/// The transactions of one kind that wait at a coordinator, in the order in which they came. Contracts
/// see the list of their numbers.
#[derive(Drop)]
pub(crate) struct Queue {
    waiting: VecDeque<u32>,
}

impl Model for Queue {
    ghost use Rattle.std.specs.Prelude.{List, ℕ};

    ghost Value = { List ℕ };

    ghost view = { λ q. q.waiting.items };
}

impl Queue {
    /// A queue with nothing in it. It takes no memory.
    pub fn new(alloc: Global) -> Queue
        ensures { result ≡ [] }
    {
        Queue {
            waiting: VecDeque::new(alloc),
        }
    }

    /// Whether no transaction waits.
    pub fn is_empty(&self) -> bool
        ensures { result ≡ is_empty self.now }
    {
        self.waiting.is_empty()
    }

    /// How many transactions wait.
    pub fn len(&self) -> usize
        ensures { result ≡ length self.now }
    {
        self.waiting.len()
    }

    /// The transaction that came first; `None` where none waits.
    pub fn first(&self) -> Option<TxNo>
        ensures { result ≡ first_waiting self.now }
    {
        match self.waiting.front() {
            None => None,
            Some(tx) => Some(TxNo(*tx)),
        }
    }

    /// A transaction joins at the end. For want of memory the queue stays as it was.
    pub fn join(&mut self, tx: TxNo) -> Result<(), Memory>
        ensures ok { OnOk result (self.new ≡ self.old ++ tx.0 ∷ []) }
        ensures err { OnErr result (self.new ≡ self.old) }
    {
        self.waiting.push_back(tx.0)?;
        Ok(())
    }

    /// The first few leave, or all where there are no more.
    pub fn leave(&mut self, few: usize)
        ensures { self.new ≡ drop few self.old }
    {
        for _left in 0..few {
            self.waiting.pop_front();
        }
    }

    /// The first of them, at most `most`, with the tids from this one on.
    pub fn numbered(&self, alloc: Global, most: u16, tid: u64) -> Result<Vec<(Tid, TxNo)>, Memory>
        requires { tid + most < 2 ^ 64 }
        ensures { IfOk result (λ v. map batch_pact v.items ≡ numbered tid (take most self.now)) }
    {
        let mut pacts = Vec::new(alloc);
        let count = self.waiting.len().min(most as usize);
        for i in 0..count {
            pacts.push((Tid(tid + i as u64), TxNo(self.waiting[i])))?;
        }
        Ok(pacts)
    }
}

/// So many empty queues.
pub(crate) fn empty_queues(alloc: Global, count: u8) -> Result<Vec<Queue>, Memory>
    ensures { IfOk result (λ v. v.items ≡ replicate count []) }
{
    let mut queues = Vec::new(alloc);
    for _made in 0..count {
        queues.push(Queue::new(alloc))?;
    }
    Ok(queues)
}

/// Whether nothing waits in any of them.
pub(crate) fn all_empty(queues: &[Queue]) -> bool
    ensures { result ≡ list_all is_empty queues.now }
{
    for queue in queues {
        if !queue.is_empty() {
            return false;
        }
    }
    true
}

/// Whether something waits in one of them from this place on.
pub(crate) fn is_busy_from(queues: &[Queue], place: usize) -> bool
    requires { place ≤ length queues.now }
    ensures { result ≡ busy_from place queues.now }
{
    !all_empty(&queues[place..])
}

/// How many transactions wait in all of them, and `u64::MAX` where more do.
pub(crate) fn waiting_in(queues: &[Queue]) -> u64
    ensures { result ≡ min (total length queues.now) (2 ^ 64 - 1) }
{
    let mut waiting: u64 = 0;
    for queue in queues {
        waiting = waiting.saturating_add(queue.len() as u64);
    }
    waiting
}

/// A transaction joins the queue at this place. For want of memory all stay as they were.
pub(crate) fn join_at(queues: &mut [Queue], at: usize, tx: TxNo) -> Result<(), Memory>
    requires { at < length queues.old }
    ensures ok { OnOk result (queues.new ≡ joined_at at tx.0 queues.old) }
    ensures err { OnErr result (queues.new ≡ queues.old) }
{
    let queue = &mut queues[at];
    queue.join(tx)
}
