//! First controls of transactions, as the caller's code starts them.
ghost use Rattle.std.specs.Prelude.{◌≡◌, ◌≤◌, ◌<◌, ◌+◌, None, length, map, IfOk};
ghost use Rattle.protocol.specs.Fixed.{Fixed};
ghost use Rattle.protocol.specs.Parts as parts;
ghost use Rattle.protocol.specs.OnPost.{first_control};
ghost use Rattle.protocol.specs.Words.{control_of};
ghost use Rattle.protocol.specs.Meant.{batch_pact, who_meant};
ghost use Rattle.batch_table.specs.Joining.{AllTxsBelow};
ghost use Rattle.post_box.specs.Posting.{control_posted};
ghost use Rattle.core_rows.specs.Begun.{first_message};
ghost use Rattle.core_rows.specs.Showing.{ShowsTxs};
ghost use Rattle.core_rows.specs.Starts.{MayStart, Starts};

use post_box::Post;
use snap_base::{ActorId, Memory, Tid, Tx, TxNo, Who};
use std::alloc::Global;

/// The control of a transaction that begins, and its root, to which it goes.
#[derive(Drop)]
pub struct FirstControl<C> {
    pub tid: Tid,
    pub to: ActorId,
    pub control: C,
}

/// The first control of transaction `n`, which begins with this tid.
pub(crate) fn first_control<C, F: Fn(Tid, &Tx) -> Result<C, Memory>>(
    start: &F,
    txs: &[Tx],
    t: Tid,
    n: TxNo,
) -> Result<FirstControl<C>, Memory>
    requires in_text { n.0 < length txs.now }
    requires may { MayStart (F.pre start.now) txs.now }
    ensures { IfOk result (λ x. (w : Fixed C) (who : parts.Who) → ShowsTxs txs.now w → Starts (F.post start.entry.now) w → first_message who x ≡ first_control w who t.0 n.0) }
{
    let tx = &txs[n.0 as usize];
    let control = start(t, tx)?;
    Ok(FirstControl {
        tid: t,
        to: tx.actor,
        control,
    })
}

/// The first controls of the PACTs, in order.
pub(crate) fn first_controls<C: Drop, F: Fn(Tid, &Tx) -> Result<C, Memory>>(
    alloc: Global,
    start: &F,
    txs: &[Tx],
    pacts: &[(Tid, TxNo)],
) -> Result<Vec<FirstControl<C>>, Memory>
    requires in_text { AllTxsBelow (length txs.now) (map batch_pact pacts.now) }
    requires may { MayStart (F.pre start.now) txs.now }
    ensures { IfOk result (λ v. (w : Fixed C) (who : parts.Who) → ShowsTxs txs.now w → Starts (F.post start.entry.now) w → map (first_message who) v.items ≡ map (λ p. first_control w who p.tid p.tx) (map batch_pact pacts.now)) }
{
    let mut firsts = Vec::with_capacity(alloc, pacts.len())?;
    for pact in pacts {
        firsts.push(first_control(start, txs, pact.0, pact.1)?)?;
    }
    Ok(firsts)
}

/// A first control is posted, for which there is room.
pub(crate) fn post_first<C: Drop>(
    alloc: Global,
    post: &mut Post<C>,
    who: Who,
    first: FirstControl<C>,
)
    requires room { 1 ≤ post.old.spare_controls }
    requires fresh { control_of first.tid.0 post.old.messages.controls ≡ None }
    ensures messages { post.new.messages ≡ control_posted (first_message (who_meant who) first) post.old.messages }
    ensures spare { post.old.spare_controls ≤ post.new.spare_controls + 1 }
{
    let FirstControl { tid, to, control } = first;
    // There is room for it.
    let _posted = post.put_control(alloc, tid, who, to, control);
}
