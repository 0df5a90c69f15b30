//! Whether what is committed has all its records.
ghost use Rattle.std.specs.Prelude.{◌≡◌, ℕ, ◌%◌, ◌<◌, List, ◌∷◌, ◌++◌, length, MatchOption, MatchResult};
ghost use Rattle.std.specs.List.{AllByRecursion};
ghost use Rattle.std.specs.List.Sorted.{IsStrictlySortedBy};
ghost use Rattle.snap_base.specs.declared.ids.ActorId.{ActorId};
ghost use Rattle.txn_records.specs.declared.records.Record.{Record};
ghost use Rattle.snap_recover.specs.declared.kinds.Kind.TheVariants as kinds;
ghost use Rattle.snap_recover.specs.Logs.{HasKey, log_of};
ghost use Rattle.snap_recover.specs.Passes.{info_key, part_key, commit_key, pair_cmp, InPair, HasCommitted, HasAllParts, HasInfos, IsLastPlace, TellsActors, MemberWhole, IsLackOf, IsFirstLackOfKind, IsFirstLackOf, AllWhole, IsAllWhole};

use crate::RecoverNo;
use crate::index::Index;
use crate::infos::actors_at;
use crate::kinds::Kind;
use crate::ordered::{has_pair, place_of};
use snap_base::{ActorId, Bid, Sequence, Tid};
use txn_records::{Key, Record};

/// That nothing is lacking of what is in: of the batches, then of the undeclared transactions.
pub(crate) fn check_all(
    logs: &[Sequence<Record>],
    batches: &Index,
    acts: &Index,
) -> Result<(), RecoverNo>
    requires some { 0 < length logs.now }
    requires few { length logs.now < 256 }
    requires batches_committed { HasCommitted kinds.Batch logs.now batches.now.committed.items }
    requires batches_parts { HasAllParts kinds.Batch logs.now batches.now.parts.items }
    requires batches_infos { HasInfos (info_key kinds.Batch) logs.now batches.now.infos.items }
    requires acts_committed { HasCommitted kinds.Act logs.now acts.now.committed.items }
    requires acts_parts { HasAllParts kinds.Act logs.now acts.now.parts.items }
    requires acts_infos { HasInfos (info_key kinds.Act) logs.now acts.now.infos.items }
    ensures { MatchResult result (λ t. IsAllWhole logs.now) (λ no. IsFirstLackOf logs.now no) }
{
    check_kind(
        Kind::Batch,
        logs,
        &batches.committed,
        &batches.parts,
        &batches.infos,
    )?;
    check_kind(Kind::Act, logs, &acts.committed, &acts.parts, &acts.infos)
}

/// That nothing is lacking of what is in of one kind, by the numbers.
fn check_kind(
    kind: Kind,
    logs: &[Sequence<Record>],
    committed: &[u64],
    parts: &[(u64, u16)],
    infos: &[(u64, usize)],
) -> Result<(), RecoverNo>
    requires some { 0 < length logs.now }
    requires few { length logs.now < 256 }
    requires committed { HasCommitted kind logs.now committed.now }
    requires parts { HasAllParts kind logs.now parts.now }
    requires infos { HasInfos (info_key kind) logs.now infos.now }
    ensures { MatchResult result (λ t. AllWhole kind logs.now) (λ no. IsFirstLackOfKind kind logs.now no) }
{
    let mut near = Near { infos: 0, parts: 0 };
    for i in 0..committed.len() {
        check(kind, logs, committed[i], parts, infos, &mut near)?;
    }
    Ok(())
}

/// Where the records of the number before were found, in the lists of places and of parts.
#[derive(Drop)]
struct Near {
    infos: usize,
    parts: usize,
}

/// That nothing is lacking of one that is in.
fn check(
    kind: Kind,
    logs: &[Sequence<Record>],
    number: u64,
    parts: &[(u64, u16)],
    infos: &[(u64, usize)],
    near: &mut Near,
) -> Result<(), RecoverNo>
    requires some { 0 < length logs.now }
    requires few { length logs.now < 256 }
    requires is_in { HasKey (log_of logs.now number) (commit_key kind number) }
    requires parts { HasAllParts kind logs.now parts.now }
    requires infos { HasInfos (info_key kind) logs.now infos.now }
    ensures { MatchResult result (λ t. MemberWhole kind logs.now number) (λ no. IsLackOf kind logs.now number no) }
{
    let count = logs.len() as u64;
    let log = number % count;
    let Some(place) = place_of(infos, number, &mut near.infos) else {
        return Err(RecoverNo::Missing {
            key: key_of_info(kind, number),
            log: log as u8,
        });
    };
    let actors = actors_at(kind, logs[log as usize].as_slice(), place, number);
    if let Some(actor) = first_lacking(actors.as_slice(), number, parts, &mut near.parts) {
        return Err(RecoverNo::Missing {
            key: key_of_part(kind, number, actor),
            log: (actor.0 as u64 % count) as u8,
        });
    }
    Ok(())
}

fn key_of_info(kind: Kind, number: u64) -> Key
    ensures { result ≡ info_key kind number }
{
    match kind {
        Kind::Batch => Key::Info(Bid(number)),
        Kind::Act => Key::Act(Tid(number)),
    }
}

fn key_of_part(kind: Kind, number: u64, actor: ActorId) -> Key
    ensures { result ≡ part_key kind (number, actor.0) }
{
    match kind {
        Kind::Batch => Key::Complete(Bid(number), actor),
        Kind::Act => Key::Prepare(Tid(number), actor),
    }
}

/// The first of the actors that has not done its part.
fn first_lacking(
    actors: &[ActorId],
    number: u64,
    parts: &[(u64, u16)],
    near: &mut usize,
) -> Option<ActorId>
    requires ascend { IsStrictlySortedBy pair_cmp parts.now }
    ensures { MatchOption result (AllByRecursion (λ a. InPair parts.now (number, a.0)) actors.now) (λ a. (front behind : List ActorId) × (actors.now ≡ front ++ a ∷ behind) × AllByRecursion (λ b. InPair parts.now (number, b.0)) front × ¬ InPair parts.now (number, a.0)) }
{
    for actor in actors {
        if !has_pair(parts, (number, actor.0), near) {
            return Some(*actor);
        }
    }
    None
}
