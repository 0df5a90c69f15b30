//! Rounds over readings of the logs in use.
ghost use Rattle.std.specs.Prelude.{◌≡◌, ◌+◌, ◌≤◌, length, vec_len, IfErr, IfOk, IsSome, MatchResult};
ghost use Rattle.log_compact.specs.Counts.{CountsBefore};
ghost use Rattle.log_compact.specs.Sets.{IsPointInRange, OfPoint, point_of};
ghost use Rattle.log_opening.specs.Devices.{devices_of};
ghost use Rattle.snap_follow.specs.Rounds.{Following};
ghost use Rattle.log_following.specs.Followed.{AreFollowed, IsFollowNo, TellsFollowed};
ghost use Rattle.log_following.specs.Readings.{AreUntouched};
ghost use Rattle.log_following.specs.Steps.{IsNextRound, IsNoNextRound, IsNoSetOfItems, IsSetOfItems};

use crate::reading::read_all;
use crate::rounds::make_round;
use gate_log::{LogItem, logs_are_lists};
use log_compact::{Counts, Found, counts_with, find, fronts_of_records};
use log_opening::LogsNo;
use log_reading::read_is_opened;
use record_log::{opened_holds, records_are_held};
use snap_base::{Memory, Sequence, State};
use snap_follow::Follower;
use snap_outside::LogDev;
use snap_recover::LogCause;
use std::alloc::Global;

/// What a follower knows of the logs in use.
#[derive(Drop)]
pub struct Followed {
    /// The state of each actor, in the order of their numbers, as the members left it.
    pub states: Sequence<State>,
    /// How many batches are members, with those before the checkpoint.
    pub batches: u64,
    /// How many undeclared transactions are members, with those before the checkpoint.
    pub acts: u64,
}

/// Reads the logs on these devices so many times, at least once, and makes a round of a follower over each reading. The first reading tells
/// which logs are in use: those of the set, and where there is none the refusal is `NoGenesis`, of log 0. In each reading the log of a
/// device is refused as opening refuses it, from device 0 on; then, of those in use, the first that holds an item that is no record; then
/// their checkpoint, where it strays or a number of it is too large; and then the round may refuse them: `Back` is a log that does not
/// begin with what the reading before found in it. A log is named by its device, and where none is to be named it is the head. Whatever
/// the answer is, each device holds what it held: it got no call that changes it.
pub fn follow<D: LogDev>(
    alloc: Global,
    devices: &mut Vec<D>,
    rounds: u16,
) -> Result<Followed, LogsNo>
    requires four { vec_len devices.old ≡ 4 }
    requires some { 1 ≤ rounds }
    ensures followed { IfOk result (λ f. (known : Following) × AreFollowed rounds (devices_of D.told D.faults devices.old.items) known × TellsFollowed known f) }
    ensures actors { IfOk result (λ f. length f.states ≤ 256) }
    ensures refused { IfErr result (λ no. IsFollowNo rounds (devices_of D.told D.faults devices.old.items) (devices_of D.told D.faults devices.new.items) no) }
    ensures untouched { AreUntouched (devices_of D.told D.faults devices.old.items) (devices_of D.told D.faults devices.new.items) }
    ensures four { vec_len devices.new ≡ 4 }
{
    fronts_of_records();
    logs_are_lists();
    opened_holds();
    read_is_opened();
    records_are_held();
    let items = match read_all(alloc, devices) {
        Ok(items) => items,
        Err(no) => return Err(no),
    };
    let set = match set_in(alloc, items.as_slice()) {
        Ok(set) => set,
        Err(no) => return Err(no),
    };
    let Ok(mut follower) = Follower::new(alloc, set.logs) else {
        return Err(LogsNo::Memory);
    };
    let mut counts = match make_round(alloc, items.as_slice(), set, &mut follower) {
        Ok(counts) => counts,
        Err(no) => return Err(no),
    };
    for _round in 1..rounds {
        counts = match read_and_round(alloc, devices, set, &mut follower) {
            Ok(counts) => counts,
            Err(no) => return Err(no),
        };
    }
    told(alloc, counts, &follower)
}

/// The logs in use, of those with these items; where there is no set they are refused.
fn set_in(alloc: Global, items: &[Sequence<LogItem>]) -> Result<Found, LogsNo>
    requires { length items.now ≡ 4 }
    ensures set { MatchResult result (λ set. IsSetOfItems items.now set) (λ no. IsNoSetOfItems items.now no) }
    ensures within { IfOk result (λ set. (1 ≤ set.logs) × (set.head + set.logs ≤ 4)) }
{
    match find(alloc, items) {
        Ok(Some(set)) => Ok(set),
        Ok(None) => Err(LogsNo::Refused {
            log: 0,
            offset: 0,
            cause: LogCause::NoGenesis,
        }),
        Err(Memory) => Err(LogsNo::Memory),
    }
}

/// Reads the logs on these devices, and makes a round over those in use; what was committed before their checkpoint.
fn read_and_round<D: LogDev>(
    alloc: Global,
    devices: &mut Vec<D>,
    set: Found,
    follower: &mut Follower,
) -> Result<Counts, LogsNo>
    requires four { vec_len devices.old ≡ 4 }
    requires within { set.head + set.logs ≤ 4 }
    requires some { 1 ≤ set.logs }
    requires many { length follower.old.before ≡ set.logs }
    ensures round { IfOk result (λ counts. IsNextRound (devices_of D.told D.faults devices.old.items) set.head set.logs follower.old follower.new counts) }
    ensures refused { IfErr result (λ no. (follower.new ≡ follower.old)
        × IsNoNextRound (devices_of D.told D.faults devices.old.items) (devices_of D.told D.faults devices.new.items) set.head set.logs follower.old.before no) }
    ensures untouched { AreUntouched (devices_of D.told D.faults devices.old.items) (devices_of D.told D.faults devices.new.items) }
    ensures four { vec_len devices.new ≡ 4 }
{
    match read_all(alloc, devices) {
        Ok(items) => make_round(alloc, items.as_slice(), set, follower),
        Err(no) => Err(no),
    }
}

/// What the follower knows, where so much was committed before the checkpoint of its last round.
fn told(alloc: Global, counts: Counts, follower: &Follower) -> Result<Followed, LogsNo>
    requires states { IsSome follower.now.states }
    requires counts { CountsBefore follower.now.before counts }
    requires range { OfPoint IsPointInRange (point_of follower.now.before) }
    ensures told { IfOk result (λ f. TellsFollowed follower.now f) }
    ensures memory { IfErr result (λ no. no ≡ LogsNo.Memory) }
{
    let Some(states) = follower.states() else {
        unreachable!();
    };
    let Ok(states) = Vec::from_slice(alloc, states) else {
        return Err(LogsNo::Memory);
    };
    let Counts { batches, acts } = counts_with(counts, follower.members());
    Ok(Followed {
        states: Sequence::from_vec(states),
        batches,
        acts,
    })
}
