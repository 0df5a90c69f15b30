//! The answer of wait-die to an ACT that asks for an actor.
ghost use Rattle.std.specs.Prelude.{◌≡◌, nat_lt, if◌then◌else◌, List};
ghost use Rattle.std.specs.Option.{option_map};
ghost use Rattle.protocol.specs.Meant.{tid_number};
ghost use Rattle.protocol.specs.Rivals.{Lock};
ghost use Rattle.protocol.specs.Words.{least_of, least_older};
ghost use Rattle.order_book.specs.Asked.{AreLocksOf, locks_of, wait_die_answer};

use snap_base::Tid;

/// What an ACT is told that asks for an actor.
#[derive(Clone, Copy, Debug, PartialEq, Eq)]
pub enum Answer {
    /// No rival holds the actor or waits for it.
    Free,
    /// It gives way to the oldest of the rivals that are older than itself.
    Die(Tid),
    /// All rivals that hold the actor or wait for it are younger: it waits behind them.
    Wait,
}

/// The answer of wait-die to `me`, where `rivals` has its rivals that hold the actor or wait for it behind the last batch
/// there.
pub fn ask(rivals: &[Tid], me: Tid) -> Answer
    ensures { (locks : List Lock) → AreLocksOf rivals.now locks → result ≡ wait_die_answer (least_older me.0 locks) rivals.now }
{
    match oldest_before(rivals, me) {
        Some(older) => Answer::Die(older),
        None if rivals.is_empty() => Answer::Free,
        None => Answer::Wait,
    }
}

/// The least tid of the rivals that is below this one.
fn oldest_before(rivals: &[Tid], me: Tid) -> Option<Tid>
    ensures { option_map tid_number result ≡ least_older me.0 (locks_of rivals.now) }
{
    let mut least: Option<Tid> = None;
    for t in rivals {
        least = older_of(least, *t, me);
    }
    least
}

/// The less of the least one so far and this one, if it is below `me`.
fn older_of(least: Option<Tid>, t: Tid, me: Tid) -> Option<Tid>
    ensures { option_map tid_number result ≡ (if nat_lt t.0 me.0 then Some (least_of t.0 (option_map tid_number least)) else option_map tid_number least) }
{
    if t.0 < me.0 {
        match least {
            Some(first) if first.0 <= t.0 => Some(first),
            _ => Some(t),
        }
    } else {
        least
    }
}
