//! Laws of every log: its one reading, and what a crash leaves of an opening, an append, an upgrade and a clearing.
ghost use Rattle.gate_log.specs.LogLaws.{OneReading, OneList, LogAtIsLog, PlacedIsLogAt, DamageIsNoLog, OneDamage, DifferenceIsNoLog, DifferenceIsNoDamage, OneDifference, OpeningAdds, RefusalAdds, OpeningGives, OpeningKeeps, OpeningKeepsFormat, AppendGives, AppendKeeps, AppendKeepsFormat, AppendKeepsMark, UpgradeGives, UpgradeKeeps, MarkedIsSecond, ClearGives, ClearKeeps, ClearKeepsFormat, ClearKeepsMark, BeginningGives, BeginningKeeps, BeginningMakesSecond, BeginningKeepsRecent};

/// Bytes are a log in one way at most: with one closed gate and one list of items.
pub fn one_reading()
    ensures { OneReading }
{}

/// Bytes stand for one list of items at most, also where they are too few to hold an item.
pub fn one_list()
    ensures { OneList }
{}

/// A log stands for its items, whether its closed gate is known or the places of the items too.
pub fn logs_are_lists()
    ensures at { LogAtIsLog }
    ensures placed { PlacedIsLogAt }
{}

/// Damaged bytes are no log.
pub fn damage_is_no_log()
    ensures { DamageIsNoLog }
{}

/// Bytes are damaged at one gate alone.
pub fn one_damage()
    ensures { OneDamage }
{}

/// Bytes that do not begin with the header are no log and are not damaged, and one byte is the first that
/// differs.
pub fn one_difference()
    ensures no_log { DifferenceIsNoLog }
    ensures no_damage { DifferenceIsNoDamage }
    ensures once { OneDifference }
{}

/// What opening does to a device: these operations, or a front of them where it is refused. It loses no item, and leaves the
/// format.
pub fn opening_is_safe()
    ensures adds { OpeningAdds }
    ensures refused { RefusalAdds }
    ensures gives { OpeningGives }
    ensures keeps { OpeningKeeps }
    ensures format { OpeningKeepsFormat }
{}

/// The operations of an append add its items all at once, and leave the format; whatever a crash leaves at any moment of them has the
/// mark from before.
pub fn append_is_whole()
    ensures gives { AppendGives }
    ensures keeps { AppendKeeps }
    ensures format { AppendKeepsFormat }
    ensures mark { AppendKeepsMark }
{}

/// The operations of an upgrade make the log one of format 2. A crash at any moment of them loses no item.
pub fn upgrade_is_safe()
    ensures gives { UpgradeGives }
    ensures keeps { UpgradeKeeps }
    ensures second { MarkedIsSecond }
{}

/// The operations of a clearing leave no item, and the format. A crash at any moment of them leaves all items or none.
pub fn clear_is_safe()
    ensures gives { ClearGives }
    ensures keeps { ClearKeeps }
    ensures format { ClearKeepsFormat }
    ensures mark { ClearKeepsMark }
{}

/// An opening and the upgrade behind it leave the log that was found, in format 2. A crash at any moment of them loses no item, and
/// leaves no log of format 1 with an item, where there was none.
pub fn beginning_is_safe()
    ensures gives { BeginningGives }
    ensures keeps { BeginningKeeps }
    ensures second { BeginningMakesSecond }
    ensures recent { BeginningKeepsRecent }
{}
