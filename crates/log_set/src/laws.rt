//! Laws of the machine's records and their keys: public functions with empty bodies, whose contracts are the laws.
ghost use Rattle.log_set.specs.Laws.{KeysOfKinds, ToldOnce};

/// A record is looked up by the key of its kind, and by no other.
pub fn records_have_the_keys_of_their_kinds()
    ensures { KeysOfKinds }
{}

/// Two records of the machine are not told as one.
pub fn records_are_told_once()
    ensures { ToldOnce }
{}
