//! Where each key stands first.
ghost use Rattle.std.specs.Prelude.{◌≡◌, ◌+◌, ◌<◌, ◌≤◌, if◌then◌else◌, Some, None};
ghost use Rattle.std.specs.Option.{option_or};
ghost use Rattle.std.specs.HashMap.{get, spare};
ghost use Rattle.txn_records.specs.declared.keys.Key.{Key};
ghost use Rattle.log_set.specs.Keys.{is_key, key_eq};

use std::collections::HashMap;
use txn_records::Key as RecordKey;

/// The key stands at this place, unless it stood somewhere before.
pub(crate) fn put_first(places: &mut HashMap<RecordKey, usize>, key: RecordKey, place: usize)
    requires { 0 < spare places.old }
    ensures places { (k : Key) → get key_eq places.new k ≡ option_or (get key_eq places.old k) (if is_key key k then Some place else None) }
    ensures spare { spare places.old ≤ spare places.new + 1 }
{
    if !places.contains_key(&key) {
        let _none = places.insert(key, place);
    }
}
