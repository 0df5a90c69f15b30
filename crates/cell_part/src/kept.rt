//! What is kept in boxes, found by its transaction.
ghost use Rattle.std.specs.Prelude.{◌≡◌, ◌+◌, ◌≤◌, ◌==◌, ℕ, true, not, is_some, filter, find, position, option_copied, vec_len, vec_capacity};

use snap_base::Tid;

/// What is kept of one transaction.
pub(crate) trait Kept {
    ghost number: { Self → ℕ };

    /// The transaction that it is of.
    fn tid(&self) -> Tid
        ensures { result.0 ≡ number self.now };

    fn is_of(&self, t: Tid) -> bool
        ensures { result ≡ (number self.now == t.0) };
}

/// The first that is of this transaction.
pub(crate) fn first_of<T: Kept>(items: &[T], t: Tid) -> Option<&T>
    ensures { option_copied result ≡ find (λ x. T.number x == t.0) items.now }
{
    items.iter().find(|x| x.is_of(t))
}

/// The place of the first that is of this transaction.
fn place_of<T: Kept>(items: &[T], t: Tid) -> Option<usize>
    ensures { result ≡ position (λ x. T.number x == t.0) items.now }
{
    items.iter().position(|x| x.is_of(t))
}

/// Takes out what is of this transaction, and tells the first of it.
pub(crate) fn take_first<T: Kept + Drop>(items: &mut Vec<T>, t: Tid) -> Option<T>
    ensures value { result ≡ find (λ x. T.number x == t.0) items.old.items }
    ensures items { items.new.items ≡ filter (λ x. not (T.number x == t.0)) items.old.items }
    ensures len { vec_len items.new ≤ vec_len items.old }
    ensures fewer { is_some result ≡ true → vec_len items.new + 1 ≤ vec_len items.old }
    ensures capacity { vec_capacity items.new ≡ vec_capacity items.old }
{
    match place_of(items, t) {
        Some(at) => {
            let first = items.remove(at);
            drop_each(items, t);
            Some(first)
        }
        None => None,
    }
}

/// What is of this transaction goes.
pub(crate) fn drop_each<T: Kept + Drop>(items: &mut Vec<T>, t: Tid)
    ensures items { items.new.items ≡ filter (λ x. not (T.number x == t.0)) items.old.items }
    ensures len { vec_len items.new ≤ vec_len items.old }
    ensures capacity { vec_capacity items.new ≡ vec_capacity items.old }
{
    items.retain(|x| !x.is_of(t));
}
