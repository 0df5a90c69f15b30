//! The place of a method among those of a program.

ghost use Rattle.std.specs.Prelude.{◌≡◌, ℕ, ◌<◌, ◌≢◌, length, IfSome, IfNone, slice_index_or};
ghost use Rattle.aml_tree.specs.declared.trees.Method.{Method};

use aml_tree::Method;

/// The place of the method of a name.
pub fn place_of_method(methods: &[Method<u8, u16>], name: &[u8]) -> Option<usize>
    ensures found { IfSome result (λ k. (k < length methods.now) × ((m : Method ℕ ℕ) → (slice_index_or methods.now k m).name.name ≡ name.now)) }
    ensures none { IfNone result ((k : ℕ) (m : Method ℕ ℕ) → k < length methods.now → (slice_index_or methods.now k m).name.name ≢ name.now) }
{
    for (place, method) in methods.iter().enumerate() {
        if method.name.name.as_slice() == name {
            return Some(place);
        }
    }
    None
}
