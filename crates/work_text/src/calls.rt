//! The words of a line that calls a method.

ghost use Rattle.std.specs.Prelude.{◌≡◌, ℕ, List, map, Some, IfSome};
ghost use Rattle.snap_base.specs.declared.transactions.Kind as kind;
ghost use Rattle.aml_check.specs.Names.{method_names};
ghost use Rattle.aml_check.specs.Closed.{AreDistinct};
ghost use Rattle.aml_check.specs.Checked.{methods_of};
ghost use Rattle.work_text.specs.Transactions.{kind_word};
ghost use Rattle.work_text.specs.Parts.{IsCall};

use crate::numbers::actor_of;
use aml_check::Checked;
use snap_base::Kind;

// The kind that a word names.
fn kind_of(word: &[u8]) -> Option<Kind>
    ensures found { IfSome result (λ k. word.now ≡ kind_word k) }
    ensures only { (k : kind.Kind) → word.now ≡ kind_word k → result ≡ Some k }
{
    match word {
        b"pact" => Some(Kind::Pact),
        b"act" => Some(Kind::Act),
        _ => None,
    }
}

// The methods of a checked program are told apart by their names.
fn told_apart(program: &Checked)
    ensures { AreDistinct (method_names (methods_of program.now)) }
{
    program.methods();
}

/// The kind, the actor and the method that a line's words call; what the arguments are is left open.
pub(crate) fn call_of(program: &Checked, actors: u16, words: &[&[u8]]) -> Option<(Kind, u16, u16)>
    ensures found { IfSome result (λ c. IsCall (methods_of program.now) actors (map (λ word. word.now) words.now) c.0 c.1 c.2) }
    ensures only { (k : kind.Kind) (actor method : ℕ) → IsCall (methods_of program.now) actors (map (λ word. word.now) words.now) k actor method → result ≡ Some (k, actor, method) }
{
    told_apart(program);
    if words.len() < 3 {
        return None;
    }
    let kind = kind_of(words[0])?;
    let actor = actor_of(words[1], actors)?;
    let method = program.method_named(words[2])?;
    if words.len() - 3 < program.params(method) as usize {
        return None;
    }
    Some((kind, actor, method))
}
