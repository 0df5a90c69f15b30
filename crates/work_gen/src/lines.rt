//! The line of a transaction.

ghost use Rattle.std.specs.Prelude.{◌≡◌, [], ◌∷◌, ◌++◌, IfOk, codes, string_bytes};
ghost use Rattle.std.specs.Fmt.{decimal};
ghost use Rattle.work_gen.specs.Generated.{name, argument, uses, call, one_use, two_uses, transaction_line};

use crate::draws::{Drawn, Method};
use itoa::Buffer;
use snap_base::Memory;

/// The method's name.
fn name(method: Method) -> &'static str
    ensures { result.now ≡ name method }
{
    match method {
        Method::Balance => "balance",
        Method::Deposit => "deposit",
        Method::Savings => "savings",
        Method::Amalgamate => "amalgamate",
        Method::Check => "check",
    }
}

/// Appends a number.
fn push_number(text: &mut String, number: u16) -> Result<(), Memory>
    ensures { IfOk result (λ u. string_bytes text.new ≡ string_bytes text.old ++ decimal number) }
{
    text.push_str(Buffer::new().format(number))?;
    Ok(())
}

/// Appends the line of an actor, with its end.
pub(crate) fn push_actor(text: &mut String, actor: u16) -> Result<(), Memory>
    ensures { IfOk result (λ u. string_bytes text.new ≡ string_bytes text.old ++ (codes "actor " ++ (decimal actor ++ codes " 1000 1000\n"))) }
{
    text.push_str("actor ")?;
    push_number(text, actor)?;
    text.push_str(" 1000 1000\n")?;
    Ok(())
}

/// Appends the argument, with a blank in front.
fn push_argument(text: &mut String, method: Method, other: u16, amount: u16) -> Result<(), Memory>
    ensures { IfOk result (λ u. string_bytes text.new ≡ string_bytes text.old ++ argument method other amount) }
{
    let number = match method {
        Method::Balance => return Ok(()),
        Method::Amalgamate => other,
        Method::Deposit | Method::Savings | Method::Check => amount,
    };
    text.push(' ')?;
    push_number(text, number)
}

/// Appends the call: the actor, the method's name and the argument, each with a blank in front.
fn push_call(text: &mut String, drawn: Drawn) -> Result<(), Memory>
    ensures { IfOk result (λ u. string_bytes text.new ≡ string_bytes text.old ++ call drawn) }
{
    text.push(' ')?;
    push_number(text, drawn.actor)?;
    text.push(' ')?;
    text.push_str(name(drawn.method))?;
    push_argument(text, drawn.method, drawn.other, drawn.amount)
}

/// Appends one access of an actor, with a blank in front.
fn push_use(text: &mut String, actor: u16) -> Result<(), Memory>
    ensures { IfOk result (λ u. string_bytes text.new ≡ string_bytes text.old ++ one_use actor) }
{
    text.push(' ')?;
    push_number(text, actor)?;
    text.push_str(":1")?;
    Ok(())
}

/// Appends one access of each of two actors, each with a blank in front.
fn push_two_uses(text: &mut String, first: u16, second: u16) -> Result<(), Memory>
    ensures { IfOk result (λ u. string_bytes text.new ≡ string_bytes text.old ++ two_uses first second) }
{
    text.push(' ')?;
    push_number(text, first)?;
    text.push_str(":1 ")?;
    push_number(text, second)?;
    text.push_str(":1")?;
    Ok(())
}

/// Appends the declared actors, each with a blank in front.
fn push_uses(text: &mut String, method: Method, actor: u16, other: u16) -> Result<(), Memory>
    ensures { IfOk result (λ u. string_bytes text.new ≡ string_bytes text.old ++ uses method actor other) }
{
    match method {
        Method::Amalgamate => {
            if actor < other {
                push_two_uses(text, actor, other)
            } else {
                push_two_uses(text, other, actor)
            }
        }
        Method::Balance | Method::Deposit | Method::Savings | Method::Check => push_use(
            text, actor,
        ),
    }
}

/// Appends the line of a transaction, without its end.
fn push_transaction(text: &mut String, drawn: Drawn) -> Result<(), Memory>
    ensures { IfOk result (λ u. string_bytes text.new ≡ string_bytes text.old ++ transaction_line drawn) }
{
    if drawn.is_act {
        text.push_str("act")?;
        return push_call(text, drawn);
    }
    text.push_str("pact")?;
    push_call(text, drawn)?;
    text.push_str(" uses")?;
    push_uses(text, drawn.method, drawn.actor, drawn.other)
}

/// Appends the line of a transaction, with its end.
pub(crate) fn push_line(text: &mut String, drawn: Drawn) -> Result<(), Memory>
    ensures { IfOk result (λ u. string_bytes text.new ≡ string_bytes text.old ++ (transaction_line drawn ++ 10 ∷ [])) }
{
    push_transaction(text, drawn)?;
    text.push('\n')?;
    Ok(())
}
