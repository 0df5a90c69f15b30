//! What a seed draws.

ghost use Rattle.std.specs.Prelude.{◌≡◌, ℕ, ◌+◌, ◌*◌, ◌<◌, ◌≤◌, ◌^◌};
ghost use Rattle.work_gen.specs.Generated.{word, method_of, other_than, drawn};

use rand_core::utils::NextWord;
use rand_pcg::Pcg32;

/// A method of the program.
#[derive(Clone, Copy)]
pub(crate) enum Method {
    Balance,
    Deposit,
    Savings,
    Amalgamate,
    Check,
}

/// A transaction: its method, the actor that is called, another actor, an amount from 1 to 50, and whether its actors are not
/// declared. A method takes the other actor, the amount, or nothing.
#[derive(Clone, Copy)]
pub(crate) struct Drawn {
    pub(crate) method: Method,
    pub(crate) actor: u16,
    pub(crate) other: u16,
    pub(crate) amount: u16,
    pub(crate) is_act: bool,
}

/// Five words of the seed, from this place on.
fn words_at(seed: u64, first: u64) -> (u32, u32, u32, u32, u32)
    ensures { result ≡ (word seed first, word seed (first + 1), word seed (first + 2), word seed (first + 3), word seed (first + 4)) }
{
    let mut generator = Pcg32::new(seed, 1);
    generator.advance(first);
    let first = generator.next_word();
    let second = generator.next_word();
    let third = generator.next_word();
    let fourth = generator.next_word();
    let fifth = generator.next_word();
    (first, second, third, fourth, fifth)
}

/// The method of a number.
fn method_at(number: u32) -> Method
    ensures { result ≡ method_of number }
{
    match number {
        0 => Method::Balance,
        1 => Method::Deposit,
        2 => Method::Savings,
        3 => Method::Amalgamate,
        _ => Method::Check,
    }
}

/// The actor of a number, where one is left out.
fn other_actor(actor: u16, number: u16) -> u16
    requires { number < 255 }
    ensures { result ≡ other_than actor number }
{
    if actor <= number { number + 1 } else { number }
}

/// What the seed draws for a transaction.
pub(crate) fn draw(seed: u64, place: u32) -> Drawn
    ensures { result ≡ drawn seed place }
{
    let (method, actor, number, amount, act) = words_at(seed, 5 * place as u64);
    let actor = (actor % 256) as u16;
    let number = (number % 255) as u16;
    Drawn {
        method: method_at(method % 5),
        actor,
        other: other_actor(actor, number),
        amount: (1 + amount % 50) as u16,
        is_act: act % 4 == 0,
    }
}
