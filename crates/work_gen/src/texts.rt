//! The whole text.

ghost use Rattle.std.specs.Prelude.{◌≡◌, ◌≤◌, ◌++◌, IfOk, string_bytes};
ghost use Rattle.snap_work.specs.declared.limits.TheConstants.{MOST_TRANSACTIONS};
ghost use Rattle.work_text.specs.Lines.{text_of};
ghost use Rattle.work_gen.specs.Generated.{head_lines, actor_lines, transaction_lines, generated_text};

use crate::draws::draw;
use crate::lines::{push_actor, push_line};
use snap_base::Memory;
use std::alloc::Global;

/// What stands before the actors' states.
const HEAD: &str =
    "snapper 1\ncoordinators 4\nlogs 2\nbatch 32\nbatches 8\nacts 16\nprogram\nmethod balance() { return f0 + f1; }\nmethod deposit(v) { f0 = f0 + v; return f0; }\nmethod savings(v) { f1 = f1 + v; return f1; }\nmethod amalgamate(b) { let s = f0 + f1; f0 = 0; f1 = 0; let r = call b deposit(s); return r; }\nmethod check(v) { if f0 + f1 < v { f0 = f0 - v - 1; return f0; } f0 = f0 - v; return f0; }\nend\nactors 256\n";

/// The bytes that there is room for at once ahead of the transactions.
const HEAD_ROOM: usize = 8192;

/// The bytes that there is room for at once for the line of a transaction.
const LINE_ROOM: usize = 32;

/// The settings, the program and the number of actors.
fn head() -> &'static str
    ensures { result.now ≡ text_of head_lines }
{
    HEAD
}

/// Appends the actors' lines.
fn push_actors(text: &mut String) -> Result<(), Memory>
    ensures { IfOk result (λ u. string_bytes text.new ≡ string_bytes text.old ++ text_of (actor_lines 256)) }
{
    for actor in 0..256u16 {
        push_actor(text, actor)?;
    }
    Ok(())
}

/// Appends the lines of so many transactions.
fn push_transactions(text: &mut String, n: u32, seed: u64) -> Result<(), Memory>
    ensures { IfOk result (λ u. string_bytes text.new ≡ string_bytes text.old ++ text_of (transaction_lines seed n)) }
{
    for place in 0..n {
        push_line(text, draw(seed, place))?;
    }
    Ok(())
}

/// The text of a work of so many transactions that the seed draws. The only refusal is want of memory.
pub fn generate(alloc: Global, n: u32, seed: u64) -> Result<Vec<u8>, Memory>
    requires { n ≤ MOST_TRANSACTIONS }
    ensures { IfOk result (λ v. v.items ≡ generated_text n seed) }
{
    let mut text = String::with_capacity(alloc, HEAD_ROOM + LINE_ROOM * n as usize)?;
    text.push_str(head())?;
    push_actors(&mut text)?;
    push_transactions(&mut text, n, seed)?;
    Ok(text.into_bytes())
}
