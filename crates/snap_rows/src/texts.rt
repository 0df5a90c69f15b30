//! The texts of the rows, and the words of a row. All texts have the same methods.

use snap_base::Memory;
use std::alloc::Global;

/// A text's first lines.
const FRONT: &str = "# a text\nsnapper 1\n\ncoordinators 1\n";

/// What stands between a text's settings and its actors. A method with a mark adds it to the second field.
const PROGRAM: &str = "\
program
method put(n) { # adds
\tf0 = f0 + n; return f0; }
method give(to, n) { if f0 < n { fail 7; } f0 = f0 - n; let r = call to put(n); return r; }
method swap() { f15 = f0 - f1 + 10; f0 = f1; f1 = f15 - 10 + f1; return 0 - f15; }
method mark(n, m) { f0 = f0 + n; f1 = f1 + m; return f0; }
method pay(to, n, m) { f0 = f0 - n; f1 = f1 + m; let r = call to put(n); return r; }
method bad() { f0 = f0 + 1; fail 9; }
end
# who is there, and what is asked
";

/// In each line the name of a text, its settings, and its actors and transactions, apart by `|`; `/` stands for a line feed. In
/// the texts with marks transaction n has the mark 2^n. Behind texts without marks that are stopped there stand the states that
/// may be left, apart by `;`: the transactions that are in it, then `:` and the actors' lines. They are those behind each front of
/// the committed ones in the order of their places.
pub(crate) const TEXTS: &str = "\
deposit|logs 1/batch 16/batches 8/acts 8|actors 1/actor 0 100/pact 0 put 5 uses 0:1/
two deposits|logs 1/batch 16/batches 8/acts 8|actors 1/actor 0 100/pact 0 put 5 uses 0:1/pact 0 put 2 uses 0:1/
no transaction|logs 1/batch 16/batches 8/acts 8|actors 3/actor 1 0 -7
sum beyond|logs 1/batch 16/batches 8/acts 8|actors 1/actor 0 9223372036854775807/pact 0 put 0 uses 0:1/pact 0 put 5 uses 0:1/
from 99|logs 1/batch 16/batches 8/acts 8|actors 1/actor 0 99/pact 0 put 5 uses 0:1/
two actors|logs 1/batch 16/batches 8/acts 8|actors 2/actor 0 100/actor 1 50/pact 0 put 5 uses 0:1/
both signs|logs 1/batch 1/batches 1/acts 1|actors 2/actor 1 8 3/pact 1 swap uses 1:1/
two of three|logs 1/batch 16/batches 8/acts 8|actors 3/actor 0 10/actor 1 20/actor 2 30/pact 2 put 5 uses 2:1/pact 0 put 7 uses 0:1/
another is called|logs 1/batch 16/batches 8/acts 8|actors 3/actor 0 10/actor 1 20/actor 2 30/pact 2 give 0 5 uses 0:1 1:3 2:1/
locked|logs 1/batch 16/batches 8/acts 8|actors 2/actor 0 100/actor 1 50/act 0 give 1 30/|:actor 0 100/actor 1 50/;0:actor 0 70/actor 1 80/
locked on two logs|logs 2/batch 16/batches 8/acts 8|actors 2/actor 0 100/actor 1 50/act 0 give 1 30/
too much|logs 1/batch 16/batches 8/acts 8|actors 2/actor 0 100/actor 1 50/act 0 give 1 300/
two logs|logs 2/batch 16/batches 8/acts 8|actors 2/actor 0 100/actor 1 50/pact 0 give 1 30 uses 0:1 1:1/|:actor 0 100/actor 1 50/;0:actor 0 70/actor 1 80/
both kinds on two logs|logs 2/batch 16/batches 8/acts 8|actors 2/actor 0 100/actor 1 50/act 0 give 1 30/pact 1 put 5 uses 1:1/
two in turn|logs 1/batch 1/batches 1/acts 8|actors 1/actor 0 100/pact 0 put 1 uses 0:1/pact 0 put 2 uses 0:1/
one on two logs|logs 2/batch 1/batches 1/acts 8|actors 1/actor 0 100/pact 0 put 1 uses 0:1/
each kind on its log|logs 2/batch 1/batches 1/acts 8|actors 2/pact 0 put 1 uses 0:1/act 1 put 2/
a transfer|logs 1/batch 16/batches 8/acts 8|actors 2/actor 0 100/actor 1 50/pact 0 give 1 30 uses 0:1 1:1/|:actor 0 100/actor 1 50/;0:actor 0 70/actor 1 80/
a failing batch|logs 1/batch 1/batches 8/acts 8|actors 3/actor 0 100/actor 1 100/actor 2 100/pact 0 put 1 uses 0:1/pact 1 bad uses 1:1/pact 2 put 1 uses 2:1/act 2 put 7/act 0 put 7/|:actor 0 100/actor 1 100/actor 2 100/;0:actor 0 101/actor 1 100/actor 2 100/;0 4:actor 0 108/actor 1 100/actor 2 100/
marks of both kinds|logs 1/batch 1/batches 8/acts 8|actors 2/actor 0 100/actor 1 50/act 0 pay 1 30 1/pact 0 pay 1 5 2 uses 0:1 1:1/act 1 mark 4 4/pact 1 mark 6 8 uses 1:1/
marks on two logs|logs 2/batch 16/batches 8/acts 8|actors 2/actor 0 100/actor 1 50/pact 0 pay 1 30 1 uses 0:1 1:1/act 1 pay 0 5 2/
many images|logs 1/batch 1/batches 32/acts 8|actors 1/actor 0 100/pact 0 bad uses 0:1/pact 0 put 1 uses 0:1/pact 0 put 1 uses 0:1/pact 0 put 1 uses 0:1/pact 0 put 1 uses 0:1/pact 0 put 1 uses 0:1/pact 0 put 1 uses 0:1/pact 0 put 1 uses 0:1/pact 0 put 1 uses 0:1/pact 0 put 1 uses 0:1/pact 0 put 1 uses 0:1/pact 0 put 1 uses 0:1/pact 0 put 1 uses 0:1/pact 0 put 1 uses 0:1/pact 0 put 1 uses 0:1/pact 0 put 1 uses 0:1/pact 0 put 1 uses 0:1/pact 0 put 1 uses 0:1/pact 0 put 1 uses 0:1/pact 0 put 1 uses 0:1/pact 0 put 1 uses 0:1/pact 0 put 1 uses 0:1/pact 0 put 1 uses 0:1/pact 0 put 1 uses 0:1/pact 0 put 1 uses 0:1/pact 0 put 1 uses 0:1/pact 0 put 1 uses 0:1/pact 0 put 1 uses 0:1/pact 0 put 1 uses 0:1/pact 0 put 1 uses 0:1/pact 0 put 1 uses 0:1/pact 0 put 1 uses 0:1/|:actor 0 100/";

/// The part with this number, from 0 on; empty where there is none.
pub(crate) fn part(text: &str, between: char, number: usize) -> &str {
    text.split(between).nth(number).unwrap_or("")
}

/// The word with this number, from 0 on, as a number; 0 where it is none.
pub(crate) fn number_at(words: &str, number: usize) -> u64 {
    let word = part(words, ' ', number);
    word.parse().unwrap_or(0)
}

/// The text with this name; the empty text where none has it.
pub(crate) fn text_of(alloc: Global, name: &str) -> Result<String, Memory> {
    for line in TEXTS.split('\n') {
        if part(line, '|', 0) == name {
            let (settings, lines) = (part(line, '|', 1), part(line, '|', 2));
            let settings = settings.replace(alloc, "/", "\n")?;
            let lines = lines.replace(alloc, "/", "\n")?;
            return Ok(format!(in alloc; "{FRONT}{settings}\n{PROGRAM}{lines}")?);
        }
    }
    Ok(String::new(alloc))
}
