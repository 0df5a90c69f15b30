//! Tables of calls, and what they answer.
use snap_base::Memory;
use std::alloc::Global;

/// A part of the machine, whose calls are the rows of a table.
pub trait Stepped {
    /// A call, with its arguments.
    type Step: Copy;

    /// Makes the call, where it may be made, and tells what it answers.
    fn step(&mut self, alloc: Global, step: Self::Step) -> Result<String, Memory>;
}

/// The rows, counted from 0, whose answers are not those wanted, and what is answered there: nothing, where all are.
pub fn differences<P: Stepped>(
    alloc: Global,
    part: &mut P,
    rows: &[(P::Step, &str)],
) -> Result<String, Memory> {
    let mut told = String::new(alloc);
    for (at, (step, wanted)) in rows.iter().enumerate() {
        let answer = part.step(alloc, *step)?;
        if answer.as_str() != *wanted {
            told.push_str(&format!(in alloc; "row {at}: {answer}\n")?)?;
        }
    }
    Ok(told)
}
