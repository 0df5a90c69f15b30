//! The line of an event.
ghost use Rattle.std.specs.Prelude.{◌≡◌, [], ◌∷◌, ◌++◌, IfOk, string_bytes};
ghost use Rattle.trace_text.specs.Lines.{event_line, IsEvent};

use crate::names::text_of;
use crate::parts::parts_of;
use core_events::Event;
use itoa::Buffer;
use snap_base::Memory;

/// Appends the line of an event, with the line feed that ends it. After `Memory` nothing is said of the text.
pub fn print_event(text: &mut String, e: Event) -> Result<(), Memory>
    ensures line { IfOk result (λ _. string_bytes text.new ≡ string_bytes text.old ++ (event_line e ++ 10 ∷ [])) }
    // So the lines that are printed are a trace.
    ensures types { IsEvent e }
{
    let (name, n, second) = parts_of(e);
    let mut buffer = Buffer::new();
    text.push_str(text_of(name))?;
    text.push(' ')?;
    text.push_str(buffer.format(n))?;
    if let Some(a) = second {
        text.push(' ')?;
        text.push_str(buffer.format(a))?;
    }
    text.push('\n')?;
    Ok(())
}
