//! What follows for a caller of lines and traces: public functions with empty bodies, whose contracts are the laws.

ghost use Rattle.std.specs.Prelude.{◌≡◌, ℕ, List, [], ◌∷◌, ◌++◌, ◌⊎◌};
ghost use Rattle.std.specs.List.{AllByRecursion};
ghost use Rattle.core_events.specs.declared.events.Event.{Event};
ghost use Rattle.trace_text.specs.Lines.{event_line, IsEvent};
ghost use Rattle.trace_text.specs.Traces.{trace_of, IsTrace, IsFirstNoEvent};

/// A line is of one event at most.
pub fn one_event()
    ensures { (e f : Event) → IsEvent e → IsEvent f → event_line e ≡ event_line f → e ≡ f }
{}

/// A text is the trace of at most one list of events.
pub fn one_trace()
    ensures { (text : List ℕ) (es fs : List Event) → IsTrace text es → IsTrace text fs → es ≡ fs }
{}

/// A text has at most one first line that is of no event.
pub fn one_first_line()
    ensures { (text : List ℕ) (m n : ℕ) → IsFirstNoEvent text m → IsFirstNoEvent text n → m ≡ n }
{}

/// A text with a line that is of no event is no trace.
pub fn trace_or_line()
    ensures { (text : List ℕ) (es : List Event) (n : ℕ) → IsTrace text es → ¬ IsFirstNoEvent text n }
{}

/// The printed lines of events are their trace.
pub fn printed_traces()
    ensures { (es : List Event) → AllByRecursion IsEvent es → IsTrace (trace_of es) es }
{}

/// A trace is its events' printed lines, where the last line feed may lack.
pub fn traces_are_printed()
    ensures { (text : List ℕ) (es : List Event) → IsTrace text es → (text ≡ trace_of es) ⊎ (text ++ 10 ∷ [] ≡ trace_of es) }
{}
