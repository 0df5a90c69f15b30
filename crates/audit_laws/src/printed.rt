//! What a run prints, line by line, and how lines are read back.
ghost use Rattle.std.specs.Prelude.{◌≡◌, ℕ, List};
ghost use Rattle.std.specs.List.{AllByRecursion, flat_map};
ghost use Rattle.protocol.specs.Events.{Event};
ghost use Rattle.protocol.specs.Fixed.{Fixed};
ghost use Rattle.run_effects.specs.Lines.{report_text};
ghost use Rattle.audit_words.specs.Papers.{IsWellFormedLine, IsReport, Line, ended, line_text};
ghost use Rattle.audit_words.specs.Reports.{report_lines};

/// What a run prints is the text of its report's lines, each with its line feed.
pub fn reports_are_lines<C>()
    ensures { (w : Fixed C) (es : List Event) → report_text w es ≡ flat_map (λ l. ended (line_text l)) (report_lines w es) }
{}

/// Lines of a form, each printed with its line feed, are a report of these lines.
pub fn printed_forms_are_reports()
    ensures { (ls : List Line) → AllByRecursion IsWellFormedLine ls → IsReport (flat_map (λ l. ended (line_text l)) ls) ls }
{}

/// A text is a report of one list of lines alone.
pub fn one_report()
    ensures { (text : List ℕ) (ls ms : List Line) → IsReport text ls → IsReport text ms → ls ≡ ms }
{}
