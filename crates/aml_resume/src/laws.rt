//! What follows for a caller who runs a method on from pause to pause. Each is called to cite it.

ghost use Rattle.aml_resume.specs.Reading.{ReadingLeaves};
ghost use Rattle.aml_resume.specs.Resuming.{BlocksRise, CallsRise, CountsRise, PausesAsMeant, PausesWhereAllowed};

/// A method gives, from where it stands on, what its pause goes on to.
pub fn pauses_as_meant()
    ensures { PausesAsMeant }
{}

/// A method that waits stands at a place of its body once the value is there, and its program allows the call.
pub fn pauses_where_allowed()
    ensures { PausesWhereAllowed }
{}

/// Statements are never taken back, and no more are begun than a transaction may.
pub fn counts_rise()
    ensures pauses { CountsRise }
    ensures blocks { BlocksRise }
    ensures calls { CallsRise }
{}

/// A method that assigns no field and calls only methods that promise only to read leaves the actor's state, from
/// wherever it stands.
pub fn reading_leaves()
    ensures { ReadingLeaves }
{}
