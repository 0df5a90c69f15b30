//! What follows for a caller: words ask for one thing at most. It is called to cite it.

ghost use Rattle.command_words.specs.CommandLaws.{OneCommand};

/// Words ask for one thing at most.
pub fn one_command()
    ensures { OneCommand }
{}
