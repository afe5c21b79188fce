//! Worked programs, as theorems.

ghost use Rattle.meaning.specs.Worked.{Worked};

/// Five small programs show what they should, and end.
pub fn worked_programs()
    ensures { Worked }
{}
