//! What is proved of the names of every text: the contracts of functions that do nothing.

ghost use Rattle.names.specs.Names.{IndexBelow, NamesStand};

/// Every word of a text that can be a name is in its names, none twice, behind the atoms of the language.
pub fn names_stand()
    ensures { NamesStand }
{}

/// The number of a name is below the number of names.
pub fn index_below()
    ensures { IndexBelow }
{}
