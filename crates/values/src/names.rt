//! A table of names, which printing asks for the bytes of an atom.

ghost use Rattle.std.specs.Prelude.{◌≡◌, List};
ghost use Rattle.meaning.specs.Basics.{Name};
ghost use Rattle.values.specs.Names.{name_at};

use crate::value::Atom;

/// The names of atoms, by their numbers.
pub trait Names {
    ghost table: { Self → List Name };

    /// The bytes of an atom's name, or none where the table has no such atom.
    fn name(&self, atom: Atom) -> &[u8]
        ensures { result.now ≡ name_at (table self.now) atom.0 };
}
