//! The atoms that the language itself uses.

ghost use Rattle.std.specs.Prelude.{◌≡◌, [], slice_index_or};
ghost use Rattle.names.specs.Names.{own_atoms};

/// How many atoms the language itself uses: their numbers are fixed.
pub const OWN_ATOMS: usize = 16;

/// The atoms of the language, in the order of their numbers.
pub const ATOMS: [&[u8]; OWN_ATOMS] = [
    b"type", b"match", b"clause", b"zero", b"big", b"undef", b"normal", b"old", b"gone", b"ok",
    b"error", b"exit", b"none", b"true", b"false", b"main",
];

/// The atom of the language with that number, or no byte where there is none.
pub fn own_atom(number: usize) -> &'static [u8]
    ensures { result.now ≡ slice_index_or own_atoms number [] }
{
    ATOMS.get(number).copied().unwrap_or(b"")
}
