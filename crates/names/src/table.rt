//! The bytes of a name, by its number: the spans say where it stands in the text.

ghost use Rattle.std.specs.Prelude.{◌≡◌, [], take, drop, slice_index_or};
ghost use Rattle.names.specs.Table.{table};
ghost use Rattle.store.specs.Slots.{place_of};

use crate::own::{OWN_ATOMS, own_atom};
use store::{Slot, read_slot};
use values::{Atom, Names};

/// The names of a text, as they are printed: the text, where each name stands in it, and how many there are. The count stands
/// beside the spans, since these are lent whole while names are collected.
#[derive(Clone, Copy)]
pub struct NameTable<'t, 's> {
    pub text: &'t [u8],
    pub spans: &'s [u32],
    pub count: usize,
}

impl<'t> NameTable<'t, '_> {
    /// The bytes of the name of that number, or no byte where the table has fewer names.
    pub fn bytes(self, atom: Atom) -> &'t [u8]
        ensures { result.now ≡ slice_index_or
            (table self.entry.text.now self.entry.spans.now self.entry.count) atom.0 [] }
    {
        let number = atom.0 as usize;
        if number >= self.count {
            return b"";
        }
        if number < OWN_ATOMS {
            return own_atom(number);
        }
        part(self.text, read_slot(self.spans, number))
    }
}

impl Names for NameTable<'_, '_> {
    ghost table = { λ t. table t.text.now t.spans.now t.count };

    fn name(&self, atom: Atom) -> &[u8] {
        self.bytes(atom)
    }
}

/// The bytes that a span has in the text, as far as the text goes.
fn part(text: &[u8], span: Slot) -> &[u8]
    ensures { result.now ≡ take span.kind (drop (place_of span) text.now) }
{
    let rest = text.get(span.place().0..).unwrap_or(b"");
    rest.get(..span.kind as usize).unwrap_or(rest)
}
