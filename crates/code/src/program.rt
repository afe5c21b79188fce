//! A program in lent words, and its function of a name, with so many parameters, in a section.

ghost use Rattle.std.specs.Prelude.{◌≡◌, ◌&&◌, ◌==◌};
ghost use Rattle.code.specs.Function.{Finds};

use crate::kinds::FUNCTIONS;
use store::{Cells, Slot, read_slot};
use values::Atom;

/// The cells of the code, and the table that has, for each name's number, the slot of the functions of that name.
#[derive(Clone, Copy)]
pub struct Program<'a> {
    pub code: &'a [u32],
    pub functions: &'a [u32],
}

impl Program<'_> {
    /// The body of the function of that name with `count` parameters in that section, if there is one.
    pub fn find(self, section: u32, name: Atom, count: u32) -> Option<Slot>
        ensures { Finds self.entry.code.now self.entry.functions.now section name.0 count result }
    {
        let code = self.code;
        let mut chain = read_slot(self.functions, name.0 as usize);
        'definitions: for _ in 0..code.len() {
            if chain.kind != FUNCTIONS {
                return None;
            }
            let definition = code.left(chain);
            if has_signature(code.left(definition), section, count) {
                return Some(code.right(definition));
            }
            chain = code.right(chain);
        }
        None
    }
}

/// Whether a signature is of that section and of so many parameters.
fn has_signature(signature: Slot, section: u32, count: u32) -> bool
    ensures { result ≡ (signature.low == section && signature.high == count) }
{
    signature.low == section && signature.high == count
}
