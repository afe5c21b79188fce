//! Theorems on the cells that values take: the contracts of functions that do nothing.

ghost use Rattle.values.specs.Space.{BindingsCells, ChainCells, ValueCells};

/// A value's cells, four words for each and four more, are within its size.
pub fn value_cells()
    ensures { ValueCells }
{}

/// The cells of values in a chain are within the size of the values.
pub fn chain_cells()
    ensures { ChainCells }
{}

/// The cells of what names are bound to, in a chain, are within the size of the bindings.
pub fn bindings_cells()
    ensures { BindingsCells }
{}
