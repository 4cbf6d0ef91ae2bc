//! What a store begins with that has the rows of a load.

ghost use Rattle.loaded_cells.specs.Numbered.{LoadBegins};

/// The words of leaves with the rows of a load, and a seat that knows their cells, keep the rule of a store.
pub fn loads_begin()
    ensures { LoadBegins }
{}
