//! A theorem about databases: a function without a body, whose contract a caller cites.

ghost use Rattle.files.specs.Schemas.{OneSchema};

/// The trees of a sound database have only one schema, if it has no views. So no schema has to be compared when a
/// database is opened.
pub fn one_schema()
    ensures { OneSchema }
{}
