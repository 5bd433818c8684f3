//! Laws of generated tables. Each function has an empty body: what it ensures is a theorem.
ghost use Rattle.gen_texts.specs.ReadBack.{GeneratedTablesAreReadBack};

/// The tables of each seed have no fault and stand for the records of the seed.
pub fn generated_tables_are_read_back()
    ensures { GeneratedTablesAreReadBack }
{}
