// The terms of a row.
ghost use Rattle.std.specs.Prelude.{◌↔◌, IsTrue};
ghost use Rattle.xn_lp.specs.Whole.{NameBelow};

/// Whether every term names one of the first columns.
pub fn name_below(terms: &[(u32, i64)], columns: usize) -> bool
    ensures { IsTrue result ↔ NameBelow terms.now columns }
{
    terms.iter().all(|(column, _)| (*column as usize) < columns)
}
