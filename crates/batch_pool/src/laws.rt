//! Laws of rows, for the callers. Each function does nothing: its contract is the law, which `specs/Laws.antt` states.
ghost use Rattle.batch_pool.specs.Laws.{RowsAreComplete};

/// Of each batch that was published there is one row, once `run_beside` and `settle` have returned: or none, where it was drained
/// behind an error. Where no error was reported, no row is missing.
pub fn row_law()
    ensures { RowsAreComplete }
{}
