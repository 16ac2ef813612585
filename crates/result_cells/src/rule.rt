//! The room's rule, and what each step shows the seat that makes it.
use crate::view::View;
use atomic_table::{Play, TableRule};

pub struct RoomRule;

impl TableRule<(), View, u64> for RoomRule {
    ghost use Rattle.result_cells.specs.Rule.{IsRuled};
    ghost use Rattle.result_cells.specs.Views.{seen_view};

    ghost holds = { IsRuled };

    ghost first = { seen_view };
}

ghost use Rattle.result_cells.specs.Plays.{looked, tried, emptied};

pub(crate) struct Looks;

impl Play<(), View> for Looks {
    ghost then = { looked };
}

pub(crate) struct Takes;

impl Play<(), View> for Takes {
    ghost then = { tried };
}

pub(crate) struct Empties;

impl Play<(), View> for Empties {
    ghost then = { emptied };
}
