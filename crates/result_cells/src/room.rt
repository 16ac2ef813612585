//! Room for the instruction words of codes, of which any thread takes some.
//!
//! It is one word: how many instruction words are left. The rule (`specs/Rule.antt`) holds between any two steps: what is left and what
//! was taken make up what the room was made for.
ghost use Rattle.std.specs.Prelude.{◌≡◌, ◌<◌, IfOk, IfErr, IfSome};

use crate::rule::{Empties, Looks, RoomRule, Takes};
use crate::view::View;
use atomic_table::{Seat, Table};
use std::alloc::{AllocError, Global};
use std::marker::Model;

/// Room for so many instruction words.
#[derive(Drop)]
pub(crate) struct Room {
    table: Table<(), View, u64, RoomRule, Global>,
}

impl Model for Room {
    ghost use Rattle.std.specs.Prelude.{◌≡◌};
    ghost use Rattle.result_cells.specs.Rooms.{Site};

    ghost Value = { Site };

    ghost view = { λ r. record { table = r.table.shared.table_id; most = r.table.shared.key } };

    ghost invariant = { λ r. r.table.shared.table_id.words ≡ 1 };
}

/// Room that was taken for so many instruction words. It takes no bytes.
#[derive(Drop)]
pub struct Reservation {
    place: Seat<(), View>,
}

impl Model for Reservation {
    ghost use Rattle.result_cells.specs.Rooms.{Reserved};

    ghost Value = { Reserved };

    ghost view = { λ r. record { room = r.place.table_id; words = r.place.me.0.taken } };
}

/// A want of room, with how many instruction words are left, and how many were taken since they were too few. It takes no bytes.
#[derive(Drop)]
pub struct Shortage {
    place: Seat<(), View>,
}

impl Model for Shortage {
    ghost use Rattle.result_cells.specs.Rooms.{Short};

    ghost Value = { Short };

    ghost view = { λ s. record { room = s.place.table_id; left = s.place.me.0.seen; taken = s.place.me.0.taken } };
}

impl Room {
    /// Room for so many instruction words.
    pub(crate) fn new(alloc: Global, most: u64) -> Result<Room, AllocError>
        ensures { IfOk result (λ r. r.most ≡ most) }
    {
        let (table, _first) = Table::of_words(alloc, &[most], &most)?;
        Ok(Room { table })
    }

    /// Takes room for so many instruction words where as many are left. Err where fewer were: they are taken, and nothing is left.
    pub(crate) fn take(&self, words: u64) -> Result<Reservation, Shortage>
        ensures taken { IfOk result (λ r. (r.room ≡ self.now.table) × (r.words ≡ words)) }
        ensures short { IfErr result (λ s. (s.room ≡ self.now.table) × (s.left ≡ 0) × (s.taken < words)) }
    {
        let shared = &self.table.shared;
        let (mut left, mut place) = shared.load_new_seat::<Looks>(0);
        while words <= left {
            let found = shared.compare_exchange::<Takes>(&mut place, 0, left, left - words);
            if found == left {
                return Ok(Reservation { place });
            }
            left = found;
        }
        let _ = shared.swap::<Empties>(&mut place, 0, 0);
        Err(Shortage { place })
    }

    /// A shortage, where nothing is left.
    pub(crate) fn exhausted(&self) -> Option<Shortage>
        ensures { IfSome result (λ s. (s.room ≡ self.now.table) × (s.left ≡ 0)) }
    {
        let (left, place) = self.table.shared.load_new_seat::<Looks>(0);
        if left == 0 {
            Some(Shortage { place })
        } else {
            None
        }
    }
}
