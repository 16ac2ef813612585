//! Laws of the definitions.

ghost use Rattle.std.specs.Prelude.{◌≡◌, List, [], ◌∷◌, ◌++◌};
ghost use Rattle.wasm_defs.specs.declared.item.Item.{Item};
ghost use Rattle.wasm_defs.specs.Context.{context_of};
ghost use Rattle.index_spaces.specs.Spaces.{context_in, spaces_of, with_item};
ghost use Rattle.index_spaces.specs.Likes.{LikeIsLeast};
ghost use Rattle.index_spaces.specs.EntryLaws.{ImportsAreFunctions, ExportsAreOfItems, ElementsAreOfItems, SegmentsAreOfItems, ValuesAreOfItems};

/// The context of some items is that in their index spaces.
pub fn contexts_are_of_items()
    ensures { (items : List Item) → context_in (spaces_of items) ≡ context_of items }
{}

/// The index spaces of some items and one more are those of the items, with that one added.
pub fn items_are_added()
    ensures { (items : List Item) (x : Item) → spaces_of (items ++ x ∷ []) ≡ with_item (spaces_of items) x }
{}

/// The imports of some items are the functions that a run takes as imported ones, in the same order.
pub fn imports_are_functions()
    ensures { ImportsAreFunctions }
{}

/// The exports of some items that are functions are those that a run can be begun with.
pub fn exports_are_of_items()
    ensures { ExportsAreOfItems }
{}

/// The element segments of some items are those that a run's table is made with.
pub fn elements_are_of_items()
    ensures { ElementsAreOfItems }
{}

/// The data segments of some items are those that a run's memory is made with, and those that its instructions begin with.
pub fn segments_are_of_items()
    ensures { SegmentsAreOfItems }
{}

/// The types of the globals of some items, and the numbers of their constants, are the values that a run begins with.
pub fn values_are_of_items()
    ensures { ValuesAreOfItems }
{}

/// `like` gives the index of an equal type, and no type before that is equal.
pub fn like_is_least()
    ensures { LikeIsLeast }
{}
