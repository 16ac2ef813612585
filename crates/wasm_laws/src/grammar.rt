//! The laws of the grammar of modules (Core 5.5): it says which bytes are read whole, and what is in them.

ghost use Rattle.std.specs.Prelude.{◌≡◌, ◌↔◌, ◌≤◌, ℕ, List, length};
ghost use Rattle.wasm_defs.specs.Faults.{IsModule, Module};
ghost use Rattle.wasm_defs.specs.Items.{bodies_in, Items, items_in, Section};
ghost use Rattle.wasm_defs.specs.Outside.{Part};
ghost use Rattle.wasm_laws.specs.Held.{all_held};
ghost use Rattle.wasm_laws.specs.Sections.{AreBytes, AreSectionsOf, IsReadAs, parts_in};

/// Modules are what the grammar encodes: some bytes are read whole, with some parts, exactly where they are a module of
/// sections that keep the rules and have these parts. A module's items and bodies are those of its sections.
pub fn modules_are_spelled()
    ensures runs { (bytes : List ℕ) (parts : List Part) → AreBytes bytes →
        IsReadAs parts bytes
        ↔ ((sections : List Section) × AreSectionsOf sections bytes × (parts ≡ parts_in sections)) }
    ensures modules { (bytes : List ℕ) (m : Module) → AreBytes bytes → IsModule bytes m →
        (sections : List Section) × AreSectionsOf sections bytes × (m.items ≡ items_in sections) × (m.bodies ≡ bodies_in sections) }
{}

/// The grammar has one reading of any bytes: sections with the same encoding are the same.
pub fn items_are_one()
    ensures { (bytes : List ℕ) (xs ys : List Section) →
        Items bytes xs → Items bytes ys → xs ≡ ys }
{}

/// The names that a module's items hold, and the bytes of its data segments, are together no more bytes than the module has.
pub fn items_hold_few_bytes()
    ensures { (bytes : List ℕ) (m : Module) → AreBytes bytes → IsModule bytes m → all_held m.items ≤ length bytes }
{}
