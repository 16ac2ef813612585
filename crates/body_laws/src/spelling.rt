//! The laws of the grammar of bodies: it says which bytes are read whole, and which groups and tokens they are.

ghost use Rattle.std.specs.Prelude.{Bool, ◌≡◌, ◌↔◌, ◌+◌, ◌-◌, ◌≤◌, ℕ, List, ◌++◌, length, Some, slice_get};
ghost use Rattle.wasm_defs.specs.declared.operation.Access.TheVariants.{Load, Store};
ghost use Rattle.wasm_defs.specs.declared.operation.LoadOp.{LoadOp};
ghost use Rattle.wasm_defs.specs.declared.operation.Operation.{Operation};
ghost use Rattle.wasm_defs.specs.declared.operation.StoreOp.{StoreOp};
ghost use Rattle.wasm_defs.specs.declared.token.Token.{Token};
ghost use Rattle.wasm_defs.specs.declared.fault.Refusal.{Refusal};
ghost use Rattle.wasm_defs.specs.Bodies.{body_read, Group, last_of, no_code, stops};
ghost use Rattle.wasm_defs.specs.Codes.{Code, group_is, listed_vector_is};
ghost use Rattle.wasm_defs.specs.Opcodes.{accesses, operations, load_code, operation_code, store_code};
ghost use Rattle.wasm_defs.specs.Trees.{Seq, Tree};
ghost use Rattle.wasm_defs.specs.Faults.{tokens_of, IsModule, Module};
ghost use Rattle.wasm_defs.specs.Items.{Section};
ghost use Rattle.wasm_laws.specs.Kept.{LocalsAreFew};
ghost use Rattle.wasm_laws.specs.Sections.{AreBytes};
ghost use Rattle.body_laws.specs.Reading.{IsReadAs, IsReadThrough};
ghost use Rattle.body_laws.specs.Spelled.{IsSpelledModule};
ghost use Rattle.body_laws.specs.WrongLocals.{AreLocalsWrong, BeginNoLocals};

/// The tables of opcodes have a row for each operation, load and store, at its opcode, and no other rows.
pub fn opcodes_are_rows()
    ensures operations { (b : ℕ) (op : Operation) → 0x45 ≤ b →
        (slice_get operations (b - 0x45) ≡ Some (Some op)) ↔ (operation_code op ≡ b) }
    ensures loads { (b : ℕ) (op : LoadOp) → 0x28 ≤ b →
        (slice_get accesses (b - 0x28) ≡ Some (Some (Load op))) ↔ (load_code op ≡ b) }
    ensures stores { (b : ℕ) (op : StoreOp) → 0x28 ≤ b →
        (slice_get accesses (b - 0x28) ≡ Some (Some (Store op))) ↔ (store_code op ≡ b) }
{}

/// Bodies are what the grammar encodes: where tokens nest, bytes are read whole as some groups and these tokens exactly if the
/// bytes are their encoding and the locals keep their limit.
pub fn bodies_are_spelled()
    ensures { (counted : Bool) (first : ℕ) (bytes : List ℕ) (groups : List Group) (tokens : List (ℕ × Token)) (tree : Seq) →
        AreBytes bytes → Tree (tokens_of tokens) tree →
        IsReadAs counted groups tokens first bytes ↔ (Code counted groups tokens first bytes × LocalsAreFew groups) }
{}

/// The grammar has one reading of any bytes: groups and tokens with the same encoding are the same.
pub fn codes_are_one()
    ensures { (counted : Bool) (first : ℕ) (bytes : List ℕ) (gs hs : List Group) (ts us : List (ℕ × Token)) →
        Code counted gs ts first bytes → Code counted hs us first bytes → (gs ≡ hs) × (ts ≡ us) }
{}

/// Of wrong bytes the longest prefix is read: after groups of locals that keep their limit, the tokens are those that a prefix
/// encodes, and what follows begins with no token, unless the body is closed before it. The error is there: at the opcode, or after
/// it at the first field that isn't encoded; or, where the bytes end before that field does, at the last one.
pub fn fronts_are_read()
    ensures { (counted : Bool) (first : ℕ) (front back : List ℕ) (groups : List Group) →
        AreBytes (front ++ back) → listed_vector_is group_is groups first front → LocalsAreFew groups →
        IsReadThrough counted groups (first + length front) back (last_of first (front ++ back)) (body_read counted first (front ++ back)) }
{}

/// Of bytes that don't begin with the encoding of groups of locals that keep their limit, nothing is read. After the fields of
/// groups that are encoded comes one that isn't, and the error is there; or the bytes end in it, and the error is at the last one;
/// or a count is encoded with which the locals pass their limit, and the error is at that count.
pub fn wrong_locals_are_told()
    ensures { (counted : Bool) (first : ℕ) (bytes : List ℕ) → AreBytes bytes → BeginNoLocals first bytes →
        (r : Refusal) × (body_read counted first bytes ≡ no_code (stops (Some r))) × AreLocalsWrong first bytes (last_of first bytes) r }
{}

/// A module is what is encoded, its bodies too: the sections keep the grammar and the rules, and the bytes of each body encode the
/// tokens of its tree, which is typed.
pub fn modules_have_spelled_bodies()
    ensures { (bytes : List ℕ) (m : Module) → AreBytes bytes →
        IsModule bytes m ↔ ((sections : List Section) × IsSpelledModule bytes m sections) }
{}
