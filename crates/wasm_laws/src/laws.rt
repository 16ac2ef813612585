//! The laws of how a module's bytes are read.

ghost use Rattle.std.specs.Prelude.{◌≡◌, ◌≤◌, ◌<◌, ℕ, Bool, true, is_some, length, List, [], Some, suc, ◌∷◌, ◌++◌};
ghost use Rattle.std.specs.List.{All};
ghost use Rattle.wasm_defs.specs.Bodies.{body_read, instruction, last_of, local_groups};
ghost use Rattle.wasm_defs.specs.Context.{context_of, data_count_of, declared_count, functions_of, segment_count_of, types_of};
ghost use Rattle.wasm_defs.specs.Entries.{Seen};
ghost use Rattle.wasm_defs.specs.Faults.{bodies_of, ending_fault, IsModule, items_of, Module, tokens_of};
ghost use Rattle.wasm_defs.specs.Fields.{Cursor, Wants, byte, fixed, name, number, room_of};
ghost use Rattle.wasm_defs.specs.Instances.{exports_of, named, start_of};
ghost use Rattle.wasm_defs.specs.Outside.{agrees, Body, Coded, header, module_read, Part, preamble, row, Section, section_end, Whole};
ghost use Rattle.wasm_defs.specs.Trees.{Seq, Tree};
ghost use Rattle.wasm_defs.specs.Typing.{Context, function_type};
ghost use Rattle.wasm_defs.specs.declared.types.FuncType.{FuncType};
ghost use Rattle.wasm_defs.specs.declared.fault.Refusal.{Refusal};
ghost use Rattle.wasm_laws.specs.Behind.{AreValidIn, StandBehind};
ghost use Rattle.wasm_laws.specs.BodyOrder.{IsSpelledIn};
ghost use Rattle.wasm_laws.specs.Completing.{Completes, CompletesOrPasses};
ghost use Rattle.wasm_laws.specs.Counts.{AreDeclared};
ghost use Rattle.wasm_defs.specs.SmallTypes.{TypesAreSmall};
ghost use Rattle.wasm_laws.specs.Kept.{AreThere, BodiesAreSmall, ConstantsFit, ImportsReturnOne, IsThere, LocalsAreFew, SpacesAreSmall, TakesNothing};
ghost use Rattle.wasm_laws.specs.Order.{AreCutFrom, AreOrdered, BodyStands, end_of, first_section};
ghost use Rattle.wasm_laws.specs.Runs.{deciding_length, GoesOn, IsRefused};
ghost use Rattle.wasm_laws.specs.Sections.{AreBytes};
ghost use Rattle.wasm_laws.specs.Steadiness.{Steady, SteadyEnd, SteadyRow, Takes, token};
ghost use Rattle.wasm_laws.specs.Immediates.{TreeIsInRange};
ghost use Rattle.wasm_laws.specs.Typed.{AreTyped};
ghost use Rattle.wasm_laws.specs.Short.{AreShortBodies, AreShortImports};

/// The fields outside bodies are steady (Core 5.5): the preamble, the header of each section, what each section holds, and
/// its end. A header takes a byte at least.
pub fn sections_are_steady()
    ensures preamble { Steady [] preamble }
    ensures header { (seen : Seen) → Steady [] (header seen) × Takes (header seen) }
    ensures row { (id : ℕ) → SteadyRow (row id) }
    ensures end { SteadyEnd section_end }
{}

/// The fields of bodies are steady (Core 5.4 and 5.5.13): the locals, and each instruction, whose error may be at its opcode.
pub fn bodies_are_steady()
    ensures locals { Steady [] local_groups }
    ensures instruction { (counted : Bool) (at b : ℕ) → Steady (at ∷ []) (instruction counted at b) }
    ensures token { (counted : Bool) → Steady [] (token counted) }
{}

/// A field that wants more bytes can be completed in its section (Core 5.2): what no bytes complete is refused at once. A name
/// may be longer than this implementation takes; given bytes are completed where the section has room for them.
pub fn fields_can_be_completed()
    ensures byte { (c : Cursor) → byte c ≡ Wants → Completes byte c }
    ensures number { (signed : Bool) (bits : ℕ) (c : Cursor) → number signed bits c ≡ Wants → Completes (number signed bits) c }
    ensures name { (c : Cursor) → name c ≡ Wants → CompletesOrPasses name c }
    ensures fixed { (bytes : List ℕ) → AreBytes bytes → (c : Cursor) → length bytes ≤ room_of c → fixed bytes c ≡ Wants → Completes (fixed bytes) c }
{}

/// More bytes change no part and no refusal of a module: a refused run stays as it is, and any other goes on.
pub fn more_bytes_change_nothing()
    ensures { (bytes more : List ℕ) → GoesOn (module_read bytes) (module_read (bytes ++ more)) }
{}

/// Reading is bounded: where so many bytes are there, the module is refused, and more bytes change nothing.
pub fn reading_is_bounded()
    ensures refused { (bytes : List ℕ) →
        deciding_length ≤ length bytes → IsRefused (module_read bytes).ending }
    ensures stays { (bytes more : List ℕ) →
        deciding_length ≤ length bytes → module_read (bytes ++ more) ≡ module_read bytes }
{}

/// The parts of a module are in order, each after the one before, and no later than the error that ends reading (Core 5.5):
/// sections begin no later, and bodies end before it. They are cut from the module's bytes.
pub fn parts_are_in_order()
    ensures before_fault { (bytes : List ℕ) (r : Refusal) →
        let run = module_read bytes in
        ending_fault (length bytes) run.ending ≡ Some r →
        AreOrdered first_section r.offset run.parts × (r.offset ≤ length bytes) }
    ensures in_module { (bytes : List ℕ) →
        AreOrdered first_section (length bytes) (module_read bytes).parts }
    ensures cut { (bytes : List ℕ) → AreCutFrom bytes (module_read bytes).parts }
{}

/// Of parts in order, those before one in the list end before it, and those after it begin from its end on.
pub fn others_stand_around()
    ensures body { (low last : ℕ) (front : List Part) (b : Body) (back : List Part) →
        AreOrdered low last (front ++ Coded b ∷ back) →
        AreOrdered low b.size front × BodyStands low last b × AreOrdered (end_of b) last back }
    ensures section { (low last : ℕ) (front : List Part) (at id : ℕ) (back : List Part) →
        AreOrdered low last (front ++ Section at id ∷ back) →
        AreOrdered low at front × (low ≤ at) × (at ≤ last) × AreOrdered (suc at) last back }
{}

/// A body's tokens are in order, each after the one before, and no later than the error of encoding, which is at a byte of the body
/// (Core 5.4).
pub fn bodies_are_in_order()
    ensures { (counted : Bool) (first : ℕ) (bytes : List ℕ) → 0 < length bytes →
        IsSpelledIn first (last_of first bytes) (body_read counted first bytes).code }
{}

/// A body belongs to a declared function (Core 5.5.13): more functions are declared before a body than bodies come before it, none
/// is declared after it, and a whole module has as many bodies as functions.
pub fn bodies_match_functions()
    ensures declared { (bytes : List ℕ) → AreDeclared 0 0 (module_read bytes).parts }
    ensures whole { (bytes : List ℕ) (seen : Seen) →
        let run = module_read bytes in
        run.ending ≡ Whole seen →
        length (bodies_of run.parts) ≡ declared_count (items_of run.parts) }
{}

/// As many data segments come as the data count says, where there is one, and each body says whether there is one, since only then
/// it may name them (Core 2.0, 5.5.16).
pub fn segments_match_the_data_count()
    ensures told { (bytes : List ℕ) →
        let parts = (module_read bytes).parts in
        All (λ b. b.counted ≡ is_some (data_count_of (items_of parts))) (bodies_of parts) }
    ensures whole { (bytes : List ℕ) (seen : Seen) →
        let run = module_read bytes in
        run.ending ≡ Whole seen →
        agrees (data_count_of (items_of run.parts)) (segment_count_of (items_of run.parts)) ≡ true }
{}

/// A body's function has a type (Core 2.5.1 and 3.4.1): the function whose index counts the imported functions and the bodies
/// before this one is among the items before it, and so is the type that the function names.
pub fn functions_have_types()
    ensures { (bytes : List ℕ) → AreTyped [] 0 (module_read bytes).parts }
{}

/// After a body no section comes but that of data segments (Core 5.5.2), so that the items before it say all that a body may name:
/// the context of bodies, and the module's functions, tables and memories. So a module's bodies are valid in the context of all its
/// items.
pub fn bodies_stand_behind_items()
    ensures behind { (bytes : List ℕ) (front : List Part) (b : Body) (back : List Part) →
        let run = module_read bytes in
        run.parts ≡ front ++ Coded b ∷ back → StandBehind run.parts front back }
    ensures valid { (bytes : List ℕ) (m : Module) → IsModule bytes m → AreValidIn m.items 0 m.bodies m.trees }
{}

/// The immediates of a body's instructions have the bits that bytes encode, a block's type that is one of the module's too, and
/// each token has a byte.
pub fn immediates_are_in_range()
    ensures range { (counted : Bool) (first : ℕ) (bytes : List ℕ) (tree : Seq) → AreBytes bytes →
        let code = (body_read counted first bytes).code in
        Tree (tokens_of code.tokens) tree → TreeIsInRange tree }
    ensures count { (counted : Bool) (first : ℕ) (bytes : List ℕ) → length (body_read counted first bytes).code.tokens ≤ length bytes }
{}

/// Types keep to their limits: each has so many parameters at most, and so many results.
pub fn types_keep_limits()
    ensures { (bytes : List ℕ) → TypesAreSmall (types_of (items_of (module_read bytes).parts)) }
{}

/// Tables, memories, globals and the data count keep to their limits (Core 4.5.3): so many rows, pages, globals and data segments at
/// most, and no more pages at first than the memory may grow to. Each global's constant is a number of the global's type (Core 3.3.7 and 5.2.2).
pub fn spaces_keep_limits()
    ensures limits { (bytes : List ℕ) → SpacesAreSmall (items_of (module_read bytes).parts) }
    ensures constants { (bytes : List ℕ) → AreBytes bytes → ConstantsFit (items_of (module_read bytes).parts) }
{}

/// Bodies keep to the limits on their bytes and on the locals that they declare (Core 5.5.13).
pub fn locals_keep_limits()
    ensures locals { (counted : Bool) (first : ℕ) (bytes : List ℕ) → LocalsAreFew (body_read counted first bytes).groups }
    ensures bodies { (bytes : List ℕ) → BodiesAreSmall (bodies_of (module_read bytes).parts) }
{}

/// The functions that exports name are there, with their types (Core 3.4.10), and so is each that is found by its name.
pub fn exports_are_there()
    ensures each { (bytes : List ℕ) →
        let items = items_of (module_read bytes).parts in
        AreThere (context_of items) (length (functions_of items)) (exports_of items) }
    ensures named { (c : Context) (functions : ℕ) (name : List ℕ) (exports : List (List ℕ × ℕ)) (index : ℕ) →
        AreThere c functions exports → named name exports ≡ Some index → IsThere c functions index }
{}

/// The start function of a module is one of its functions, and has neither parameters nor results (Core 3.4.7).
pub fn start_functions_take_nothing()
    ensures { (bytes : List ℕ) (m : Module) (f : ℕ) → IsModule bytes m → start_of m.items ≡ Some f
        → (t : FuncType) × (function_type (context_of m.items) f ≡ Some t) × TakesNothing t }
{}

/// The type of each import of a module has one result at most.
pub fn imports_return_one()
    ensures { (bytes : List ℕ) (m : Module) → IsModule bytes m → ImportsReturnOne (types_of m.items) m.items }
{}

/// What traps are reported by is at offsets of 32 bits: a module's imports, its bodies, and the tokens of these.
pub fn offsets_are_short()
    ensures { (bytes : List ℕ) (m : Module) → AreBytes bytes → IsModule bytes m → AreShortImports m.items × AreShortBodies m.bodies }
{}
