//! Laws of outlines.

ghost use Rattle.std.specs.Prelude.{◌≡◌, ℕ, List, false};
ghost use Rattle.wasm_defs.specs.Entries.{Seen as SeenGiven};
ghost use Rattle.wasm_defs.specs.Outside.{Whole, module_read};
ghost use Rattle.section_reader.specs.Outline.{outline};
ghost use Rattle.section_reader.specs.Outlining.{IsOutlined, in_bodies};

/// What `Front` reports where the bodies are fed to it, the outline, has the items of the module's reading and ends as it does:
/// where the module is whole, and where reading stops, but for what stops it in the code section after its count (Core 5.5).
pub fn outlines_have_the_items()
    ensures whole { (bytes : List ℕ) (seen : SeenGiven) → (module_read bytes).ending ≡ Whole seen → IsOutlined (module_read bytes) (outline bytes) }
    ensures apart { (bytes : List ℕ) → in_bodies false (module_read bytes).parts ≡ false → IsOutlined (module_read bytes) (outline bytes) }
{}
