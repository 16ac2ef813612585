//! Laws of the definitions.

ghost use Rattle.wasm_defs.specs.Typing.{TypesAreCompared};
ghost use Rattle.body_validator.specs.Exactness.{CheckerIsExact, BodiesAreAccepted, FrontsAreViable, TreesAreOne, PlacesAreKept, HeightsAreMeasured};

/// The checker accepts the tokens that some others complete to a valid body, and refuses the first token after which none
/// do: as malformed where none complete them to structured instructions, and else as invalid.
pub fn checker_is_exact()
    ensures { CheckerIsExact }
{}

/// The tokens that the checker has accepted are those that some others complete to a valid body.
pub fn fronts_are_viable()
    ensures { FrontsAreViable }
{}

/// The test by which the rules compare types is equality.
pub fn types_are_compared()
    ensures { TypesAreCompared }
{}

/// The checker accepts a body to its end exactly where the body is valid.
pub fn bodies_are_accepted()
    ensures { BodiesAreAccepted }
{}

/// Tokens are those of one tree at most.
pub fn trees_are_one()
    ensures { TreesAreOne }
{}

/// It knows where a valid body is reachable, and how many operands it has there.
pub fn places_are_kept()
    ensures { PlacesAreKept }
{}

/// It ends with the greatest reachable height of a valid body.
pub fn heights_are_measured()
    ensures { HeightsAreMeasured }
{}
