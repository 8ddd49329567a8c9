//! Laws of the language.

ghost use Rattle.std.specs.Prelude.{◌≡◌, ℕ, List, None, Option, Ok, Err, IfSome, All};
ghost use Rattle.mesh_model.specs.declared.language.script.Declared.{Declared};
ghost use Rattle.mesh_model.specs.Language.Commands.{InLimits, IsLineOf, PlainScript};
ghost use Rattle.mesh_model.specs.Language.Grammar.{Fault, script_of};
ghost use Rattle.mesh_model.specs.Language.Sample.{sample};
ghost use Rattle.script_lang.specs.Laws.{IsFirstFault};

/// The declarations of an accepted script are within the limits, with names that differ from each
/// other, and its commands name only what is declared and keep the ranges of their numbers.
pub fn accepted_scripts_fit()
    ensures declarations { (given : Option Declared) (bytes : List ℕ) (s : PlainScript) → IfSome given InLimits → script_of given bytes ≡ Ok s → InLimits s.declared }
    ensures commands { (given : Option Declared) (bytes : List ℕ) (s : PlainScript) → script_of given bytes ≡ Ok s → All (IsLineOf s.declared) s.lines }
{}

/// No line before the line of a fault is faulty.
pub fn faults_are_first()
    ensures { (given : Option Declared) (bytes : List ℕ) (f : Fault) → script_of given bytes ≡ Err f → IsFirstFault given bytes f }
{}

/// The sample script of every seed is accepted.
pub fn samples_are_accepted()
    ensures { (seed : ℕ) → (s : PlainScript) × (script_of None (sample seed) ≡ Ok s) }
{}
