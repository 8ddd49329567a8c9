//! Laws of what is built: each is the contract of a function that does nothing.

ghost use Rattle.amr_engine.specs.Built.{IsUndefined, is_built};
ghost use Rattle.mesh_model.specs.Language.Commands.{PlainScript};
ghost use Rattle.std.specs.Prelude.{◌≡◌, ℕ, Any, false};

/// A script with a command whose text is not defined yet is not built.
pub fn what_is_undefined_is_not_built()
    ensures { (s : PlainScript) (ranks workers : ℕ) → Any (λ line. IsUndefined line.command) s.lines → is_built s ranks workers ≡ false }
{}
