//! What the rules promise, for callers to use. The functions do nothing; their contracts are laws.
ghost use Rattle.std.specs.Prelude.{◌≡◌, ℕ, List, None, Some, false};
ghost use Rattle.order_text.specs.declared.rewrite.Rewrite.{Rewrite};
ghost use Rattle.order_rules.specs.declared.settings.Settings.{Settings};
ghost use Rattle.order_rules.specs.Laws.{FitsLine};
ghost use Rattle.order_rules.specs.Rules.{rewrite_of};

/// What is replaced of a line stands after its stamp.
pub fn rewrites_fit_their_lines()
    ensures { (settings : Settings) (lines : List (List ℕ)) (line : List ℕ) (made : Rewrite)
        → rewrite_of settings lines line ≡ Some made → FitsLine line made }
{}

/// Nothing is written otherwise if no rule holds.
pub fn nothing_changes_without_a_rule()
    ensures { (settings : Settings) (lines : List (List ℕ)) (line : List ℕ)
        → settings.names ≡ false → settings.own ≡ false → settings.join ≡ false
        → rewrite_of settings lines line ≡ None }
{}
