//! Laws of the grammar.
#![tactic(auto)]

ghost use Rattle.std.specs.Prelude.{ℕ, ◌+◌, ◌-◌, ◌≤◌, List};
ghost use Rattle.gd_syntax.specs.declared.fault.Place.{Place};
ghost use Rattle.gd_syntax.specs.declared.token.Token.{Token};
ghost use Rattle.gd_syntax.specs.declared.tree.expr.Expr.{Expr};
ghost use Rattle.gd_syntax.specs.declared.tree.pattern.Pattern.{Pattern};
ghost use Rattle.gd_syntax.specs.declared.tree.member.Script.{Script};
ghost use Rattle.gd_syntax.specs.Levels.{levels};
ghost use Rattle.gd_syntax.specs.ExprGrammar.{expression};
ghost use Rattle.gd_syntax.specs.PatternGrammar.{pattern};
ghost use Rattle.gd_syntax.specs.Reading.{HasOneOutcome, Read};
ghost use Rattle.gd_syntax.specs.StatementGrammar.{block, unbound};
ghost use Rattle.gd_syntax.specs.MemberGrammar.{class_block};
ghost use Rattle.gd_syntax.specs.ScriptGrammar.{script};
ghost use Rattle.gd_syntax.specs.declared.stops.Sought.{Sought};
ghost use Rattle.gd_syntax.specs.TypeGrammar.{type_name, result_type};
ghost use Rattle.grammar_laws.specs.ClassNames.{HasOneName};
ghost use Rattle.grammar_laws.specs.Limits.{IsWithinLimits};
ghost use Rattle.grammar_laws.specs.PatternLevels.{pattern_levels};

/// Each reading of a type, a pattern, an expression, a block, a class or a whole file has exactly one outcome, wherever
/// it begins.
pub fn one_outcome()
    ensures types { (tokens : List Token) (sought : Sought) (at : ℕ) → HasOneOutcome (type_name tokens sought at) }
    ensures results { (tokens : List Token) (at : ℕ) → HasOneOutcome (result_type tokens at) }
    ensures patterns { (tokens : List Token) (room at : ℕ) → HasOneOutcome (pattern tokens room at) }
    ensures expressions { (tokens : List Token) (room level at : ℕ) → HasOneOutcome (expression tokens room level at) }
    ensures blocks { (tokens : List Token) (room at : ℕ) → HasOneOutcome (block tokens room at) }
    ensures classes { (tokens : List Token) (room classes at : ℕ) → HasOneOutcome (class_block tokens room classes at) }
    ensures script { (tokens : List Token) (header_end : Place) (at : ℕ) → HasOneOutcome (script tokens header_end at) }
{}

/// The law that what is read of an expression or a pattern, inside so many forms, has at most 128 levels with these.
pub fn levels_are_limited()
    ensures expressions { (tokens : List Token) (depth level at next : ℕ) (tree : Expr) → expression tokens (128 - depth) level at (Read tree next) → levels tree + depth ≤ 128 }
    ensures patterns { (tokens : List Token) (depth at next : ℕ) (tree : Pattern) → pattern tokens (128 - depth) at (Read tree next) → pattern_levels tree + depth ≤ 128 }
    ensures unbound { (tokens : List Token) (depth at next : ℕ) (tree : Pattern) → unbound tokens (128 - depth) at (Read tree next) → pattern_levels tree + depth ≤ 128 }
{}

/// The law that a script that is read keeps the limits: a class has at most 4,096 members, a function and a signal at most
/// 64 parameters, blocks and inner classes nest at most 128 deep, and there are at most 256 classes.
pub fn scripts_are_limited()
    ensures { (tokens : List Token) (header_end : Place) (at next : ℕ) (tree : Script) → script tokens header_end at (Read tree next) → IsWithinLimits tree }
{}

/// The law that the global name of a script that is read is that of a `class_name` in its header, with the name on the same
/// line, and that a script has one such name at most.
pub fn names_stand_in_the_header()
    ensures { (tokens : List Token) (header_end : Place) (at next : ℕ) (tree : Script) → script tokens header_end at (Read tree next) → HasOneName tokens header_end tree }
{}
