//! What is known in the states of a run.

ghost use Rattle.std.specs.Prelude.{◌≡◌, ℕ, true, List, [], Option, None, All};
ghost use Rattle.std.specs.List.{AllByRecursion};
ghost use Rattle.folder_meaning.specs.declared.const_value.ConstValue.{ConstValue};
ghost use Rattle.gd_syntax.specs.declared.tree.expr.Expr.{Expr};
ghost use Rattle.gd_syntax.specs.declared.tree.statement.Stmt.{Stmt};
ghost use Rattle.variant_values.specs.declared.classes.ClassTag.{ClassTag};
ghost use Rattle.variant_values.specs.declared.values.Value.{Value};
ghost use Rattle.variant_values.specs.Heaps.{knows, KnowsAll};
ghost use Rattle.script_meaning.specs.State.{World, Frame, Spot, holds_of};
ghost use Rattle.script_meaning.specs.Projects.{Project, Routine, Argument, values_of};
ghost use Rattle.script_meaning.specs.Constants.{made};
ghost use Rattle.script_meaning.specs.Meanings.{Around, Here, Moment};
ghost use Rattle.script_meaning.specs.Objects.{make};
ghost use Rattle.script_meaning.specs.Exprs.{expr};
ghost use Rattle.script_meaning.specs.Statements.{Now, stmt};
ghost use Rattle.script_meaning.specs.Functions.{Bodies, script_calls};
ghost use Rattle.script_meaning.specs.Runs.{empty_world};
ghost use Rattle.script_laws.specs.Allowance.{AreOfTrees};
ghost use Rattle.script_laws.specs.Cells.{AreKnown};
ghost use Rattle.script_laws.specs.Knowing.{Stays, HasConstants, EndsKnown, MakesKnown, IsKnownMaking, IsFrame, GivesKnown, LeadsKnown};

/// What a value names is known in every state that a run reaches: each array and dictionary lives, each object lives or has gone.
/// No serial is given twice, and what has gone stays gone. This is so of calls from any state in which all is known (`calls`), of
/// `new` with arguments that the frames hold (`new`), and so of every run from the empty state (`runs`); within a frame of a script it
/// is so of every expression (`expressions`) and of every statement (`statements`), and each leaves such a frame again. Reads of
/// constants make what is known (`constants`).
pub fn what_is_named_is_known()
    ensures calls { (project : Project) → HasConstants project → (bodies : Bodies) → AreOfTrees project bodies → (depth : ℕ) (frames : List Frame) (unit : Option Spot) (routine : Routine) (receiver : Value) (args : List Argument) (w : World)
        → AreKnown w.cells → knows w.cells receiver ≡ true → KnowsAll w.cells (values_of args) → EndsKnown frames w (script_calls project bodies depth frames unit routine receiver args w) }
    ensures new { (project : Project) → HasConstants project → (bodies : Bodies) → AreOfTrees project bodies → (depth : ℕ) (frames : List Frame) (unit : Option Spot) (class : ClassTag) (args : List Argument) (w : World)
        → AreKnown w.cells → AllByRecursion (λ v. (knows w.cells v ≡ true) × Stays (holds_of frames) v) (values_of args) → MakesKnown frames w (make project (script_calls project bodies depth) frames unit class args w) }
    ensures runs { (project : Project) → HasConstants project → (bodies : Bodies) → AreOfTrees project bodies → (depth : ℕ) (class : ClassTag) (steps : ℕ)
        → MakesKnown [] (empty_world steps) (make project (script_calls project bodies depth) [] None class [] (empty_world steps)) }
    ensures expressions { (project : Project) → HasConstants project → (bodies : Bodies) → AreOfTrees project bodies → (depth : ℕ) (h : Here) (m : Moment)
        → IsFrame project bodies depth h.around h.locals m.world → (e : Expr) → GivesKnown project bodies depth h m ((expr project e).value h m) }
    ensures statements { (project : Project) → HasConstants project → (bodies : Bodies) → AreOfTrees project bodies → (depth : ℕ) (a : Around) (s : Now)
        → IsFrame project bodies depth a s.locals s.world → (t : Stmt) → LeadsKnown project bodies depth a s (stmt project t a s) }
    ensures constants { (c : ConstValue) → IsKnownMaking (made c) }
{}
