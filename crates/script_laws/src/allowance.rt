//! Runs that differ in the steps that they are allowed.

ghost use Rattle.std.specs.Prelude.{◌≡◌, ◌≤◌, ◌<◌, ℕ, true, false, List, [], ◌∷◌, Option};
ghost use Rattle.gd_syntax.specs.declared.tree.member.Member.{Member};
ghost use Rattle.variant_values.specs.declared.classes.ClassTag.{ClassTag};
ghost use Rattle.variant_values.specs.declared.values.Value.{Value};
ghost use Rattle.script_meaning.specs.State.{World, Frame, Spot};
ghost use Rattle.script_meaning.specs.Projects.{Project, Routine, Argument};
ghost use Rattle.script_meaning.specs.Functions.{Bodies, script_calls};
ghost use Rattle.script_meaning.specs.Runs.{run_within};
ghost use Rattle.script_meaning.specs.Tables.{bodies_of_rows};
ghost use Rattle.script_meaning.specs.OneClass.{own_means};
ghost use Rattle.script_laws.specs.Allowance.{Begins, with_more, world_of, is_spent, more_left, is_over, steps_of, AreOfTrees};

/// A run that ended or faulted within an allowance of steps is the same within any larger one: the same text, the same ending at
/// the same place, as many steps, as many objects left (`same`). Within a larger allowance the text of every run begins with the
/// text within the smaller one (`front`). No run takes more steps than it is allowed (`within`); a run that is spent took every step that it was allowed (`spent`), and if it is over
/// within a larger allowance, it takes more steps than the smaller one has (`more`): a run is spent exactly where it needs more.
pub fn a_larger_allowance_keeps_the_run()
    ensures same { (project : Project) (bodies : Bodies) → AreOfTrees project bodies → (frames : ℕ) (class : ClassTag) (allowed more : ℕ) → allowed ≤ more
        → is_over (run_within project bodies frames class allowed).end ≡ true → run_within project bodies frames class more ≡ run_within project bodies frames class allowed }
    ensures front { (project : Project) (bodies : Bodies) → AreOfTrees project bodies → (frames : ℕ) (class : ClassTag) (allowed more : ℕ) → allowed ≤ more
        → Begins (run_within project bodies frames class allowed).text (run_within project bodies frames class more).text }
    ensures spent { (project : Project) (bodies : Bodies) → AreOfTrees project bodies → (frames : ℕ) (class : ClassTag) (allowed : ℕ)
        → is_over (run_within project bodies frames class allowed).end ≡ false → steps_of (run_within project bodies frames class allowed).end ≡ allowed }
    ensures within { (project : Project) (bodies : Bodies) (frames : ℕ) (class : ClassTag) (allowed : ℕ) → steps_of (run_within project bodies frames class allowed).end ≤ allowed }
    ensures more { (project : Project) (bodies : Bodies) → AreOfTrees project bodies → (frames : ℕ) (class : ClassTag) (allowed more : ℕ) → allowed ≤ more
        → is_over (run_within project bodies frames class allowed).end ≡ false → is_over (run_within project bodies frames class more).end ≡ true
        → allowed < steps_of (run_within project bodies frames class more).end }
{}

/// A call of a function of a script, from any state, that is not spent is the same where any number of steps more are left
/// (`same`). What was printed before it stays, and more may follow (`text`); no step is given back (`steps`); a call that is spent
/// leaves no step (`spent`).
pub fn a_call_goes_on()
    ensures same { (project : Project) (bodies : Bodies) → AreOfTrees project bodies → (depth : ℕ) (frames : List Frame) (unit : Option Spot) (routine : Routine) (receiver : Value) (args : List Argument) (w : World) (more : ℕ)
        → is_spent (script_calls project bodies depth frames unit routine receiver args w) ≡ false
        → script_calls project bodies depth frames unit routine receiver args (with_more more w) ≡ more_left more (script_calls project bodies depth frames unit routine receiver args w) }
    ensures text { (project : Project) (bodies : Bodies) → AreOfTrees project bodies → (depth : ℕ) (frames : List Frame) (unit : Option Spot) (routine : Routine) (receiver : Value) (args : List Argument) (w : World)
        → Begins w.printed (world_of (script_calls project bodies depth frames unit routine receiver args w)).printed }
    ensures steps { (project : Project) (bodies : Bodies) → AreOfTrees project bodies → (depth : ℕ) (frames : List Frame) (unit : Option Spot) (routine : Routine) (receiver : Value) (args : List Argument) (w : World)
        → (world_of (script_calls project bodies depth frames unit routine receiver args w)).left ≤ w.left }
    ensures spent { (project : Project) (bodies : Bodies) → AreOfTrees project bodies → (depth : ℕ) (frames : List Frame) (unit : Option Spot) (routine : Routine) (receiver : Value) (args : List Argument) (w : World)
        → is_spent (script_calls project bodies depth frames unit routine receiver args w) ≡ true
        → (world_of (script_calls project bodies depth frames unit routine receiver args w)).left ≡ 0 }
{}

/// What a file of one class does is what its trees mean, so that the law of allowances holds of its runs.
pub fn a_file_does_what_its_trees_mean()
    ensures trees { (project : Project) (members : List Member) → AreOfTrees project (bodies_of_rows (own_means project members ∷ [])) }
{}
