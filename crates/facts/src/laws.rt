// Laws of facts, faults and outcomes, for rules of every kind.

ghost use Rattle.std.specs.Prelude.{[], Some, ◌≡◌, ◌<◌, ◌⊎◌, ℕ, List, Contains};
ghost use Rattle.facts.specs.Evaluation.{Failed, Waits, ends_at, evaluated};
ghost use Rattle.facts.specs.Facts.{FailsWith, HasFact, IsAtFault, IsPart, IsResolved, IsUnresolved, LeadsTo, Requires, Rules};
ghost use Rattle.facts.specs.FiniteNodes.{AreNumbered, IsClosed, IsRanked, LeadsToFault};
ghost use Rattle.facts.specs.Needs.{Needs};
ghost use Rattle.facts.specs.Outcome.{HasOutcome, HasRefusedFile, IsEnded, IsFinite, Outcome};
ghost use Rattle.facts.specs.Reach.{Cover, Reaches};
ghost use Rattle.facts.specs.Situations.{Agreement, Likeness, Nodes, Stages};

/// A language: its nodes, with the kind of each one's fact, and its faults. Laws hold of all rules for them.
pub trait HasNodes {
    ghost use Rattle.facts.specs.Situations.{Nodes};

    ghost nodes: { Nodes };
}

/// Two sets of rules that agree on some nodes.
pub trait HasAgreement {
    ghost use Rattle.facts.specs.Situations.{Agreement};

    ghost agreement: { Agreement };
}

/// Files that go through stages.
pub trait HasStages {
    ghost use Rattle.facts.specs.Situations.{Stages};

    ghost stages: { Stages };
}

/// Two folders that are alike on some files.
pub trait HasLikeness {
    ghost use Rattle.facts.specs.Situations.{Likeness};

    ghost likeness: { Likeness };
}

/// A node has one fact at most (`fact`) and one fault at most (`fault`), and not both (`apart`).
pub fn a_node_has_one_fact<L: HasNodes>()
    ensures fact { (rules : Rules L.nodes.FactOf L.nodes.Fault) (n : L.nodes.Node) (f g : L.nodes.FactOf n) → HasFact rules n f → HasFact rules n g → f ≡ g }
    ensures fault { (rules : Rules L.nodes.FactOf L.nodes.Fault) (n : L.nodes.Node) (x y : L.nodes.Fault) → IsAtFault rules n x → IsAtFault rules n y → x ≡ y }
    ensures apart { (rules : Rules L.nodes.FactOf L.nodes.Fault) (n : L.nodes.Node) (x : L.nodes.Fault) → IsResolved rules n → IsAtFault rules n x → ⊥ }
{}

/// A node whose parts all have facts has a fact, or its rule fails (`given`). What a node with a fact needs has a fact too (`needed`).
/// A node that needs itself has no fact (`cycle`), and parts without facts lead from it back to it (`back`).
pub fn facts_hang_on_needs<L: HasNodes>()
    ensures given { (rules : Rules L.nodes.FactOf L.nodes.Fault) (n : L.nodes.Node) → ((m : L.nodes.Node) → IsPart rules n m → IsResolved rules m) → IsResolved rules n ⊎ ((x : L.nodes.Fault) × FailsWith rules (rules.rule n) x) }
    ensures needed { (rules : Rules L.nodes.FactOf L.nodes.Fault) (n m : L.nodes.Node) → IsResolved rules n → Needs rules n m → IsResolved rules m }
    ensures cycle { (rules : Rules L.nodes.FactOf L.nodes.Fault) (n : L.nodes.Node) → Needs rules n n → IsUnresolved rules n }
    ensures back { (rules : Rules L.nodes.FactOf L.nodes.Fault) (n : L.nodes.Node) → Needs rules n n → LeadsTo rules n n }
{}

/// Among finitely many nodes, a node that has no fact is at fault or leads to one that is, along parts without facts.
pub fn a_node_without_a_fact_leads_to_a_fault<L: HasNodes>()
    ensures { (rules : Rules L.nodes.FactOf L.nodes.Fault) (all : List L.nodes.Node) → IsClosed rules all → (rank : L.nodes.Node → ℕ) → IsRanked rules rank → (n : L.nodes.Node) → Contains all n → IsUnresolved rules n → LeadsToFault rules n }
{}

/// Among finitely many nodes, each has a fact or none (`fact`), and a fault or none (`fault`).
pub fn facts_are_decided<L: HasNodes>()
    ensures fact { (rules : Rules L.nodes.FactOf L.nodes.Fault) (all : List L.nodes.Node) → IsClosed rules all → (n : L.nodes.Node) → Contains all n → IsResolved rules n ⊎ IsUnresolved rules n }
    ensures fault { (rules : Rules L.nodes.FactOf L.nodes.Fault) (all : List L.nodes.Node) → IsClosed rules all → (rank : L.nodes.Node → ℕ) → IsRanked rules rank → AreNumbered rules all → (n : L.nodes.Node) → Contains all n → ((x : L.nodes.Fault) × IsAtFault rules n x) ⊎ ((x : L.nodes.Fault) → IsAtFault rules n x → ⊥) }
{}

/// What is computed in some steps is so: a fact (`fact`), the fault of a node with no nodes below it (`fault`), and what a rule waits for
/// (`needed`).
pub fn facts_can_be_computed<L: HasNodes>()
    ensures fact { (rules : Rules L.nodes.FactOf L.nodes.Fault) (steps : ℕ) (n : L.nodes.Node) (f : L.nodes.FactOf n) → evaluated rules steps n ≡ Some f → HasFact rules n f }
    ensures fault { (rules : Rules L.nodes.FactOf L.nodes.Fault) (steps : ℕ) (n : L.nodes.Node) (x : L.nodes.Fault) → rules.children n ≡ [] → ends_at rules steps n ≡ Failed x → IsAtFault rules n x }
    ensures needed { (rules : Rules L.nodes.FactOf L.nodes.Fault) (steps : ℕ) (n m : L.nodes.Node) → ends_at rules steps n ≡ Waits m → Requires rules (rules.rule n) m }
{}

/// Rules that agree on some nodes, which parts do not lead out of, give these the same facts, the same faults and the same parts.
pub fn agreeing_rules_give_the_same<A: HasAgreement>()
    ensures facts { (n : A.agreement.nodes.Node) → A.agreement.Inside n → (f : A.agreement.nodes.FactOf n) → HasFact A.agreement.one n f → HasFact A.agreement.two n f }
    ensures facts_back { (n : A.agreement.nodes.Node) → A.agreement.Inside n → (f : A.agreement.nodes.FactOf n) → HasFact A.agreement.two n f → HasFact A.agreement.one n f }
    ensures faults { (n : A.agreement.nodes.Node) → A.agreement.Inside n → (x : A.agreement.nodes.Fault) → IsAtFault A.agreement.one n x → IsAtFault A.agreement.two n x }
    ensures faults_back { (n : A.agreement.nodes.Node) → A.agreement.Inside n → (x : A.agreement.nodes.Fault) → IsAtFault A.agreement.two n x → IsAtFault A.agreement.one n x }
    ensures parts { (n m : A.agreement.nodes.Node) → A.agreement.Inside n → IsPart A.agreement.one n m → IsPart A.agreement.two n m }
    ensures parts_back { (n m : A.agreement.nodes.Node) → A.agreement.Inside n → IsPart A.agreement.two n m → IsPart A.agreement.one n m }
{}

/// A stage of a file has one outcome: one at most where the order of faults is antisymmetric (`one`), and one at least where needs and
/// faults are finite (`some`). A file that ended, refused or blocked, reaches one that is refused (`cause`), by all links that the
/// needs are among.
pub fn outcomes_are_determined<S: HasStages>()
    ensures one { ((x y : S.stages.Fault) → S.stages.order x y → S.stages.order y x → x ≡ y) → (k p : ℕ) (v w : Outcome S.stages.Fault) → HasOutcome S.stages.stage S.stages.order S.stages.fault S.stages.needs k p v → HasOutcome S.stages.stage S.stages.order S.stages.fault S.stages.needs k p w → v ≡ w }
    ensures some { IsFinite S.stages.stage S.stages.order S.stages.fault S.stages.needs → (k p : ℕ) → (v : Outcome S.stages.Fault) × HasOutcome S.stages.stage S.stages.order S.stages.fault S.stages.needs k p v }
    ensures cause { IsFinite S.stages.stage S.stages.order S.stages.fault S.stages.needs → (links : ℕ → List ℕ) → ((k p q : ℕ) → Reaches (S.stages.needs k) p q → Reaches links p q) → (k p : ℕ) → IsEnded S.stages.stage S.stages.order S.stages.fault S.stages.needs k p → HasRefusedFile S.stages.stage S.stages.order S.stages.fault S.stages.needs links p }
{}

/// The outcomes of a file hang on the files that its needs lead to: where two folders are alike on these, it has the same outcomes.
pub fn outcomes_hang_on_their_files<F: HasLikeness>()
    ensures there { (k p : ℕ) (v : Outcome F.likeness.stages.Fault) → F.likeness.Inside p → HasOutcome F.likeness.stages.stage F.likeness.stages.order F.likeness.stages.fault F.likeness.stages.needs k p v → HasOutcome F.likeness.stages.stage F.likeness.stages.order F.likeness.other_fault F.likeness.other_needs k p v }
    ensures back { (k p : ℕ) (v : Outcome F.likeness.stages.Fault) → F.likeness.Inside p → HasOutcome F.likeness.stages.stage F.likeness.stages.order F.likeness.other_fault F.likeness.other_needs k p v → HasOutcome F.likeness.stages.stage F.likeness.stages.order F.likeness.stages.fault F.likeness.stages.needs k p v }
{}

/// What is reached by links between finitely many files is a finite list.
pub fn reached_files_are_listed()
    ensures { (next : ℕ → List ℕ) (n : ℕ) → ((a b : ℕ) → Contains (next a) b → b < n) → (a : ℕ) → Cover next a }
{}
