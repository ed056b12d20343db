// Worked rows of the definitions, and what holds of the facts, the faults and the outcomes of every folder.
ghost use Rattle.std.specs.Prelude.{◌≡◌, ◌<◌, ◌↔◌, ◌⊎◌, ℕ, Contains, List, Result, length};
ghost use Rattle.gd_syntax.specs.declared.fault.LoadFault.{LoadFault};
ghost use Rattle.folder_meaning.specs.KnownValue.{KnownValue};
ghost use Rattle.folder_meaning.specs.declared.facts.Content.{Content};
ghost use Rattle.folder_meaning.specs.declared.facts.FileFacts.{FileFacts};
ghost use Rattle.facts.specs.Facts.{HasFact, IsAtFault, IsResolved};
ghost use Rattle.facts.specs.FiniteNodes.{LeadsToFault};
ghost use Rattle.facts.specs.Outcome.{Outcome};
ghost use Rattle.folder_rules.specs.BaseRows.{BaseRows};
ghost use Rattle.folder_rules.specs.Folders.{Folder};
ghost use Rattle.folder_rules.specs.InnerRows.{InnerRows};
ghost use Rattle.folder_rules.specs.KnownFolder.{IsKnownOf, IsKnownWhole, known_folder};
ghost use Rattle.folder_rules.specs.Links.{classes_in};
ghost use Rattle.folder_rules.specs.Loads.{HasFault, HasOutcomeAt, IsDoneAtBases};
ghost use Rattle.folder_rules.specs.Nodes.{Base, FactOf, Fault, Node};
ghost use Rattle.folder_rules.specs.Reached.{HasFaultBehind, HasSameReads, IsRead, IsReached, IsReadAlike, file_of, with_look};
ghost use Rattle.folder_rules.specs.Rules.{nodes_of, rules_of};
ghost use Rattle.folder_rules.specs.Solving.{ComesTo, Solving};

/// Small folders whose files were read by hand: which files they name, the ancestors of their classes, and the faults of their bases
/// and of their global names (`bases`). The classes of files with inner ones, and what a base means there (`classes`).
pub fn folders_mean_as_worked_out()
    ensures bases { BaseRows }
    ensures classes { InnerRows }
{}

/// Each node of a folder has its fact, or it is at fault or leads to one that is (`fact`). It has a fault or none (`fault`).
pub fn nodes_of_folders_are_decided()
    ensures fact { (folder : Folder) (n : Node) → IsResolved (rules_of folder) n ⊎ LeadsToFault (rules_of folder) n }
    ensures fault { (folder : Folder) (n : Node) → ((x : Fault) × IsAtFault (rules_of folder) n x) ⊎ ((x : Fault) → IsAtFault (rules_of folder) n x → ⊥) }
{}

/// Each file of a folder has exactly one outcome at stage k + 1: one at least (`some`) and one at most (`one`).
pub fn each_stage_has_one_outcome()
    ensures some { (folder : Folder) (k file : ℕ) → (v : Outcome Fault) × HasOutcomeAt folder k file v }
    ensures one { (folder : Folder) (k file : ℕ) (v w : Outcome Fault) → HasOutcomeAt folder k file v → HasOutcomeAt folder k file w → v ≡ w }
{}

/// Where all that the bases and the `preload` constants of a file lead to has the same text, whatever the other files are read as,
/// nodes there have the same facts (`facts`) and the same faults (`faults`), and the files there the same faults (`files`). This
/// is wider than base files: a base may be a constant that an ancestor declares, and no base of the file or of its base files
/// names the file behind the `preload` of that constant.
pub fn files_hang_on_what_they_read()
    ensures facts { (folder : Folder) (other : ℕ → Result Content LoadFault) (file : ℕ) → HasSameReads folder other file → (n : Node) → IsRead folder file (file_of n) → (f : FactOf n) → HasFact (rules_of folder) n f ↔ HasFact (rules_of (with_look folder other)) n f }
    ensures faults { (folder : Folder) (other : ℕ → Result Content LoadFault) (file : ℕ) → HasSameReads folder other file → (n : Node) → IsRead folder file (file_of n) → (x : Fault) → IsAtFault (rules_of folder) n x ↔ IsAtFault (rules_of (with_look folder other)) n x }
    ensures files { (folder : Folder) (other : ℕ → Result Content LoadFault) (file : ℕ) → HasSameReads folder other file → (read : ℕ) → IsRead folder file read → (x : Fault) → HasFault folder read x ↔ HasFault (with_look folder other) read x }
{}

/// Where all that a file reaches, by its links too, has the same text, the files there have the same outcomes at every stage.
pub fn outcomes_hang_on_what_is_reached()
    ensures { (folder : Folder) (other : ℕ → Result Content LoadFault) (file : ℕ) → IsReadAlike folder other file → (k reached : ℕ) (v : Outcome Fault) → IsReached folder file reached → HasOutcomeAt folder k reached v ↔ HasOutcomeAt (with_look folder other) k reached v }
{}

/// A node of a file that has no fact lies before a fault: a file that bases and constants lead to has one.
pub fn what_has_no_fact_reaches_a_fault()
    ensures { (folder : Folder) (file : ℕ) (n : Node) → file_of n ≡ file → Contains (nodes_of folder file) n → IsResolved (rules_of folder) n ⊎ HasFaultBehind folder file }
{}

/// A file whose value at stage 2 is done has the ancestors of each of its classes.
pub fn done_at_stage_two_has_ancestors()
    ensures { (folder : Folder) (file : ℕ) (facts : FileFacts) → IsDoneAtBases folder file facts → (index : ℕ) → index < length (classes_in facts.content) → IsResolved (rules_of folder) (Base (record { file = file; index = index })) }
{}

/// Where the facts of all files are known that the bases and the `preload` constants of a file lead to, they give what the whole
/// folder gives, whatever the other files are read as: the facts there (`facts`), the faults of the file (`faults`), and what its
/// stage 2 comes to (`solving`).
pub fn what_is_known_is_that_of_the_folder()
    ensures facts { (paths : List (List ℕ)) (known : KnownValue) (look : ℕ → Result Content LoadFault) (file : ℕ) → IsKnownWhole paths known file → IsKnownOf paths known look → (n : Node) → IsRead (known_folder paths known) file (file_of n) → (f : FactOf n) → HasFact (rules_of (known_folder paths known)) n f ↔ HasFact (rules_of (with_look (known_folder paths known) look)) n f }
    ensures faults { (paths : List (List ℕ)) (known : KnownValue) (look : ℕ → Result Content LoadFault) (file : ℕ) → IsKnownWhole paths known file → IsKnownOf paths known look → (x : Fault) → HasFault (known_folder paths known) file x ↔ HasFault (with_look (known_folder paths known) look) file x }
    ensures solving { (paths : List (List ℕ)) (known : KnownValue) (look : ℕ → Result Content LoadFault) (file : ℕ) → IsKnownWhole paths known file → IsKnownOf paths known look → (content : Content) (v : Solving) → ComesTo (known_folder paths known) file content v ↔ ComesTo (with_look (known_folder paths known) look) file content v }
{}

/// Stage 2 of a file with this content comes to one of three (`some`), and to no other (`one`): it has no fault and its classes all
/// have ancestors, it has a first fault, or it has no fault and a class without ancestors.
pub fn bases_come_to_one_of_three()
    ensures some { (folder : Folder) (file : ℕ) (content : Content) → (v : Solving) × ComesTo folder file content v }
    ensures one { (folder : Folder) (file : ℕ) (content : Content) (v w : Solving) → ComesTo folder file content v → ComesTo folder file content w → v ≡ w }
{}
