//! Laws of the grammar. Each holds for every value, and its function does nothing.
ghost use Rattle.std.specs.Prelude.{◌≡◌, ℕ, List, [], ◌∷◌, ◌++◌};
ghost use Rattle.erm_script.specs.declared.fault.FaultKind.{FaultKind};
ghost use Rattle.erm_script.specs.declared.grammar.Grammar.{Grammar};
ghost use Rattle.erm_script.specs.declared.script.ScriptLine.{ScriptLine};
ghost use Rattle.erm_script.specs.Script.{AreScript, IsScript};
ghost use Rattle.erm_script.specs.Faults.{HasFault, IsFirstFault, IsFirstBadLine};
ghost use Rattle.erm_script.specs.Words.{words_of};

/// Scripts have one reading: no bytes spell two scripts, nor one with two orders of its sessions.
pub fn scripts_have_one_reading()
    ensures { (g : Grammar) (bytes : List ℕ) (names others : List (List ℕ)) (script other : List ScriptLine)
        → IsScript g bytes names script → IsScript g bytes others other → (names ≡ others) × (script ≡ other) }
{}

/// A line that goes on a script has no fault: where lines are those of a script, and so they are with one more, no kind
/// of fault applies to that one.
pub fn lines_of_scripts_have_no_fault()
    ensures { (g : Grammar) (before : List (ℕ × List ℕ)) (number : ℕ) (line : List ℕ) (names older : List (List ℕ))
        (script shorter : List ScriptLine) (kind : FaultKind)
        → AreScript g (before ++ (number, line) ∷ []) names script → AreScript g before older shorter
        → HasFault g older (words_of line) kind → ⊥ }
{}

/// First faults are unique: a line has one first kind of fault, and bytes have one first bad line, with one kind.
pub fn first_faults_are_unique()
    ensures kind { (g : Grammar) (names words : List (List ℕ)) (kind other : FaultKind)
        → IsFirstFault g names words kind → IsFirstFault g names words other → kind ≡ other }
    ensures line { (g : Grammar) (bytes : List ℕ) (number other_number : ℕ) (kind other : FaultKind)
        → IsFirstBadLine g bytes number kind → IsFirstBadLine g bytes other_number other
        → (number ≡ other_number) × (kind ≡ other) }
{}
