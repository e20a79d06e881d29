//! Laws of scripts, each the contract of a function that does nothing.
ghost use Rattle.std.specs.Prelude.{◌≡◌, ℕ, List, None};
ghost use Rattle.rtrace_form.specs.Records.{Row};
ghost use Rattle.rscript.specs.Scripts.{ScriptFields, IsScript, Spells, IsTextOf};
ghost use Rattle.rscript.specs.SoFar.{told_in};
ghost use Rattle.rscript.specs.Faults.{first_fault, read_all};
ghost use Rattle.rscript.specs.Texts.{script_rows};

/// Records without a fault spell what they have said together.
pub fn no_fault_spells()
    ensures { (rows : List Row) → first_fault rows ≡ None → Spells rows (told_in (read_all rows)) }
{}

/// Records that spell a script have no fault, and it is what they have said together.
pub fn what_spells_has_no_fault()
    ensures { (rows : List Row) (script : ScriptFields) → Spells rows script → (first_fault rows ≡ None) × (told_in (read_all rows) ≡ script) }
{}

/// A text spells one script at most.
pub fn a_text_spells_one_script()
    ensures { (bytes : List ℕ) (script other : ScriptFields) → IsTextOf bytes script → IsTextOf bytes other → script ≡ other }
{}

/// The records written of a script spell that script.
pub fn what_is_written_spells()
    ensures { (script : ScriptFields) → IsScript script → Spells (script_rows script) script }
{}
