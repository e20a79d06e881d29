//! Laws of cut records, each the contract of a function that does nothing.
ghost use Rattle.std.specs.Prelude.{◌≡◌, ◌⊎◌, ◌<◌, ◌==◌, ◌++◌, ◌∷◌, [], ℕ, Bool, false, List, None};
ghost use Rattle.csv.specs.Machine.{Feeds};
ghost use Rattle.csv.specs.Reading.{AreRecords, default_config};
ghost use Rattle.csv.specs.declared.parser.State.{State};
ghost use Rattle.csv.specs.declared.parser.State.TheVariants as st;
ghost use Rattle.rtrace_form.specs.Records.{Row};
ghost use Rattle.rtrace_form.specs.Fields.{AreTables};
ghost use Rattle.rtrace_form.specs.SoFar.{SoFar, names_in, nothing_yet, with_row};
ghost use Rattle.rtrace_form.specs.Faults.{code_of, first_record_fault, read_all};
ghost use Rattle.rtrace_form.specs.Takers.{AreGood, list_code};
ghost use Rattle.rtrace_form.specs.WrongBounds.{bounds_said};
ghost use Rattle.rshort.specs.Closed.{state_after, IsOutside};
ghost use Rattle.rshort.specs.Cut.{IsCutRow, AreCutRows, IsCutPart, IsCutText, piece_in};

/// A cut record has the code of the whole one, and where it has none it says the same.
pub fn a_cut_record_has_its_code()
    ensures { (whole : Bool) (s : SoFar) (row cut : Row) → AreTables (names_in s) → IsCutRow row cut
        → (code_of whole s row ≡ code_of whole s cut) × (code_of whole s row ≡ None → with_row whole s row ≡ with_row whole s cut) }
{}

/// Two beginnings of a text lead to the same place of a record, of which one is cut: whatever follows, the records are cut.
pub fn what_may_be_left_out_changes_no_record()
    ensures { (bytes short : List ℕ) (s : State) (row cut : Row) (field left : List ℕ) → Feeds default_config st.StartRecord [] [] bytes s row field false
        → Feeds default_config st.StartRecord [] [] short s cut left false → IsCutPart row field cut left → IsCutText bytes short }
{}

/// A byte may be left out that joins a piece which is longer than any name or number.
pub fn a_long_piece_takes_no_more()
    ensures { (row cut : Row) (field left : List ℕ) (c : ℕ) → IsCutPart row field cut left → 20 < piece_in 0 left → (c == 43) ≡ false → IsCutPart row (field ++ c ∷ []) cut left }
{}

/// Cut records have the first fault of the whole ones.
pub fn cut_records_have_the_same_fault()
    ensures { (whole : Bool) (rows cut : List Row) → AreCutRows rows cut → first_record_fault whole rows ≡ first_record_fault whole cut }
{}

/// A text may be cut before an end of a line outside quotation marks: its records are those of both parts.
pub fn a_text_may_be_cut_before_a_line_end()
    ensures { (e : ℕ) → (e ≡ 10) ⊎ (e ≡ 13) → (xs ys : List ℕ) (rows after : List Row) → IsOutside (state_after st.StartRecord xs) → AreRecords default_config st.StartRecord xs rows
        → AreRecords default_config st.StartRecord ys after → AreRecords default_config st.StartRecord (xs ++ e ∷ ys) (rows ++ after) }
{}

/// Cut records without a fault say what the whole ones say, and report the same bounds.
pub fn cut_records_say_the_same()
    ensures said { (whole : Bool) (rows cut : List Row) → AreCutRows rows cut → AreGood (list_code whole) cut → read_all whole rows ≡ read_all whole cut }
    ensures bounds { (whole : Bool) (rows cut : List Row) → AreCutRows rows cut → AreGood (list_code whole) cut → bounds_said whole 1 nothing_yet rows ≡ bounds_said whole 1 nothing_yet cut }
{}

/// Records that are cut and then cut again are cut.
pub fn what_is_cut_again_is_cut()
    ensures { (rows mid cut : List Row) → AreCutRows rows mid → AreCutRows mid cut → AreCutRows rows cut }
{}
