//! The laws of the files that are written for a text of G-code.

ghost use Rattle.std.specs.Prelude.{◌≡◌, ◌⊎◌, ◌-◌, ◌*◌, ◌++◌, ◌∷◌, [], All, ℕ, ℤ, List, codes, pos};
ghost use Rattle.bed_mesh.specs.Cuts.{cut_ends};
ghost use Rattle.bed_mesh.specs.Grids.{IsValidMesh, cell_height, height, offset};
ghost use Rattle.bed_mesh.specs.declared.mesh.Mesh.{Mesh};
ghost use Rattle.gcode_program.specs.Programs.{program_end, program_sections};
ghost use Rattle.laws_report.specs.meshes.Bent.{parts_to, raised_place};
ghost use Rattle.laws_report.specs.meshes.Borders.{IsInCell};
ghost use Rattle.laws_report.specs.meshes.Joined.{ExtrudeThrough, IsAsFast, Join, change_by};
ghost use Rattle.laws_report.specs.meshes.Written.{IsEnding, IsRefusedThere, IsSmallFile, accepted_end, bent_program, first_sections};
ghost use Rattle.bed_mesh.specs.Files.{mesh_code, mesh_end};
ghost use Rattle.bed_mesh.specs.BentLines.{at};
ghost use Rattle.plan_types.specs.declared.cause.Cause.TheVariants as cause;
ghost use Rattle.plan_types.specs.declared.cause.LineKind.{LineKind};
ghost use Rattle.plan_types.specs.declared.machine.Machine.{Machine};
ghost use Rattle.plan_types.specs.declared.plan.Move.{Move};
ghost use Rattle.plan_types.specs.Moves.{change};
ghost use Rattle.report_text.specs.Text.{end_text};
ghost use Rattle.text_core.specs.Lines.{lines_of};

/// The law of acceptance: on the same machine a file that is written for a text is accepted to its end, or to
/// the stop that is the last line of its code. The code alone always fits.
pub fn written_files_are_accepted()
    ensures accepted { (m : Machine) (t : Mesh) (text end : List ℕ) → IsEnding end →
        IsSmallFile (mesh_code m t text ++ end) →
        program_end m (mesh_code m t text ++ end)
        ≡ accepted_end (mesh_end m t text).stop (lines_of (mesh_code m t text)) (lines_of (mesh_code m t text ++ end)) }
    ensures fits { (m : Machine) (t : Mesh) (text : List ℕ) → IsSmallFile (mesh_code m t text) }
{}

/// The law of the bed: the sections of such a file are those of the text's accepted lines for which it is
/// written, in order, with each move replaced by the moves to its ends, with the bed's height added at each.
pub fn written_files_follow_the_bed()
    ensures { (m : Machine) (t : Mesh) (text end : List ℕ) → IsEnding end → IsSmallFile (mesh_code m t text ++ end) →
        program_sections m (mesh_code m t text ++ end) ≡ bent_program m t text }
{}

/// The law of the moves to a move's ends: from wherever they begin they join end to end up to the move's
/// target over the bed, at the move's speed and acceleration, and where they begin at its E, their changes of
/// E are the move's together. So they begin, since in the sections of a text each move begins at the E to
/// which the one before led.
pub fn moves_to_ends_join()
    ensures join { (t : Mesh) (m : Move) (x y z e : ℤ) →
        Join (x ∷ y ∷ z ∷ e ∷ []) (parts_to t m (x ∷ y ∷ z ∷ e ∷ []) (cut_ends t m)) (raised_place t m.to) }
    ensures fast { (t : Mesh) (m : Move) (from : List ℤ) → All (IsAsFast m) (parts_to t m from (cut_ends t m)) }
    ensures e { (t : Mesh) (m : Move) (x y z e : ℤ) → e ≡ at m.from 3 →
        change_by (parts_to t m (x ∷ y ∷ z ∷ e ∷ []) (cut_ends t m)) 3 ≡ change m 3 }
    ensures e_goes_on { (m : Machine) (text : List ℕ) (count : ℕ) →
        ExtrudeThrough (pos 0) (first_sections count m text) }
{}

/// The law of the text that is read for a file: it is read as it is read alone, or cut short where written
/// lines would be refused.
pub fn texts_are_read_for_files()
    ensures { (m : Machine) (t : Mesh) (text : List ℕ) →
        (mesh_end m t text ≡ program_end m text) ⊎ IsRefusedThere m t text }
{}

/// The law of the last line: the end line of how a text is read is, behind `; `, a comment. So the laws above
/// hold of the whole text that the command `mesh` writes, where it is small enough.
pub fn ends_are_comments()
    ensures done { (names : Machine) → IsEnding (codes "; " ++ end_text names cause.Done) }
    ensures asked { (names : Machine) (line : ℕ) → IsEnding (codes "; " ++ end_text names (cause.Asked line)) }
    ensures refused { (names : Machine) (line : ℕ) (kind : LineKind) →
        IsEnding (codes "; " ++ end_text names (cause.Line line kind)) }
{}

/// The law of borders: the height at a place, brought within the grid, is that in each cell that has it. So
/// where the place is on the border of cells, it is exactly the same by each of them.
pub fn heights_agree_on_borders()
    ensures { (t : Mesh) (x y : ℤ) (i j : ℕ) → IsValidMesh t → IsInCell t.x i (offset t.x x) →
        IsInCell t.y j (offset t.y y) →
        height t x y ≡ cell_height t i j (offset t.x x - i * t.x.step) (offset t.y y - j * t.y.step) }
{}
