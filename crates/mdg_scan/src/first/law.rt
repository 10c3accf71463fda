//! What the words of the reader mean.
ghost use Rattle.std.specs.Prelude.{◌≡◌, ◌↔◌, ℕ, List};
ghost use Rattle.mdg_scan.specs.declared.first.form.Form.{Form};
ghost use Rattle.mdg_scan.specs.Form.{IsFirstUnfit, IsFormFile, IsStrict, in_form, no_tree, not_strict, read_of};
ghost use Rattle.mdg_scan.specs.Lines.{AreLines, lines_of};

/// What is read of a file is what spells it: a form is read exactly where the file's lines are those of that form,
/// and a line is read as out of form exactly where it is the first that no form has after the lines before it.
pub fn law_form()
    ensures form { (bytes : List ℕ) (form : Form) → (read_of bytes ≡ in_form form) ↔ IsFormFile bytes form }
    ensures strict { (bytes : List ℕ) → (read_of bytes ≡ not_strict) ↔ (IsStrict (lines_of bytes) → ⊥) }
    ensures unfit { (bytes : List ℕ) (number : ℕ) → (read_of bytes ≡ no_tree number) ↔ IsFirstUnfit (lines_of bytes) number }
{}

/// The lines of some bytes are what spells them.
pub fn law_lines()
    ensures { (bytes : List ℕ) (lines : List (List ℕ)) → (lines_of bytes ≡ lines) ↔ AreLines bytes lines }
{}
