//! What follows from the texts of lines, as functions whose contracts are these laws.
ghost use Rattle.std.specs.Prelude.{◌≡◌, ◌≤◌, List, ℕ, length};
ghost use Rattle.ulfm_lines.specs.LineTexts.{TraceLine, line_text};
ghost use Rattle.ulfm_lines.specs.Telling.{LineFits, TextTells};

/// One text tells one line of a trace, and the ranks that it lists.
pub fn one_text_tells_one_line()
    ensures { (text g h : List ℕ) (a b : TraceLine) → TextTells text g a → TextTells text h b → (a ≡ b) × (g ≡ h) }
{}

/// A line that fits is told by the text that is printed, which [`crate::read_line`] reads.
pub fn printed_lines_are_told()
    ensures { (group : List ℕ) (line : TraceLine) → LineFits group line → length (line_text group line) ≤ 8192
        → TextTells (line_text group line) group line }
{}
