//! Laws of reading alone, over lists of bytes.

ghost use Rattle.std.specs.Prelude.{◌≡◌, ◌++◌, ℕ, List, Result, Err};
ghost use Rattle.rc_lang.specs.Program.{Program};
ghost use Rattle.rc_read.specs.Answer.{answer_of, judged};
ghost use Rattle.rc_read.specs.OneAnswer.{HasAnswer};
ghost use Rattle.rc_read.specs.Sheets.{empty};
ghost use Rattle.rc_read.specs.Words.{cut};

/// Each model has exactly one answer. If some line has a fault, it is the first such line and the lowest-numbered fault
/// there. Otherwise it is a fault at the end of the model, or the program.
pub fn each_text_has_one_answer()
    ensures some { (bytes : List ℕ) → HasAnswer bytes (answer_of bytes) }
    ensures one { (bytes : List ℕ) (a b : Result Program (ℕ × ℕ))
        → HasAnswer bytes a → HasAnswer bytes b → a ≡ b }
{}

/// The fault of a line that a line feed has ended is the fault of every model that goes on from there.
pub fn a_fault_is_that_of_every_continuation()
    ensures { (bytes more : List ℕ) (fault : ℕ × ℕ) → judged empty (cut bytes).0 ≡ Err fault
        → answer_of (bytes ++ more) ≡ Err fault }
{}
