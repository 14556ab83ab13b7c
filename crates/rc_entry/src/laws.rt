//! Laws of the spelling alone, over lists of bytes.

ghost use Rattle.std.specs.Prelude.{◌≡◌, ℕ, List};
ghost use Rattle.rc_entry.specs.Spelling.{SpellsEntry, SpellsCqe};
ghost use Rattle.rc_entry.specs.declared.Cqe.{Cqe};
ghost use Rattle.rc_entry.specs.declared.Entry.{Entry};

/// A value has one spelling.
pub fn a_value_has_one_spelling()
    ensures entries { (e : Entry) (xs ys : List ℕ) → SpellsEntry e xs → SpellsEntry e ys → xs ≡ ys }
    ensures completions { (c : Cqe) (xs ys : List ℕ) → SpellsCqe c xs → SpellsCqe c ys → xs ≡ ys }
{}

/// A spelling has one value.
pub fn a_spelling_has_one_value()
    ensures entries { (d e : Entry) (xs : List ℕ) → SpellsEntry d xs → SpellsEntry e xs → d ≡ e }
    ensures completions { (b c : Cqe) (xs : List ℕ) → SpellsCqe b xs → SpellsCqe c xs → b ≡ c }
{}
