//! What the table means.
ghost use Rattle.std.specs.Prelude.{◌≡◌, ℕ, true, Contains};
ghost use Rattle.rv_table.specs.Fields.{laid_out};
ghost use Rattle.rv_table.specs.Table.{Row, table, has_encoding, decoded};

/// No word has the encodings of two rows. So a word that has a row's encoding decodes to that row, and the
/// order of the rows says nothing.
pub fn each_word_has_one_row()
    ensures one { (word : ℕ) (r s : Row) → Contains table r → Contains table s
        → has_encoding word r ≡ true → has_encoding word s ≡ true → r ≡ s }
    ensures decodes { (word : ℕ) (r : Row) → Contains table r → has_encoding word r ≡ true
        → decoded word ≡ laid_out r.format r.operation word }
{}
