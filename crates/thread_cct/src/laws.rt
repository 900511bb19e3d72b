ghost use Rattle.std.specs.Prelude.{◌≡◌, ℕ, ◌+◌, ◌<◌, ◌≤◌, ◌++◌, ◌==◌, List, length, map, All, count_by};
ghost use Rattle.scope_types.specs.Alike.{Alike};
ghost use Rattle.scope_types.specs.CallPaths.{ColumnPath};
ghost use Rattle.scope_types.specs.Distinct.{ColumnRaw, distinct, each_sample, frames_in, samples_in};
ghost use Rattle.scope_types.specs.declared.frame.Counted.{Counted};
ghost use Rattle.thread_cct.specs.Adding.{behind_columns, samples_of_column};

/// There is a list for each column. The samples that are counted are all samples, in another order, and so are
/// the call paths that they have. Of each column as many are counted as it has. With more samples there are no fewer
/// frames.
#[tactic(auto, using(crate::proofs::Samples::distinct_laws, crate::proofs::Counts::each_counted))]
pub fn samples_are_counted()
    ensures columns { (columns : ℕ) (samples : List ColumnRaw) → length (distinct columns samples) ≡ columns }
    ensures alike { (columns : ℕ) (samples : List ColumnRaw) (call_path : ColumnRaw → ColumnPath)
        → All (λ s. s.column < columns) samples
        → Alike (map call_path (each_sample (distinct columns samples))) (map call_path samples) }
    ensures each { (columns column : ℕ) (samples : List ColumnRaw) → column < columns
        → samples_of_column (distinct columns samples) column ≡ count_by (λ s. s.column == column) samples }
    ensures grow { (columns : ℕ) (samples more : List ColumnRaw) → All (λ s. s.column < columns) more
        → frames_in (distinct columns samples) ≤ frames_in (distinct columns (samples ++ more)) }
{}

/// Where the columns of one list of counted paths follow those of another, the samples are those of the first and then
/// those of the second, whose columns lie behind the first's. What is counted of samples of both is what is counted of
/// each.
#[tactic(auto, using(crate::proofs::Appended::appended_laws))]
pub fn appended_samples_are_counted()
    ensures each { (own other : List (List Counted))
        → each_sample (own ++ other) ≡ each_sample own ++ map (behind_columns (length own)) (each_sample other) }
    ensures distinct { (columns more : ℕ) (own other : List ColumnRaw) → All (λ s. s.column < columns) own
        → distinct (columns + more) (own ++ map (behind_columns columns) other)
        ≡ distinct columns own ++ distinct more other }
    ensures frames { (own other : List (List Counted)) → frames_in (own ++ other) ≡ frames_in own + frames_in other }
    ensures samples { (own other : List (List Counted))
        → samples_in (own ++ other) ≡ samples_in own + samples_in other }
{}
