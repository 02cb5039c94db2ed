//! The law of contents: the function's contract is the law, and it does nothing.
ghost use Rattle.std.specs.Prelude.{◌≡◌, ◌≤◌, ◌+◌, ◌↔◌, ◌++◌, ◌∷◌, [], ℕ, Bool, true, List, map};
ghost use Rattle.std.specs.Prelude.{filter};
ghost use Rattle.std.specs.List.{AllByRecursion};
ghost use Rattle.ncq_base.specs.Counts.{SameCounts};
ghost use Rattle.ncq_base.specs.Keys.{times};
ghost use Rattle.ncq_row.specs.Embeddings.{Row};
ghost use Rattle.ncq_midfile.specs.Content.{gains, losses, up_to, since, IsContent, IsSoundAt};
ghost use Rattle.ncq_midfile.specs.Folds.{IsFolded};
ghost use Rattle.ncq_base.specs.declared.interval.Interval.{Interval};
ghost use Rattle.ncq_midfile.specs.Made.{gained_at};
ghost use Rattle.ncq_midfile.specs.Rows.{is_row};
ghost use Rattle.ncq_midfile.specs.Views.{of_rows, is_within, is_held, is_kept, is_missing};
ghost use Rattle.ncq_midfile.specs.Views.{AreHeld};
ghost use Rattle.ncq_midfile.specs.Views.{HaveContents, HaveTheSame, GainEach};
ghost use Rattle.ncq_midfile.specs.declared.signed.SignedRow.{SignedRow};

/// A list is the content at a number exactly where each row stands in it as often as it came in up
/// to that number, less as often as it went out; a file is sound there exactly where none went out
/// more often than it came in. Two lists that are the content have the same rows, each as often.
pub fn contents_are_counted()
    ensures rows { (n : ℕ) (rows : List SignedRow) (list : List Row) → IsContent n rows list
        ↔ ((row : Row) → times (is_row row) list + times (is_row row) (losses (up_to n rows))
        ≡ times (is_row row) (gains (up_to n rows))) }
    ensures sound { (n : ℕ) (rows : List SignedRow) → IsSoundAt n rows
        ↔ ((row : Row) → times (is_row row) (losses (up_to n rows))
        ≤ times (is_row row) (gains (up_to n rows))) }
    ensures one { (n : ℕ) (rows : List SignedRow) (list other : List Row)
        → IsContent n rows list → IsContent n rows other → SameCounts list other }
{}

/// The laws of views. The content of the rows of a test is the part of the content that passes it.
/// A new interval: where at `n` each standing interval has its content, and each row is held, then
/// with the rows of the list that the new interval has and no standing one, as rows that came in at
/// `n`, each standing interval has the rows that it had, the new one has its content, and each row
/// is held. The rows that remaining intervals hold leave each of these what it had; they are those
/// that the interval that goes has not, or one that remains has. The signed rows of a change that
/// some interval holds, each once, give each interval what it has of the change.
pub fn views_keep_their_contents()
    ensures tests { (n : ℕ) (test : Row → Bool) (rows : List SignedRow) (list : List Row)
        → IsContent n rows list → IsContent n (of_rows test rows) (filter test list) }
    ensures sound { (n : ℕ) (test : Row → Bool) (rows : List SignedRow)
        → IsSoundAt n rows → IsSoundAt n (of_rows test rows) }
    ensures content_sound { (n : ℕ) (rows : List SignedRow) (list : List Row)
        → IsContent n rows list → IsSoundAt n rows }
    ensures install_leaves { (n slot : ℕ) (standing : List Interval) (interval : Interval)
        (rows : List SignedRow) (list : List Row)
        → HaveTheSame slot standing rows
        (rows ++ map (gained_at n) (filter (is_missing slot standing interval) list)) }
    ensures install_gives { (n slot : ℕ) (standing : List Interval) (interval : Interval)
        (rows : List SignedRow) (list : List Row)
        → HaveContents n slot standing rows list → AreHeld slot standing rows
        → IsContent n (of_rows (is_within slot interval)
        (rows ++ map (gained_at n) (filter (is_missing slot standing interval) list)))
        (filter (is_within slot interval) list) }
    ensures install_holds { (n slot : ℕ) (standing : List Interval) (interval : Interval)
        (rows : List SignedRow) (list : List Row) → AreHeld slot standing rows
        → AreHeld slot (standing ++ interval ∷ [])
        (rows ++ map (gained_at n) (filter (is_missing slot standing interval) list)) }
    ensures keep_leaves { (slot : ℕ) (intervals : List Interval) (rows : List SignedRow)
        → HaveTheSame slot intervals rows (of_rows (is_held slot intervals) rows) }
    ensures keep_holds { (slot : ℕ) (intervals : List Interval) (rows : List SignedRow)
        → AreHeld slot intervals (of_rows (is_held slot intervals) rows) }
    ensures kept_are_held { (slot : ℕ) (gone : Interval) (intervals : List Interval)
        (rows : List SignedRow) → AreHeld slot (gone ∷ intervals) rows
        → of_rows (is_kept slot gone intervals) rows ≡ of_rows (is_held slot intervals) rows }
    ensures news_give { (slot : ℕ) (intervals : List Interval) (rows news : List SignedRow)
        → GainEach slot intervals rows news (rows ++ of_rows (is_held slot intervals) news) }
    ensures news_hold { (slot : ℕ) (intervals : List Interval) (rows news : List SignedRow)
        → AreHeld slot intervals rows
        → AreHeld slot intervals (rows ++ of_rows (is_held slot intervals) news) }
{}

/// The laws of folds and cuts. Where pairs with numbers up to `m` were struck out, each view has at
/// every number from `m` on the content that it had, is sound where it was, and has above it the
/// rows that it had. Where the rows above `n` went, each view has up to `n` the content that it
/// had.
pub fn folds_and_cuts_keep_contents()
    ensures content { (m n : ℕ) (test : Row → Bool) (old new : List SignedRow)
        → IsFolded m old new → m ≤ n → (list : List Row)
        → IsContent n (of_rows test old) list ↔ IsContent n (of_rows test new) list }
    ensures sound { (m n : ℕ) (test : Row → Bool) (old new : List SignedRow)
        → IsFolded m old new → m ≤ n
        → IsSoundAt n (of_rows test old) ↔ IsSoundAt n (of_rows test new) }
    ensures since { (m n : ℕ) (test : Row → Bool) (old new : List SignedRow)
        → IsFolded m old new → m ≤ n
        → since n (of_rows test new) ≡ since n (of_rows test old) }
    ensures each { (m : ℕ) (test : SignedRow → Bool) (old new : List SignedRow)
        → IsFolded m old new → AllByRecursion (λ r. test r ≡ true) old
        → AllByRecursion (λ r. test r ≡ true) new }
    ensures cut { (n : ℕ) (test : Row → Bool) (rows : List SignedRow)
        → of_rows test (up_to n rows) ≡ up_to n (of_rows test rows) }
    ensures cut_content { (k n : ℕ) (test : Row → Bool) (rows : List SignedRow)
        (list : List Row) → k ≤ n
        → IsContent k (of_rows test rows) list ↔ IsContent k (of_rows test (up_to n rows)) list }
{}
