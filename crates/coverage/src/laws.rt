//! Laws of sets of numbers, each as the contract of a function that does nothing.
ghost use Rattle.std.specs.Prelude.{◌≡◌, ◌<◌, ℕ, Bool, true, List};
ghost use Rattle.std.specs.List.{count_by, range_with_len};
ghost use Rattle.coverage.specs.Intervals.{Interval, IsCanonical, holds, size_of};
ghost use Rattle.coverage.specs.Summary.{IsSummary, Sources, holds_at, version_of};
ghost use Rattle.coverage.specs.CoverText.{IsCoverText};
ghost use Rattle.coverage.specs.SummaryText.{summary_text};
ghost use Rattle.coverage.specs.Digests.{DeltaIsLacking, OneSummary, WantedIsDelta};

/// Each set of numbers has one canonical list of intervals.
pub fn numbers_tell_intervals()
    ensures { (s t : List Interval) → IsCanonical s → IsCanonical t
        → ((n : ℕ) → holds s n ≡ holds t n) → s ≡ t }
{}

/// The size of intervals is how many of the numbers below any limit of theirs they hold.
pub fn size_counts_numbers()
    ensures { (s : List Interval) (limit : ℕ) → IsCanonical s
        → ((n : ℕ) → holds s n ≡ true → n < limit)
        → size_of s ≡ count_by (holds s) (range_with_len 0 limit) }
{}

/// Summaries of version 1 that hold the same numbers of the same sources are the same.
pub fn numbers_tell_summaries()
    ensures { (s t : Sources) → IsSummary s → IsSummary t
        → version_of s ≡ 1 → version_of t ≡ 1
        → ((source : List ℕ) (n : ℕ) → holds_at s source n ≡ holds_at t source n) → s ≡ t }
{}

/// The numbers of the sources determine the text of the summary that says which they are.
pub fn numbers_tell_cover_texts()
    ensures one { (has had : List ℕ → ℕ → Bool) (t u : List ℕ)
        → ((source : List ℕ) (n : ℕ) → has source n ≡ had source n)
        → IsCoverText has t → IsCoverText had u → t ≡ u }
    ensures alike { (has had : List ℕ → ℕ → Bool) (t : List ℕ)
        → ((source : List ℕ) (n : ℕ) → has source n ≡ had source n)
        → IsCoverText has t → IsCoverText had t }
{}

/// A summary that digests a set stands for the set: for a peer's in what it lacks, and for the own
/// in what is to be sent.
pub fn summaries_stand_for_sets()
    ensures lacking { DeltaIsLacking }
    ensures wanted { WantedIsDelta }
{}

/// A set has one summary of version 2.
pub fn sets_have_one_summary()
    ensures { OneSummary }
{}

/// Different summaries have different texts, of whichever versions they are.
pub fn texts_tell_summaries()
    ensures { (s t : Sources) → IsSummary s → IsSummary t
        → summary_text s ≡ summary_text t → s ≡ t }
{}
