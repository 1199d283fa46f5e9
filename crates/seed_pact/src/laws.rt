//! What is true of the definitions themselves, whatever the code does.

ghost use Rattle.std.specs.Prelude.{◌≡◌, ◌↔◌, ◌⊎◌, ◌++◌, ℕ, List, None, Some, All, codes, true};
ghost use Rattle.std.specs.List.Sorted.{IsPermutation};
ghost use Rattle.definitions.specs.Firsts.{IsFirstFault};
ghost use Rattle.definitions.specs.Texts.{Row};
ghost use Rattle.table_text.specs.Records.{begins_with};
ghost use Rattle.seed_pact.specs.Checks.{check_record, check_end, fault_of};
ghost use Rattle.seed_pact.specs.Commitments.{joint_seed_of};
ghost use Rattle.seed_pact.specs.Said.{commits_in, reveals_in};
ghost use Rattle.seed_pact.specs.Pacts.{PactValue, ReadsAs, TextReadsAs, TextHasFault, IsKeptBy};
ghost use Rattle.seed_pact.specs.declared.faults.PactKind.{PactKind};

/// The fault of a text, which is found from the left, is its first unlawful record, or the end
/// where all records are lawful; and it is the only one.
pub fn first_fault()
    ensures { (rows : List Row) (n : ℕ) (k : PactKind)
        → (fault_of rows ≡ Some (n, k)) ↔ IsFirstFault check_record check_end rows n k }
{}

/// A text reads as one value at most, or it has one fault, and it has a fault exactly where it reads as
/// none.
pub fn text_reads_once()
    ensures value { (bytes : List ℕ) (p q : PactValue)
        → TextReadsAs bytes p → TextReadsAs bytes q → p ≡ q }
    ensures fault { (bytes : List ℕ) (m n : ℕ) (j k : PactKind)
        → TextHasFault bytes m j → TextHasFault bytes n k → (m ≡ n) × (j ≡ k) }
    ensures either { (bytes : List ℕ) (p : PactValue) (n : ℕ) (k : PactKind)
        → TextReadsAs bytes p → ¬ (TextHasFault bytes n k) }
    ensures always { (bytes : List ℕ) → ((p : PactValue) × TextReadsAs bytes p)
        ⊎ ((n : ℕ) × (k : PactKind) × TextHasFault bytes n k) }
{}

/// Of a pact that was read each commitment is that of its name and of the contribution that is
/// revealed under that name, and the pact has these contributions in the order of the commitments.
pub fn commitments_are_kept()
    ensures { (rows : List Row) (p : PactValue) → ReadsAs rows p → IsKeptBy rows p }
{}

/// The order in which contributions are revealed changes nothing in the pact, nor in the seed: a text
/// stays lawful where they are revealed in another order, and reads as the same pact.
pub fn order_of_reveals()
    ensures reads { (front reveals others : List Row) (p : PactValue)
        → All (λ r. begins_with (codes "reveal") r ≡ true) reveals → IsPermutation reveals others
        → ReadsAs (front ++ reveals) p → ReadsAs (front ++ others) p }
    ensures pact { (rows others : List Row) (p q : PactValue) → ReadsAs rows p → ReadsAs others q
        → commits_in rows ≡ commits_in others
        → IsPermutation (reveals_in rows) (reveals_in others) → p ≡ q }
    ensures seed { (rows others : List Row) (p q : PactValue) → ReadsAs rows p → ReadsAs others q
        → commits_in rows ≡ commits_in others
        → IsPermutation (reveals_in rows) (reveals_in others)
        → joint_seed_of p.contributions ≡ joint_seed_of q.contributions }
{}
