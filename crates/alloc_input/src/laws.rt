//! Laws of lawful texts, and of what their records say, for the crates above.

ghost use Rattle.std.specs.Prelude.{◌≡◌, ◌<◌, ◌≤◌, ◌*◌, ℕ, true, false, List, [], None, All, codes, drop, length, map, replicate};
ghost use Rattle.definitions.specs.Texts.{Row, first_field, has_name};
ghost use Rattle.definitions.specs.Values.{ProblemValue, SharesValue};
ghost use Rattle.table_text.specs.Records.{records_of};
ghost use Rattle.scaled_matrix.specs.Entries.{IsShares};
ghost use Rattle.alloc_input.specs.Cells.{numbers_to};
ghost use Rattle.alloc_input.specs.Matrices.{LawfulMatricesSuit, ReadsAsMatrix, header_of};
ghost use Rattle.alloc_input.specs.Once.{DemandsReadOnce, MatrixFirstFault, MatrixReadsOnce, PreferencesFirstFault, ProblemReadsOnce, QuotasFirstFault, QuotasReadOnce};
ghost use Rattle.alloc_input.specs.Prefs.{agent_rows};
ghost use Rattle.alloc_input.specs.Problems.{LawfulQuotasSuit, RowsReadAs};
ghost use Rattle.alloc_input.specs.Quotas.{quotas_fault};
ghost use Rattle.alloc_input.specs.SaidMatrices.{HasEntry, IsEntrySaid, row_at, text_at};
ghost use Rattle.alloc_input.specs.SaidPreferences.{list_on, names_on, with_none};
ghost use Rattle.alloc_input.specs.SaidQuotas.{demand_of, names_of, numbers_listed, set_of, set_places, set_records};
ghost use Rattle.alloc_input.specs.Stated.{Setting, stated_by};

/// Lawful quotas suit a problem over the objects that they declare: its contract says so of all records, and it does
/// nothing.
pub fn lawful_quotas_suit()
    ensures { LawfulQuotasSuit }
{}

/// The names of a lawful matrix suit the reader of quotas for `decompose`: its contract says so of all matrices, and it
/// does nothing.
pub fn lawful_matrices_suit()
    ensures { LawfulMatricesSuit }
{}

/// The fault of a text, which is found from the left, is its first unlawful record, or the end where all are lawful; and
/// it is the only one.
pub fn first_faults()
    ensures preferences { PreferencesFirstFault }
    ensures quotas { QuotasFirstFault }
    ensures matrix { MatrixFirstFault }
{}

/// The texts of preferences and of quotas read as one problem at most, or they have one fault, and they have a fault
/// exactly where they read as none.
pub fn problem_reads_once()
    ensures { ProblemReadsOnce }
{}

/// A text of quotas reads as the sets that it states and as their demands, each at one value at most, or it has one
/// fault, and it has a fault exactly where it reads as none.
pub fn quotas_read_once()
    ensures sets { QuotasReadOnce }
    ensures demands { DemandsReadOnce }
{}

/// A text of a matrix reads as one matrix at most, with its shares in lowest terms, or it has one fault, and it has a
/// fault exactly where it reads as none.
pub fn matrix_reads_once()
    ensures { MatrixReadsOnce }
{}

/// What the records of a matrix say, in the words of the records alone: the first record with fields is the header,
/// which begins with `agent`, and the objects are its other fields; each later record with fields is an agent's, whose
/// name is its first field; and an agent's share in an object is the one that the field below the object says, in lowest
/// terms, and 0 where that field is empty or missing.
pub fn what_a_matrix_says()
    ensures header { (rows : List Row) (m : SharesValue) → ReadsAsMatrix rows m
        → first_field (header_of rows) ≡ codes "agent" }
    ensures objects { (rows : List Row) (m : SharesValue) → ReadsAsMatrix rows m
        → m.objects ≡ drop 1 (header_of rows) }
    ensures agents { (rows : List Row) (m : SharesValue) → ReadsAsMatrix rows m
        → m.agents ≡ map first_field (agent_rows rows) }
    ensures fields { (rows : List Row) (m : SharesValue) → ReadsAsMatrix rows m
        → (i : ℕ) → length (row_at rows i) ≤ length (header_of rows) }
    ensures shape { (rows : List Row) (m : SharesValue) → ReadsAsMatrix rows m
        → length m.entries ≡ length m.agents * length m.objects }
    ensures entries { (rows : List Row) (m : SharesValue) → ReadsAsMatrix rows m → IsShares m
        → (i a : ℕ) → i < length m.agents → a < length m.objects → IsEntrySaid rows m i a }
    ensures missing { (rows : List Row) (m : SharesValue) → ReadsAsMatrix rows m → IsShares m
        → (i a : ℕ) → i < length m.agents → a < length m.objects
        → text_at rows i a ≡ [] → HasEntry m i a (record { num = 0; den = 1 }) }
{}

/// What the records of preferences say, in the words of the records alone, where they read with those of quotas as a
/// problem: the first record with fields is the header, which begins with `agent`; each later record with fields is an
/// agent's, whose name is its first field and whose list is the columns of its other names in their order, of which each
/// is an object or `none`, with `none` at the end; and the objects are the second fields of the records `object`.
pub fn what_preferences_say()
    ensures header { (rows quota_rows : List Row) (p : ProblemValue) → RowsReadAs rows quota_rows p
        → first_field (header_of rows) ≡ codes "agent" }
    ensures agents { (rows quota_rows : List Row) (p : ProblemValue) → RowsReadAs rows quota_rows p
        → p.agents ≡ map first_field (agent_rows rows) }
    ensures objects { (rows quota_rows : List Row) (p : ProblemValue) → RowsReadAs rows quota_rows p
        → p.objects ≡ names_of (codes "object") quota_rows }
    ensures known { (rows quota_rows : List Row) (p : ProblemValue) → RowsReadAs rows quota_rows p
        → All (λ r. All (λ name. has_name (with_none p.objects) name ≡ true) (names_on r)) (agent_rows rows) }
    ensures lists { (rows quota_rows : List Row) (p : ProblemValue) → RowsReadAs rows quota_rows p
        → p.lists ≡ map (list_on p.objects) (agent_rows rows) }
{}

/// What the records of quotas say, in the words of the records alone. The names of each kind are the second fields of
/// its records, and groups and bundles hold what their further fields name. Of records without a fault, the sets are
/// those that the `object` and `set` records state, and the `agent` records too but for `solve`, in their order: an
/// object's column, an agent's row, and the cells that the `in` records of a set's name add to it. For `solve` the
/// demand of an agent is the number in its `agent` record, and 1 where it has none.
pub fn what_quotas_say()
    ensures columns { (g : Setting) (rows : List Row)
        → (stated_by g rows).columns ≡ names_of (codes "object") rows }
    ensures rows { (g : Setting) (rows : List Row)
        → (stated_by g rows).rows ≡ names_of (codes "agent") rows }
    ensures groups { (g : Setting) (rows : List Row)
        → (stated_by g rows).groups ≡ names_of (codes "group") rows }
    ensures members { (g : Setting) (rows : List Row)
        → (stated_by g rows).members ≡ map (numbers_listed g.agents) (records_of (codes "group") rows) }
    ensures bundles { (g : Setting) (rows : List Row)
        → (stated_by g rows).bundles ≡ names_of (codes "bundle") rows }
    ensures contents { (g : Setting) (rows : List Row)
        → (stated_by g rows).contents ≡ map (numbers_listed g.objects) (records_of (codes "bundle") rows) }
    ensures names { (g : Setting) (rows : List Row)
        → (stated_by g rows).names ≡ names_of (codes "set") rows }
    ensures places { (g : Setting) (rows : List Row)
        → (stated_by g rows).places ≡ set_places g rows }
    ensures sets { (g : Setting) (rows : List Row) → quotas_fault g rows ≡ None
        → (stated_by g rows).sets ≡ map (set_of g rows) (set_records g rows) }
    ensures demands { (g : Setting) (rows : List Row) → quotas_fault g rows ≡ None → g.solve ≡ true
        → (stated_by g rows).demands ≡ map (demand_of g rows) (numbers_to (length g.agents)) }
    ensures no_demands { (g : Setting) (rows : List Row) → g.solve ≡ false
        → (stated_by g rows).demands ≡ replicate (length g.agents) 1 }
{}
