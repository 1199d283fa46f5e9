//! What is true of the definitions themselves, whatever the code does.

ghost use Rattle.std.specs.Prelude.{◌≡◌, ◌≤◌, ◌↔◌, ◌⊎◌, ◌++◌, ℕ, List, Some, None, false, length, codes, map, drop, flat_map};
ghost use Rattle.definitions.specs.Firsts.{AreLawful, IsFirstFault};
ghost use Rattle.definitions.specs.Lotteries.{LotteryValue, IsLottery, Splits};
ghost use Rattle.definitions.specs.Gives.{gives_of};
ghost use Rattle.definitions.specs.Pieces.{AreGives, matrix_of};
ghost use Rattle.definitions.specs.declared.Give.{Give};
ghost use Rattle.definitions.specs.Sets.{FamilyValue};
ghost use Rattle.definitions.specs.Values.{SharesValue};
ghost use Rattle.definitions.specs.Texts.{Row, field, number, signed, null_name, has_name};
ghost use Rattle.lottery_file.specs.Said.{if_some, last_kind, open_places, said_by};
ghost use Rattle.lottery_file.specs.Checks.{check_record, check_end, fault_of};
ghost use Rattle.lottery_file.specs.Lotteries.{AreLawfulNames, IsLawfulLottery, lottery_of, ReadsAs, TextReadsAs, TextHasFault};
ghost use Rattle.lottery_file.specs.Written.{rows_of, lottery_text, parts_text, CanBeWritten};
ghost use Rattle.table_text.specs.Records.{place_of, records_of};
ghost use Rattle.lottery_file.specs.Records.{last_of, agents_in, columns_in, pieces_in, lists_in, worths_in};
ghost use Rattle.lottery_file.specs.declared.faults.LotteryKind.{LotteryKind};

/// The fault of a text, which is found from the left, is its first unlawful record, or the end
/// where all records are lawful; and it is the only one.
pub fn first_fault()
    ensures { (rows : List Row) (n : ℕ) (k : LotteryKind)
        → (fault_of rows ≡ Some (n, k)) ↔ IsFirstFault check_record check_end rows n k }
{}

/// A text reads as one value at most, or it has one fault, and it has a fault exactly where it reads as
/// none.
pub fn text_reads_once()
    ensures value { (bytes : List ℕ) (l m : LotteryValue)
        → TextReadsAs bytes l → TextReadsAs bytes m → l ≡ m }
    ensures fault { (bytes : List ℕ) (m n : ℕ) (j k : LotteryKind)
        → TextHasFault bytes m j → TextHasFault bytes n k → (m ≡ n) × (j ≡ k) }
    ensures either { (bytes : List ℕ) (l : LotteryValue) (n : ℕ) (k : LotteryKind)
        → TextReadsAs bytes l → ¬ (TextHasFault bytes n k) }
    ensures always { (bytes : List ℕ) → ((l : LotteryValue) × TextReadsAs bytes l)
        ⊎ ((n : ℕ) × (k : LotteryKind) × TextHasFault bytes n k) }
{}

/// What records without a fault say is a lawful lottery.
pub fn readings_are_lawful()
    ensures { (rows : List Row) → fault_of rows ≡ None
        → IsLawfulLottery (lottery_of (said_by rows)) }
{}

/// The text of a lawful lottery reads as that lottery, as nothing else, and has no fault.
pub fn written_lottery_reads_back()
    ensures records { (l : LotteryValue) → IsLawfulLottery l → ReadsAs (rows_of l) l }
    ensures text { (l : LotteryValue) → IsLawfulLottery l → TextReadsAs (lottery_text l) l }
    ensures alone { (l m : LotteryValue) → IsLawfulLottery l
        → TextReadsAs (lottery_text l) m → m ≡ l }
    ensures faultless { (l : LotteryValue) (n : ℕ) (k : LotteryKind) → IsLawfulLottery l
        → ¬ (TextHasFault (lottery_text l) n k) }
{}

/// A lawful lottery can be written, since its shapes agree.
pub fn lawful_shapes_agree()
    ensures { (l : LotteryValue) → IsLawfulLottery l → CanBeWritten l }
{}

/// Lawful gives are those of their matrix.
pub fn gives_come_back()
    ensures { (agents columns : ℕ) (gives : List Give) → AreGives agents columns gives
        → gives_of columns (matrix_of agents columns gives) ≡ gives }
{}

/// A lottery is written by its parts: `write_head`, then `write_piece` of each piece with the
/// counts of its matrix, and then `write_end` append its text.
pub fn parts_write_the_text()
    ensures { (l : LotteryValue) → IsLottery l → parts_text l ≡ lottery_text l }
{}

/// A lottery without a design that splits given shares is lawful where their names are: those of 1
/// to 1,000 agents and of at most 200 objects, none of them `none`.
pub fn splits_are_lawful()
    ensures { (given : SharesValue) (f : FamilyValue) (l : LotteryValue) → Splits given f l
        → l.design ≡ None
        → AreLawfulNames given.agents → 1 ≤ length given.agents → length given.agents ≤ 1000
        → AreLawfulNames given.objects → has_name given.objects null_name ≡ false
        → length given.objects ≤ 200 → IsLawfulLottery l }
{}

/// What records say, in the words of the records alone: the kind of the last record is that of the last
/// one of any kind, the denominator and the names are those of the last record of their kind, and the
/// rows, units and prices those of all such records in order. Of lawful records, which need not be
/// whole, the pieces are the records `piece`, each with the records `give` up to the next one; the
/// records `worth`, cut after each `none`, are the lists and worths, and then the open list; and the
/// open list holds the places after the last `none`. Of records without a fault no list is open.
pub fn what_records_say()
    ensures last { (rows : List Row) → (said_by rows).last ≡ last_kind rows }
    ensures denominator { (rows : List Row) → (said_by rows).denominator
        ≡ number (field (last_of (codes "denominator") rows) 1) }
    ensures agents { (rows : List Row) → (said_by rows).agents ≡ agents_in rows }
    ensures columns { (rows : List Row) → (said_by rows).columns ≡ columns_in rows }
    ensures rows { (rows : List Row) → (said_by rows).rows ≡ length (records_of (codes "row") rows) }
    ensures units { (rows : List Row) → (said_by rows).units
        ≡ flat_map (λ r. map number (drop 2 r)) (records_of (codes "row") rows) }
    ensures prices { (rows : List Row) → (said_by rows).prices
        ≡ map (λ r. number (field r 2)) (records_of (codes "price") rows) }
    ensures pieces { (rows : List Row) → fault_of rows ≡ None
        → (said_by rows).pieces ≡ pieces_in rows }
    ensures lists { (rows : List Row) → fault_of rows ≡ None
        → (said_by rows).lists ≡ lists_in rows }
    ensures worths { (rows : List Row) → fault_of rows ≡ None
        → (said_by rows).worths ≡ worths_in rows }
    ensures pieces_so_far { (rows : List Row) → AreLawful check_record rows (length rows)
        → (said_by rows).pieces ≡ pieces_in rows }
    ensures lists_so_far { (rows : List Row) → AreLawful check_record rows (length rows)
        → (said_by rows).lists ++ if_some (said_by rows).open_list ≡ lists_in rows }
    ensures worths_so_far { (rows : List Row) → AreLawful check_record rows (length rows)
        → (said_by rows).worths ++ if_some (said_by rows).open_worths ≡ worths_in rows }
    ensures open_list { (rows : List Row) → AreLawful check_record rows (length rows)
        → (said_by rows).open_list
        ≡ map (λ r. place_of (columns_in rows) (field r 2)) (open_places (records_of (codes "worth") rows)) }
    ensures open_worths { (rows : List Row) → AreLawful check_record rows (length rows)
        → (said_by rows).open_worths
        ≡ map (λ r. signed (field r 3)) (open_places (records_of (codes "worth") rows)) }
{}
