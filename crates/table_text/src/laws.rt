//! Laws of texts and their records.

ghost use Rattle.table_text.specs.Laws.{TextReadsOnce, WrittenTextReadsBack};

/// A text has one list of rows: what its contract says holds of every text, and it does nothing.
pub fn text_reads_once()
    ensures { TextReadsOnce }
{}

/// What is written reads back: its contract says so of every list of rows, and it does nothing.
pub fn written_text_reads_back()
    ensures { WrittenTextReadsBack }
{}
