//! The records of rows.
ghost use Rattle.std.specs.Prelude.{◌≡◌, ◌++◌, ◌∷◌, [], OnOk, IfOk, map};
ghost use Rattle.records.specs.Records.{line_of, text_of};
ghost use Rattle.report.specs.ReportText.{cell_text, row_record};

use crate::fields::Line;
use deneva_base::{Cell, Keyed, NoMemory};
use records::RecordText;

/// Puts a cell at the end of a record.
fn push_cell(line: &mut Line, cell: &Cell) -> Result<(), NoMemory>
    ensures { OnOk result (line.new ≡ line.old ++ cell_text cell.now ∷ []) }
{
    match cell {
        Cell::Num(number) => line.push_number(*number),
        Cell::Text(bytes) => line.push(bytes.as_slice()),
    }
}

/// Puts cells at the end of a record.
fn push_cells(line: &mut Line, cells: &[Cell]) -> Result<(), NoMemory>
    ensures { OnOk result (line.new ≡ line.old ++ map cell_text cells.now) }
{
    for cell in cells {
        push_cell(line, cell)?;
    }
    Ok(())
}

/// Puts the record of a row at the end.
fn put_row(
    text: RecordText,
    line: &mut Line,
    word: &str,
    keyed: &Keyed,
) -> Result<RecordText, NoMemory>
    ensures { IfOk result (λ longer. longer ≡ text ++ line_of (row_record word.now keyed.now)) }
{
    line.begin(word.as_bytes())?;
    line.push_key(keyed.key)?;
    push_cells(line, keyed.row.as_slice())?;
    text.put(line.fields())
}

/// Puts the records of rows, each with this word, at the end.
pub fn put_rows(
    mut text: RecordText,
    line: &mut Line,
    word: &str,
    rows: &[Keyed],
) -> Result<RecordText, NoMemory>
    ensures { IfOk result (λ longer. longer ≡ text ++ text_of (map (row_record word.now) rows.now)) }
{
    for keyed in rows {
        text = put_row(text, line, word, keyed)?;
    }
    Ok(text)
}
