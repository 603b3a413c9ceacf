//! Laws of tables and their texts.
ghost use Rattle.std.specs.Prelude.{◌≡◌, ◌⊎◌, Result};
ghost use Rattle.mdv_codec.specs.Record.{IsRecord};
ghost use Rattle.mdv_fields.specs.declared.fault.RecordError.{RecordError};
ghost use Rattle.mdv_plan.specs.declared.table.Table.{Table};
ghost use Rattle.mdv_whole.specs.Noted.{IsNoted};
ghost use Rattle.mdv_whole.specs.Sides.{recorded_of};
ghost use Rattle.mdv_whole.specs.Text.{table_text, IsTable, IsDecoded};

/// A table of which all is noted, and whose record is one, has a text that can be read.
pub fn noted_tables_have_texts()
    ensures { (t : Table) → IsNoted t → IsRecord (recorded_of t) → IsTable t }
{}

/// What is decoded of a table's text is that table, unless memory was wanting.
pub fn reads_what_was_written()
    ensures { (t : Table) (answer : Result Table RecordError) → IsTable t →
        IsDecoded (table_text t) answer → (answer ≡ Ok t) ⊎ (answer ≡ Err RecordError.Memory) }
{}
