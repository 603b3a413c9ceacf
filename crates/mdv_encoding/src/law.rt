ghost use Rattle.std.specs.Prelude.{◌≡◌, ◌↔◌, ◌⊎◌, ◌<◌, ◌^◌, ℕ, List, Result, length};
ghost use Rattle.mdv_encoding.specs.Below.{Geometry, Table, IsOfGeometry, IsSound, settled};
ghost use Rattle.mdv_encoding.specs.Parsing.{IsTextOf};
ghost use Rattle.mdv_encoding.specs.Record.{IsDecoded, IsRecordOf};
ghost use Rattle.mdv_encoding.specs.Text.{record_text};
ghost use Rattle.mdv_fields.specs.declared.fault.RecordError.{RecordError};
ghost use Rattle.mdv_whole.specs.Text.{IsTable};

/// One text stands for at most one table of a geometry.
pub fn spells_one_table()
    ensures { (g : Geometry) (t u : Table) → IsSound g → IsOfGeometry g t → IsOfGeometry g u →
        record_text t ≡ record_text u → t ≡ u }
{}

/// What is decoded of a table's text, where that fits its places, is that table, unless memory was wanting.
pub fn reads_what_was_written()
    ensures { (g : Geometry) (t : Table) (answer : Result Table RecordError) → IsSound g →
        IsRecordOf g (record_text t) t → IsDecoded g (record_text t) answer →
        (answer ≡ Ok t) ⊎ (answer ≡ Err RecordError.Memory) }
{}

/// Bytes are read as a table of a geometry exactly where they are its text and fit its places.
pub fn texts_are_read()
    ensures { (g : Geometry) (text : List ℕ) (t : Table) → IsSound g →
        IsTextOf g text t ↔ IsRecordOf g text t }
{}

/// Where a table that changes its places has a record, it has one once that change is over: its text fits the places that
/// it then lists.
pub fn settled_fits()
    ensures { (g : Geometry) (bytes : List ℕ) (t : Table) → IsRecordOf g bytes t →
        IsRecordOf g (record_text (settled t)) (settled t) }
{}

/// The text of a table of a geometry says all of it, unless it is too long for its length to stand in four bytes.
pub fn texts_are_whole()
    ensures { (g : Geometry) (t : Table) → IsSound g → IsOfGeometry g t → length (record_text t) < 2 ^ 32 → IsTable t }
{}
