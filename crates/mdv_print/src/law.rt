ghost use Rattle.std.specs.Prelude.{◌<◌, ◌≤◌, ◌∷◌, [], ℕ, List, Option, length, slice_index, take};
ghost use Rattle.mdv_name.specs.Volume.{IsSetName};
ghost use Rattle.mdv_print.specs.Below.{OnePool, OneVolume, Plan};
ghost use Rattle.mdv_print.specs.Entries.{IsWholePlan, IsWholePool, IsWholeVolume, entries_of, entry_of_pool, entry_of_volume};
ghost use Rattle.mdv_print.specs.Layers.{AreAllVolumes, IsLayered};
ghost use Rattle.mdv_print.specs.Order.{uppermost, with_below};
ghost use Rattle.mdv_print.specs.Text.{pool_line, tab_text, volume_line};
ghost use Rattle.mdv_tab.specs.Order.{IsOrderOfNeed, Needs, Waits};
ghost use Rattle.mdv_tab.specs.Text.{Gives, IsTab};

/// The line of a volume or a pool is read as the entry that says the same of it, and a whole text as
/// the entries of all volumes and pools, within the limits of an md.tab.
pub fn reads_as_it_is_printed()
    ensures volume { (set : Option (List ℕ)) (v : OneVolume) → IsSetName set → IsWholeVolume v →
        Gives (volume_line set v ∷ []) (entry_of_volume set v ∷ []) }
    ensures pool { (set : Option (List ℕ)) (q : OnePool) → IsSetName set → IsWholePool q →
        Gives (pool_line set q ∷ []) (entry_of_pool set q ∷ []) }
    ensures tab { (set : Option (List ℕ)) (p : Plan) → IsSetName set → IsWholePlan p →
        length (tab_text set p) ≤ 65536 → length (entries_of set p) ≤ 1024 →
        IsTab (tab_text set p) (entries_of set p) }
{}

/// Where the volumes lie in layers, the print has each of them once.
pub fn prints_each_volume_once()
    ensures { (p : Plan) → IsLayered p → AreAllVolumes p (with_below p (uppermost p)) }
{}

/// In the order of need of what is printed each entry comes behind all that it needs: where the
/// volumes lie in layers, none need each other in a circle.
pub fn printed_entries_wait_for_none()
    ensures { (set : Option (List ℕ)) (p : Plan) (order : List ℕ) → IsLayered p →
        IsOrderOfNeed (entries_of set p) order → (k : ℕ) → k < length order →
        Waits (Needs (entries_of set p)) (length (entries_of set p)) (take k order) (slice_index order k) → ⊥ }
{}
