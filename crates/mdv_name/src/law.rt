ghost use Rattle.std.specs.Prelude.{◌≡◌, ℕ, List};
ghost use Rattle.mdv_base.specs.declared.drive.SliceName.{SliceName};
ghost use Rattle.mdv_name.specs.declared.volume.VolName.{VolName};
ghost use Rattle.mdv_name.specs.declared.volume.PoolName.{PoolName};
ghost use Rattle.mdv_name.specs.Drive.{IsSliceName, SpellsSlice};
ghost use Rattle.mdv_name.specs.declared.geometry.Geometry.{Geometry};
ghost use Rattle.mdv_name.specs.Geometry.{IsGeometry, IsBadLine};
ghost use Rattle.mdv_name.specs.Sound.{IsSound};
ghost use Rattle.mdv_name.specs.Volume.{IsVolName, IsPoolName, SpellsVolume, pool_text};

/// A text spells one name at most. So a printed name is read again, as that name: its text spells
/// it, and the reader answers a name that the text spells.
pub fn spells_one_name()
    ensures slices { (s t : SliceName) (text : List ℕ) → IsSliceName s → IsSliceName t →
        SpellsSlice s text → SpellsSlice t text → s ≡ t }
    ensures volumes { (v w : VolName) (text : List ℕ) → IsVolName v → IsVolName w →
        SpellsVolume v text → SpellsVolume w text → v ≡ w }
    ensures pools { (p q : PoolName) → IsPoolName p → IsPoolName q →
        pool_text p ≡ pool_text q → p ≡ q }
{}

/// A text is one table of drives at most, and a text with a wrong line is none. One line is the first
/// wrong one.
pub fn reads_as_one_table()
    ensures tables { (text : List ℕ) (g h : Geometry) → IsGeometry text g → IsGeometry text h → g ≡ h }
    ensures wrong { (text : List ℕ) (g : Geometry) (n : ℕ) → IsGeometry text g →
        IsBadLine text n → ⊥ }
    ensures first { (text : List ℕ) (m n : ℕ) → IsBadLine text m → IsBadLine text n → m ≡ n }
{}

/// What is read as a table of drives is sound.
pub fn read_geometries_are_sound()
    ensures { (text : List ℕ) (g : Geometry) → IsGeometry text g → IsSound g }
{}
