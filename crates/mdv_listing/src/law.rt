ghost use Rattle.std.specs.Prelude.{◌≡◌, ◌∷◌, [], List};
ghost use Rattle.std.specs.List.{flat_map};
ghost use Rattle.mdv_listing.specs.Below.{Geometry, IsOfGeometry, Named, Plan, Table};
ghost use Rattle.mdv_listing.specs.Listing.{IsOfQuietLines, line_for, listing_of, name_line};

/// Each listing is lines, none of which is `ok` or begins with `refused E`, so that a reply that has it is
/// one.
pub fn listings_are_lines()
    ensures { (p : Plan) (names : List Named) → IsOfQuietLines (listing_of p names) }
{}

/// The listing of all volumes of a table is the line of each, in ascending order; that of names is the line of
/// each name's volume, where it is there.
pub fn listings_tell_volumes()
    ensures all { (g : Geometry) (t : Table) → IsOfGeometry g t → listing_of t.plan [] ≡ flat_map line_for t.plan.volumes }
    ensures named { (g : Geometry) (t : Table) (name : Named) (names : List Named) → IsOfGeometry g t →
        listing_of t.plan (name ∷ names) ≡ flat_map (name_line t.plan) (name ∷ names) }
{}
