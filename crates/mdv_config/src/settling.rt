ghost use Rattle.std.specs.Prelude.{◌≡◌};
ghost use Rattle.mdv_name.specs.declared.geometry.Geometry.{Geometry};
ghost use Rattle.mdv_config.specs.Below.{One as OneList};
ghost use Rattle.mdv_config.specs.Lists.{last_of, settled, with_lists as spec_with_lists};
ghost use Rattle.mdv_config.specs.Table.{IsOfGeometry};

use mdv_plan::{Lists, Plan, Table};

/// The table once the change of places is over: its only list is the one that comes.
pub fn settle(table: Table) -> Table
    ensures value { result ≡ settled table }
    ensures of_geometry { (g : Geometry) → IsOfGeometry g table → IsOfGeometry g result }
{
    let Table { plan, status } = table;
    let Plan {
        lists,
        set,
        pending,
        pools,
        volumes,
    } = plan;
    let lists = settle_lists(lists);
    Table {
        plan: Plan {
            lists,
            set,
            pending,
            pools,
            volumes,
        },
        status,
    }
}

/// The table with these lists of places.
pub fn with_lists(table: Table, lists: Lists) -> Table
    ensures { result ≡ spec_with_lists table lists }
{
    let Table { plan, status } = table;
    Table {
        plan: Plan { lists, ..plan },
        status,
    }
}

// The lists once the change of places is over.
fn settle_lists(lists: Lists) -> Lists
    ensures { result ≡ OneList (last_of lists) }
{
    match lists {
        Lists::One(places) => Lists::One(places),
        Lists::Two(_old, new) => Lists::One(new),
    }
}
