ghost use Rattle.mdv_remake.specs.Again.{PrintsMakeAgain};

/// What `print_tab` prints of a table, read by `read_tab`, put into its `order_of_need` and made entry by entry, as
/// `change_of` and `apply` do, on the table without its volumes and pools: no entry is refused, and the plan is the
/// table's again. The table has to be as it would be made now.
pub fn prints_make_again()
    ensures { PrintsMakeAgain }
{}
