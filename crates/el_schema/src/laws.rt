// What holds of rows that stand for a chain. Each function states a law and does nothing when it runs.
ghost use Rattle.std.specs.Prelude.{◌≡◌, ◌<◌, ◌^◌, [], ℕ, None, replicate};
ghost use Rattle.el_chain.specs.Chains.{Chain};
ghost use Rattle.el_chain.specs.Faults.{IsGood};
ghost use Rattle.el_row_formats.specs.Tables.{Tables, first_count};
ghost use Rattle.el_row_formats.specs.RowBytes.{link_bytes};
ghost use Rattle.el_row_formats.specs.declared.table.Table.{Table};
ghost use Rattle.el_rows.specs.Reads.{Same};
ghost use Rattle.el_schema.specs.Standing.{StandWith, StandFor, HoldChain, buckets_in};

/// Rows stand for a chain exactly where it is good and they hold its blocks and its lists, with some heads.
pub fn rows_that_stand_hold_the_lists()
    ensures hold { (heads : ℕ) (rows : Tables) (chain : Chain) → StandWith heads rows chain
        → IsGood chain × HoldChain heads rows chain }
    ensures stand { (heads : ℕ) (rows : Tables) (chain : Chain) → 0 < heads → IsGood chain
        → HoldChain heads rows chain → StandWith heads rows chain }
{}

/// Rows that stand for one chain and have as many heads are equal, byte for byte.
pub fn rows_of_one_chain_are_equal()
    ensures same { (heads : ℕ) (a b : Tables) (chain : Chain) → StandWith heads a chain
        → StandWith heads b chain → Same a b }
    ensures as_many { (a b : Tables) (chain : Chain) → StandFor a chain → StandFor b chain
        → buckets_in a ≡ buckets_in b → Same a b }
{}

/// Equal rows stand for the same chains, with as many heads.
pub fn same_rows_stand()
    ensures { (heads : ℕ) (a b : Tables) (chain : Chain) → StandWith heads a chain → Same a b
        → StandWith heads b chain }
{}

/// There are as many heads as the rows are said to have.
pub fn heads_are_there()
    ensures { (heads : ℕ) (rows : Tables) (chain : Chain) → StandWith heads rows chain
        → buckets_in rows ≡ heads }
{}

/// Where all tables but those of heads are empty, and each head leads to nothing, the rows stand for no
/// blocks.
pub fn first_rows_stand()
    ensures { (bits : ℕ) (rows : Tables)
        → ((t : Table) → rows t ≡ replicate (first_count bits t) (link_bytes None))
        → StandWith (2 ^ bits) rows [] }
{}
