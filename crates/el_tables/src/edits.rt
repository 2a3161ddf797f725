// What each step on the lists does to the rows. Each function states a law and does nothing when it runs.
ghost use Rattle.std.specs.Prelude.{◌≡◌, ◌<◌, ◌+◌, ℕ, List, Option, None, Some, [], ◌∷◌, ◌++◌, length, get_or, true, false, if◌then◌else◌};
ghost use Rattle.el_base.specs.declared.hash.Hash32 as hash;
ghost use Rattle.el_chain.specs.Chains.{Chain};
ghost use Rattle.el_chain.specs.Headers.{same_hash};
ghost use Rattle.el_chain.specs.RowCounts.{is_script_among};
ghost use Rattle.el_tables.specs.Lists as spec;
ghost use Rattle.el_tables.specs.ChainLists.{ListedBlock, lists};
ghost use Rattle.el_tables.specs.Disconnecting.{but_last, last, unbury, named_before, take_back_tx, take_back_entry, take_back_output, unspend};
ghost use Rattle.el_tables.specs.Tables.{HeadCounts, Tables, IsLinked, tables_of, without_links, head_counts, greatest};
ghost use Rattle.el_tables.specs.Edits as edit;
ghost use Rattle.el_tables.specs.Fits.{Fits, IsNumbered, Once};

/// Tables that are made of lists, with as many heads as others and the same blocks, are linked, and these are
/// their lists.
pub fn a_step_leaves_rows()
    ensures { (old new : Tables) (l : spec.Lists) → new ≡ tables_of (head_counts old) old.blocks l
        → IsLinked new × (without_links new ≡ l) × (head_counts new ≡ head_counts old)
        × (new.blocks ≡ old.blocks) }
{}

/// A transaction more is a row more, with links to the newest of its txid and to the head of its bucket; this
/// head is its number.
pub fn add_tx_edits_rows()
    ensures { (counts : HeadCounts) (bs : List ListedBlock) (l : spec.Lists) (t : spec.ListedTx) →
        0 < counts.txs
        → tables_of counts bs (spec.add_tx t l)
        ≡ edit.tx_added t (spec.newest_tx t.txid l.txs) (tables_of counts bs l) }
{}

/// A transaction less is the last row less; its bucket's head is the row's `next`.
pub fn take_back_tx_edits_rows()
    ensures { (counts : HeadCounts) (bs : List ListedBlock) (l : spec.Lists) →
        tables_of counts bs (take_back_tx l)
        ≡ edit.tx_dropped (last (tables_of counts bs l).txs) (tables_of counts bs l) }
{}

/// A new script hash gets a row and an entry. One that is there gets an entry, if its last is of another
/// transaction, and else nothing changes. The newest row of a hash is that of its number, and the
/// transaction of its last entry is that of the entry which the row's `last` names.
pub fn add_entry_edits_rows()
    ensures new { (counts : HeadCounts) (bs : List ListedBlock) (l : spec.Lists) (s : hash.Hash32) (tx : ℕ) →
        Fits l → 0 < counts.scripts → is_script_among s l.scripts ≡ false
        → tables_of counts bs (spec.add_entry s tx l) ≡ edit.script_added s tx (tables_of counts bs l) }
    ensures known { (counts : HeadCounts) (bs : List ListedBlock) (l : spec.Lists) (s : hash.Hash32) (tx : ℕ)
        → is_script_among s l.scripts ≡ true
        → spec.is_tx tx (spec.last_tx_of (spec.script_number s l.scripts) l.entries) ≡ false
        → tables_of counts bs (spec.add_entry s tx l)
        ≡ edit.entry_added (spec.script_number s l.scripts) tx (tables_of counts bs l) }
    ensures again { (l : spec.Lists) (s : hash.Hash32) (tx : ℕ) → is_script_among s l.scripts ≡ true
        → spec.is_tx tx (spec.last_tx_of (spec.script_number s l.scripts) l.entries) ≡ true
        → spec.add_entry s tx l ≡ l }
    ensures number { (s : hash.Hash32) (scripts : List hash.Hash32) → Once scripts
        → greatest (λ (x : hash.Hash32). same_hash x s) scripts
        ≡ (if is_script_among s scripts then Some (spec.script_number s scripts) else None) }
    ensures by_last { (d : spec.ListedEntry) (n : ℕ) (es : List spec.ListedEntry) →
        spec.last_tx_of n es ≡ edit.tx_of_last d es (greatest (spec.is_of_script n) es) }
{}

/// The last entry goes. Where its row has a `before`, this is its script hash's last one, and the script
/// hash has one entry less. Else the last script hash goes too, and its bucket's head is its `next`.
pub fn take_back_entry_edits_rows()
    ensures { (counts : HeadCounts) (bs : List ListedBlock) (l : spec.Lists) → IsNumbered l.scripts l.entries
        → tables_of counts bs (take_back_entry l)
        ≡ edit.entry_dropped (last (tables_of counts bs l).entries) (tables_of counts bs l) }
{}

/// A coin that is spent has the state, and its script hash's balance has its value less.
pub fn spend_output_edits_rows()
    ensures { (counts : HeadCounts) (bs : List ListedBlock) (l : spec.Lists) (by k : ℕ) →
        spec.unspent_at k l.outs ≡ true
        → tables_of counts bs (spec.spend_output by k l) ≡ edit.output_spent by k (tables_of counts bs l) }
{}

/// An output more is a row more, and its script hash's balance has its value more. First what it buries has
/// the state, and that script hash's balance has this value less.
pub fn add_output_edits_rows()
    ensures rows { (counts : HeadCounts) (bs : List ListedBlock) (l : spec.Lists) (tx index value script : ℕ)
        → tables_of counts bs (spec.add_output tx index value script l)
        ≡ edit.output_added (edit.new_out tx value script)
        (edit.buried tx (spec.replaced tx index l) (tables_of counts bs l)) }
    ensures alone { (counts : HeadCounts) (bs : List ListedBlock) (l : spec.Lists) (tx index value script : ℕ)
        → spec.replaced tx index l ≡ None
        → tables_of counts bs (spec.add_output tx index value script l)
        ≡ edit.output_added (edit.new_out tx value script) (tables_of counts bs l) }
    ensures buries { (counts : HeadCounts) (bs : List ListedBlock) (l : spec.Lists)
        (tx index value script k : ℕ) → spec.replaced tx index l ≡ Some k
        → tables_of counts bs (spec.add_output tx index value script l)
        ≡ edit.output_added (edit.new_out tx value script)
        (edit.coin_gone (spec.State.Buried tx) k (tables_of counts bs l)) }
{}

/// An output less is the last row less, and its script hash's balance has its value less, if it was unspent.
/// What it buried is unspent again, and that script hash's balance has this value more. The two are also said
/// one by one.
pub fn take_back_output_edits_rows()
    ensures rows { (counts : HeadCounts) (bs : List ListedBlock) (l : spec.Lists) →
        tables_of counts bs (take_back_output l)
        ≡ edit.output_dropped (named_before (last l.outs) l) (last l.outs) (tables_of counts bs l) }
    ensures left { (counts : HeadCounts) (bs : List ListedBlock) (l : spec.Lists) (x : spec.ListedOut) →
        last l.outs ≡ Some x → tables_of counts bs (record l { outs = but_last l.outs })
        ≡ edit.out_left x (tables_of counts bs l) }
    ensures unburied { (counts : HeadCounts) (bs : List ListedBlock) (l : spec.Lists) (by : ℕ)
        (names : Option ℕ) → tables_of counts bs (record l { outs = unbury by names l.outs })
        ≡ edit.unburied by names (tables_of counts bs l) }
{}

/// An input less: the output that it spent is unspent again, and its script hash's balance has its value
/// more.
pub fn unspend_edits_rows()
    ensures { (counts : HeadCounts) (bs : List ListedBlock) (l : spec.Lists) →
        tables_of counts bs (unspend l) ≡ edit.input_dropped (tables_of counts bs l) }
{}

/// The lists of every chain fit, and each step keeps that. Of taking an entry back this is said of the
/// numbers of script hashes alone: the outputs of the script hash that may go are taken back before.
pub fn steps_keep_scripts_in_order()
    ensures none { Fits spec.no_lists }
    ensures chain { (chain : Chain) → Fits (lists chain) }
    ensures add_tx { (l : spec.Lists) (t : spec.ListedTx) → Fits l → Fits (spec.add_tx t l) }
    ensures take_back_tx { (l : spec.Lists) → Fits l → Fits (take_back_tx l) }
    ensures add_entry { (l : spec.Lists) (s : hash.Hash32) (tx : ℕ) → Fits l → Fits (spec.add_entry s tx l) }
    ensures take_back_entry { (l : spec.Lists) → IsNumbered l.scripts l.entries
        → IsNumbered (take_back_entry l).scripts (take_back_entry l).entries }
    ensures spend_output { (l : spec.Lists) (by k : ℕ) → Fits l → Fits (spec.spend_output by k l) }
    ensures add_output { (l : spec.Lists) (tx index value script : ℕ) → Fits l → script < length l.scripts
        → Fits (spec.add_output tx index value script l) }
    ensures take_back_output { (l : spec.Lists) → Fits l → Fits (take_back_output l) }
    ensures unspend { (l : spec.Lists) → Fits l → Fits (unspend l) }
{}

/// Where there is nothing yet, so many heads are that many links to nothing. Other blocks change no other
/// row.
pub fn first_heads_lead_to_nothing()
    ensures heads { (none counts : HeadCounts) (bs : List ListedBlock) → tables_of counts bs spec.no_lists
        ≡ edit.with_heads (edit.no_links counts.txs) (edit.no_links counts.scripts)
        (tables_of none bs spec.no_lists) }
    ensures blocks { (counts : HeadCounts) (old bs : List ListedBlock) (l : spec.Lists) →
        tables_of counts bs l ≡ edit.with_blocks bs (tables_of counts old l) }
{}
