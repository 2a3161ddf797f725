//! What the tables of an index stand for.
#![tactic(auto)]

mod edits;
mod laws;
mod walks;

pub use edits::{
    a_step_leaves_rows, add_entry_edits_rows, add_output_edits_rows, add_tx_edits_rows,
    first_heads_lead_to_nothing, spend_output_edits_rows, steps_keep_scripts_in_order,
    take_back_entry_edits_rows, take_back_output_edits_rows, take_back_tx_edits_rows,
    unspend_edits_rows,
};
pub use laws::{
    a_block_connects, a_block_disconnects, a_block_has_its_row, a_good_chain_has_tables,
    coins_are_the_unspent_outputs, example_is_as_by_hand, history_is_the_entries, lists_answer,
    rows_are_counted, tables_of_one_chain_are_equal,
};
pub use walks::{
    newest_transaction_is_found, outpoint_is_found_along_older, sum_follows_the_steps,
};
