// Laws: each can be called, and does nothing.
use el_queries::{
    each_block_touches_what_the_move_touches, entries_are_counted_by_the_history,
    scripts_of_lists_are_those_of_outputs,
};
use el_schema::{
    first_rows_stand, heads_are_there, rows_of_one_chain_are_equal, rows_that_stand_hold_the_lists,
    same_rows_stand,
};
use el_tables::{
    a_block_connects, a_block_disconnects, a_block_has_its_row, a_good_chain_has_tables,
    a_step_leaves_rows, add_entry_edits_rows, add_output_edits_rows, add_tx_edits_rows,
    coins_are_the_unspent_outputs, example_is_as_by_hand, first_heads_lead_to_nothing,
    history_is_the_entries, lists_answer, newest_transaction_is_found,
    outpoint_is_found_along_older, rows_are_counted, spend_output_edits_rows,
    steps_keep_scripts_in_order, sum_follows_the_steps, tables_of_one_chain_are_equal,
    take_back_entry_edits_rows, take_back_output_edits_rows, take_back_tx_edits_rows,
    unspend_edits_rows,
};

#[test]
fn laws_of_chains_do_nothing() {
    tables_of_one_chain_are_equal();
    a_good_chain_has_tables();
    coins_are_the_unspent_outputs();
    history_is_the_entries();
    rows_are_counted();
    a_block_connects();
    a_block_has_its_row();
    a_block_disconnects();
    lists_answer();
    example_is_as_by_hand();
    scripts_of_lists_are_those_of_outputs();
    entries_are_counted_by_the_history();
    each_block_touches_what_the_move_touches();
}

#[test]
fn laws_of_rows_do_nothing() {
    newest_transaction_is_found();
    outpoint_is_found_along_older();
    sum_follows_the_steps();
    a_step_leaves_rows();
    steps_keep_scripts_in_order();
    first_heads_lead_to_nothing();
    rows_that_stand_hold_the_lists();
    rows_of_one_chain_are_equal();
    same_rows_stand();
    heads_are_there();
    first_rows_stand();
}

#[test]
fn laws_of_edits_do_nothing() {
    add_tx_edits_rows();
    take_back_tx_edits_rows();
    add_entry_edits_rows();
    take_back_entry_edits_rows();
    spend_output_edits_rows();
    unspend_edits_rows();
    add_output_edits_rows();
    take_back_output_edits_rows();
}
