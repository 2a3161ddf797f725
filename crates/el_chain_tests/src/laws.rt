// Each law is called once.
use el_chain::{
    chain_is_linked, coins_are_made_and_kept, file_gives_one_chain, listed_once,
    supply_rises_by_coinbases, unknown_has_no_history,
};
use el_headers::{found_stays_found, path_is_one, paths_stay_and_go_on};

#[test]
fn states_laws_of_chains() {
    file_gives_one_chain();
    chain_is_linked();
    listed_once();
    supply_rises_by_coinbases();
    coins_are_made_and_kept();
    unknown_has_no_history();
}

#[test]
fn states_laws_of_paths() {
    path_is_one();
    paths_stay_and_go_on();
    found_stays_found();
}
