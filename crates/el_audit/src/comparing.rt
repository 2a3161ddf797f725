// Claims compared with what a chain gives.
ghost use Rattle.std.specs.Prelude.{◌≡◌, ◌≤◌, ◌↔◌, IsTrue, MatchOption, Some, slice_get};
ghost use Rattle.el_tx.specs.Encoding.{max_money};
ghost use Rattle.el_chain.specs.Chains.{Chain};
ghost use Rattle.el_chain.specs.Coins.{supply};
ghost use Rattle.el_audit.specs.Reports.{DifferAt, IsDifference, IsReport};
ghost use Rattle.el_audit.specs.within.Comparing.{Decides, wanted_claim, AreGiven};

use crate::claim::{Claim, Kind, Report};
use crate::lists::values_of;
use el_base::{Hash32, Listed};
use el_chain::{Coin, Entry};
use indexmap::IndexMap;

// Whether the list has that value at the place.
fn has_at<T: PartialEq>(list: &[T], place: usize, value: &T) -> bool
    requires { Decides T.eq }
    ensures { IsTrue result ↔ (slice_get list.now place ≡ Some value.now) }
{
    match list.get(place) {
        Some(other) => other == value,
        None => false,
    }
}

// The first place at which the lists differ; None where they are the same.
fn place_of_difference<T: PartialEq>(wanted: &[T], claimed: &[T]) -> Option<usize>
    requires { Decides T.eq }
    ensures { MatchOption result (wanted.now ≡ claimed.now) (DifferAt wanted.now claimed.now) }
{
    for (place, value) in wanted.iter().enumerate() {
        if !has_at(claimed, place, value) {
            return Some(place);
        }
    }
    if claimed.len() > wanted.len() {
        Some(wanted.len())
    } else {
        None
    }
}

// What the coins hold together, in satoshi.
fn total(coins: &[Coin]) -> u64
    requires { supply coins.now ≤ max_money }
    ensures { result ≡ supply coins.now }
{
    let mut sum = 0;
    for coin in coins {
        sum += coin.value;
    }
    sum
}

// The first kind and place in which the claim differs from the history and the coins of its script hash.
fn difference(claim: &Claim, history: &[Entry], unspent: &[Coin]) -> Option<(Kind, u64)>
    requires { supply unspent.now ≤ max_money }
    ensures { MatchOption result (claim.now ≡ wanted_claim claim.now.script history.now unspent.now)
        (λ found. IsDifference (wanted_claim claim.now.script history.now unspent.now)
        claim.now found.0 found.1) }
{
    let entries = claim.history.as_slice();
    if let Some(at) = place_of_difference(history, entries) {
        let wanted = history.get(at).copied();
        let claimed = entries.get(at).copied();
        return Some((Kind::History { wanted, claimed }, at as u64));
    }
    let coins = claim.unspent.as_slice();
    if let Some(at) = place_of_difference(unspent, coins) {
        let wanted = unspent.get(at).copied();
        let claimed = coins.get(at).copied();
        return Some((Kind::Unspent { wanted, claimed }, at as u64));
    }
    let wanted = total(unspent);
    let claimed = claim.balance;
    if wanted == claimed {
        None
    } else {
        Some((Kind::Balance { wanted, claimed }, 0))
    }
}

/// The report on the claims, where the lists have the histories and the coins of their script hashes.
pub fn report_on(
    claims: &[Claim],
    histories: &IndexMap<Hash32, Listed<Entry>>,
    coins: &IndexMap<Hash32, Listed<Coin>>,
) -> Report
    requires { (chain : Chain) × AreGiven chain claims.now histories.now coins.now }
    ensures { (chain : Chain) → AreGiven chain claims.now histories.now coins.now
        → IsReport chain claims.now result }
{
    for claim in claims {
        let script = claim.script;
        let history = values_of(histories, &script);
        let unspent = values_of(coins, &script);
        if let Some((kind, at)) = difference(claim, history, unspent) {
            return Report::Differs { script, kind, at };
        }
    }
    Report::Same {
        scripts: claims.len() as u64,
    }
}
