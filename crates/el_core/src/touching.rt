// Which script hashes a line of the node touched, of those to which clients subscribe.
ghost use Rattle.std.specs.Prelude.{◌≡◌, ◌≢◌, [], ◌∷◌, OnOk, OnErr};
ghost use Rattle.el_core.specs.within.Touching.{HasAllSubscribed, CoversAll};

use crate::clients::Clients;
use el_base::{Hash32, OutOfMemory};
use el_chain::Touched;

// Adds the script hash, if some client subscribes to it.
fn add_one(
    clients: &Clients,
    touched: &mut Touched,
    script_hash: &Hash32,
) -> Result<(), OutOfMemory>
    ensures { OnOk result (HasAllSubscribed clients.now touched.old (script_hash.now ∷ []) touched.new) }
{
    if clients.hold(script_hash) {
        touched.add(*script_hash)?;
    }
    Ok(())
}

// Adds those of the script hashes to which some client subscribes.
fn add_held(clients: &Clients, touched: &mut Touched, scripts: &Touched) -> Result<(), OutOfMemory>
    ensures covers { OnOk result (HasAllSubscribed clients.now touched.old scripts.now touched.new) }
    ensures some { OnErr result (scripts.now ≢ []) }
{
    for script_hash in scripts.list() {
        add_one(clients, touched, script_hash)?;
    }
    Ok(())
}

/// Adds those script hashes that a step touched, by moving the chain or in the unconfirmed set, to which some
/// client subscribes. Takes no memory where nobody does; fails only where memory runs out, and may then have
/// added some.
pub fn touch(
    clients: &Clients,
    touched: &mut Touched,
    moved: &Touched,
    changed: &Touched,
) -> Result<(), OutOfMemory>
    ensures covers { OnOk result (CoversAll clients.now touched.old moved.now changed.now touched.new) }
    // Where a step touched nothing, it takes none.
    ensures some { OnErr result ((moved.now ≡ []) × (changed.now ≡ []) → ⊥) }
{
    add_held(clients, touched, moved)?;
    add_held(clients, touched, changed)
}
