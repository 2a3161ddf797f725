// What holds of the definitions. Each function states a law and does nothing when it runs.
ghost use Rattle.std.specs.Prelude.{◌≡◌, ℕ, false, List};
ghost use Rattle.el_base.specs.declared.hash.Hash32 as hash;
ghost use Rattle.el_tx.specs.declared.types.Tx as tx_shape;
ghost use Rattle.el_chain.specs.declared.moves.Plan as moving;
ghost use Rattle.el_chain.specs.Chains.{Chain};
ghost use Rattle.el_chain.specs.Moves.{target};
ghost use Rattle.el_chain.specs.Touches.{AreTouched};
ghost use Rattle.el_mempool.specs.Standing.{AreChanged};
ghost use Rattle.el_status.specs.Statuses.{status};
ghost use Rattle.el_status.specs.Untouched.{KeepsOthers, LooksSame, is_among};
ghost use Rattle.el_status.specs.Exact.{changed_by};

/// A script hash that a move doesn't touch has the same history, coins and balance after it, whatever the
/// chain and the move.
pub fn untouched_by_a_move()
    ensures { (p : moving.Plan) (chain blocks : Chain) (scripts : List hash.Hash32)
        → AreTouched p chain blocks scripts → KeepsOthers chain (target p chain blocks) scripts }
{}

/// The touched ones are exactly those that a transaction taken back or put in changes: one that has an entry
/// in the history, or replaces a coin.
pub fn touched_is_exact()
    ensures { (p : moving.Plan) (chain blocks : Chain) (scripts : List hash.Hash32) (s : hash.Hash32)
        → AreTouched p chain blocks scripts → is_among scripts s ≡ changed_by s.0 p chain blocks }
{}

/// A script hash looks the same over one chain, and over the first and the last of three where it does over
/// each of them and the next.
pub fn looks_go_on()
    ensures still { (chain : Chain) (script_hash : List ℕ) → LooksSame chain chain script_hash }
    ensures joined { (first second third : Chain) (script_hash : List ℕ)
        → LooksSame first second script_hash → LooksSame second third script_hash
        → LooksSame first third script_hash }
{}

/// The status stays of a script hash that looks the same over both chains, and whose unconfirmed entries and
/// outputs don't change between the kept transactions over the one and those over the other.
pub fn untouched_status_stays()
    ensures { (before next : Chain) (old new : List tx_shape.Tx) (changed : List hash.Hash32)
        (s : hash.Hash32) → LooksSame before next s.0 → AreChanged before old next new changed
        → is_among changed s ≡ false → status next new s.0 ≡ status before old s.0 }
{}
