// What holds of runs.
ghost use Rattle.std.specs.Prelude.{◌≡◌, ℕ, List, [], Bool};
ghost use Rattle.el_loop.specs.Traffic.{Traffic};
ghost use Rattle.el_model.specs.Keeping.{LeavesEither};
ghost use Rattle.el_world.specs.World.{World};
ghost use Rattle.el_world.specs.Run.{Stop, files_left};
ghost use Rattle.el_loop.specs.Counts.{Counts};
ghost use Rattle.el_loop.specs.Runs.{IsHalted};

use el_model::Ledger;
use el_outside::Archive;

/// A run that stops serves no invented block: where a block file is empty in the end, no turn of the run had
/// bytes of it.
pub fn no_block_is_invented<G: Ledger, A: Archive>()
    ensures none_had { (first : World) (node : Bool) (ledger : G) (files : ℕ → List ℕ) (c : Counts)
        (t : Traffic) (stop : Stop)
        (h : IsHalted ⟦<A as Archive>⟧ first node
        (LeavesEither G.tells_crash G.means G.moment G.left_since ledger) files c t stop)
        → A.tells → (file : ℕ) → files file ≡ [] → files_left h.halts.stops file ≡ [] }
{}
