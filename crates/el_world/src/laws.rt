// What holds of the definitions. Each function states a law and does nothing when it runs.
ghost use Rattle.std.specs.Prelude.{◌≡◌, ℕ, List, [], Ok};
ghost use Rattle.el_side.specs.Deeds.{Deed};
ghost use Rattle.el_outside.specs.Trace.{ArrivalWithBytes, Message, Closing};
ghost use Rattle.el_replies.specs.declared.line.LineReply as line;
ghost use Rattle.el_side.specs.Side.{Side, IsSure};
ghost use Rattle.el_subs.specs.Told.{status, AllTold};
ghost use Rattle.el_world.specs.World.{World, Standing, Comes};
ghost use Rattle.el_world.specs.Run.{Run, Halts, Stop};
ghost use Rattle.el_world.specs.Flights.{acked};
ghost use Rattle.el_world.specs.LastTold.{IsLastTold};

use el_outside::Archive;

/// Where each of a client's subscriptions was told its status over a sure side, each is after a line of it
/// that is replied to: `blockchain.scripthash.subscribe` notes the status that it answers, `unsubscribe`
/// drops one, and no other call changes them.
pub fn replies_keep_told<A: Archive>()
    ensures { (side : Side) (bytes : List ℕ) (was now : Standing) (losses : List Deed)
        (reply : line.LineReply) → IsSure side → AllTold (status side.chain side.kept) was.client.subs
        → Comes A.tells side bytes was losses now (Ok reply)
        → AllTold (status side.chain side.kept) now.client.subs }
{}

/// The chain of a world is the one that the node was told last, by the last `at` line that was sent in the
/// run; where none was sent, it is the chain with which the run began. Where a run stops, this is the chain
/// that is acknowledged. It is so of a side that is sure.
pub fn acknowledged_is_told_last<A: Archive>()
    ensures run { (first world : World) (arrivals : List ArrivalWithBytes) (messages : List Message)
        (closings : List Closing) (losses : List Deed) → first.sessions ≡ [] → IsSure first.side
        → Run ⟦<A as Archive>⟧ first arrivals messages closings losses world
        → IsLastTold first.side.chain messages world.side.chain }
    ensures halts { (first : World) (stop : Stop) (arrivals : List ArrivalWithBytes) (messages : List Message)
        (closings : List Closing) (losses : List Deed) → first.sessions ≡ [] → IsSure first.side
        → (h : Halts ⟦<A as Archive>⟧ first stop arrivals messages closings losses)
        → IsLastTold first.side.chain messages (acked h.stops) }
{}
