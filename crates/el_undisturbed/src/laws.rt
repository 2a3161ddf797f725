// What holds of the definitions. Each function states a law and does nothing when it runs.
ghost use Rattle.std.specs.Prelude.{◌≡◌, ℕ, List, [], Ok};
ghost use Rattle.std.specs.List.{AllByRecursion};
ghost use Rattle.el_outside.specs.Trace.{ArrivalWithBytes, Message, Closing};
ghost use Rattle.el_chain.specs.declared.node.Node as shape;
ghost use Rattle.el_base.specs.Left.{AreBytes};
ghost use Rattle.el_files.specs.Scanning.{AllScanned};
ghost use Rattle.el_methods.specs.Archives.{WasWritten};
ghost use Rattle.el_replies.specs.LineReplies.{IsLineReply};
ghost use Rattle.el_replies.specs.Spending.{spent};
ghost use Rattle.el_replies.specs.declared.line.LineReply as line;
ghost use Rattle.el_side.specs.Deeds.{Deed, NoneLost};
ghost use Rattle.el_side.specs.Side.{Side, IsSure};
ghost use Rattle.el_world.specs.World.{World, Standing, Comes};
ghost use Rattle.el_world.specs.Run.{Run, Halts, Stop, by_memory, files_left};
ghost use Rattle.el_undisturbed.specs.HasAll.{HasAll, HasBlockOf};
ghost use Rattle.el_undisturbed.specs.WholeRecords.{HoldBytesAlone, NoneHalfWritten, ShowWholeRecords};
ghost use Rattle.el_undisturbed.specs.Undisturbed.{Undisturbed};
ghost use Rattle.el_undisturbed.specs.AsDefined.{AnswersAsDefined};

use el_methods::{blocks_have_asked, moves_have_records, records_stay};
use el_outside::Archive;

/// What scans and looks find is whole where nothing in the block files is made ahead, and where none of their
/// records is half written at any moment between these two.
pub fn found_records_are_whole<A: Archive>()
    ensures alone { (magic : List ℕ) (start end : ℕ → List ℕ) → HoldBytesAlone ⟦<A as Archive>⟧
        → ShowWholeRecords ⟦<A as Archive>⟧ magic start end }
    ensures written { (magic : List ℕ) (start end : ℕ → List ℕ)
        → NoneHalfWritten ⟦<A as Archive>⟧ magic start end
        → ShowWholeRecords ⟦<A as Archive>⟧ magic start end }
{}

/// Each block that a scan of all block files found stands at its place after it, where what is found is
/// whole; and, whatever the node does meanwhile, each whose record it had written before the scan.
pub fn found_nodes_stand<A: Archive>()
    ensures shown { (before after : ℕ → List ℕ) (magic : List ℕ) (nodes : List shape.Node)
        → ShowWholeRecords ⟦<A as Archive>⟧ magic before after
        → AllScanned ⟦<A as Archive>⟧ before after magic nodes → AllByRecursion (HasBlockOf after) nodes }
    ensures before { (before after : ℕ → List ℕ) (magic : List ℕ) (nodes : List shape.Node)
        → ((file : ℕ) → AreBytes (before file)) → AllScanned ⟦<A as Archive>⟧ before after magic nodes
        → AllByRecursion (λ n. WasWritten before n → HasBlockOf after n) nodes }
{}

/// Where no call of a device fails, and what is found is whole, block files that have all that a run may ask
/// of them have it in the end, and nothing is sent or closed for a failure. A run then stops for want of
/// memory alone.
pub fn runs_are_undisturbed<A: Archive>()
    ensures run { (first world : World) (arrivals : List ArrivalWithBytes) (messages : List Message)
        (closings : List Closing) (deeds : List Deed) → A.tells
        → ShowWholeRecords ⟦<A as Archive>⟧ first.side.magic first.side.files world.side.files
        → first.sessions ≡ [] → IsSure first.side → HasAll first.side → NoneLost deeds
        → Run ⟦<A as Archive>⟧ first arrivals messages closings deeds world
        → HasAll world.side × Undisturbed messages closings }
    ensures halts { (first : World) (stop : Stop) (arrivals : List ArrivalWithBytes) (messages : List Message)
        (closings : List Closing) (deeds : List Deed) → A.tells → first.sessions ≡ [] → IsSure first.side
        → HasAll first.side → NoneLost deeds
        → (halts : Halts ⟦<A as Archive>⟧ first stop arrivals messages closings deeds)
        → ShowWholeRecords ⟦<A as Archive>⟧ first.side.magic first.side.files (files_left halts.stops)
        → (stop ≡ by_memory) × Undisturbed messages closings }
{
    records_stay();
    moves_have_records::<A>();
}

/// Where no call of a device fails while a client's line is answered, over block files that have all, each of
/// its requests is answered as it is defined.
pub fn lines_are_answered_as_defined<A: Archive>()
    ensures { (side : Side) (bytes : List ℕ) (was now : Standing) (deeds : List Deed) (reply : line.LineReply)
        → A.tells → IsSure side → HasAll side → NoneLost deeds
        → Comes A.tells side bytes was deeds now (Ok reply)
        → IsLineReply (AnswersAsDefined side) bytes (spent [] was.desk) was.client (spent deeds now.desk)
        now.client (Ok reply) }
{
    records_stay();
    blocks_have_asked();
}
