// Laws of broadcasts, as functions whose contracts state them.
ghost use Rattle.std.specs.Prelude.{◌≢◌, ℕ, List, Result, Err};
ghost use Rattle.el_base.specs.declared.hash.Hash32 as shape;
ghost use Rattle.el_relay.specs.declared.fault.OfferFault as fault_shape;
ghost use Rattle.el_relay.specs.declared.fault.OfferFault.TheVariants as refusal;
ghost use Rattle.el_relay.specs.Desk.{DeskState, HasReason, ShowsCauses};

/// What a broadcast is answered shows each cause that stands, but where memory ran out.
pub fn causes_are_answered()
    ensures { (desk : DeskState) (bytes : List ℕ) (answer : Result shape.Hash32 fault_shape.OfferFault)
        → HasReason desk bytes answer → answer ≢ Err refusal.Memory → ShowsCauses desk bytes answer }
{}
