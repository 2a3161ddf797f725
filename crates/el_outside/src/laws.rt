// What holds of traces and counts.
ghost use Rattle.std.specs.Prelude.{◌≡◌, ℕ, ◌+◌, List, ◌++◌};
ghost use Rattle.el_outside.specs.Counts.{RoseBy};
ghost use Rattle.el_outside.specs.Trace.{Trace, ArrivalWithBytes, Message, Closing, GoesOn};

/// A trace that goes on twice goes on by both, in order.
pub fn traces_join()
    ensures { (a b c : Trace) (xs ys : List ArrivalWithBytes) (ms ns : List Message) (cs ds : List Closing)
        → GoesOn a b xs ms cs → GoesOn b c ys ns ds → GoesOn a c (xs ++ ys) (ms ++ ns) (cs ++ ds) }
{}

/// Counts rise together.
pub fn counts_add_up()
    ensures { (a b c m n : ℕ) → RoseBy a b m → RoseBy b c n → RoseBy a c (m + n) }
{}
