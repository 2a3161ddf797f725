// What holds of the definitions.
ghost use Rattle.std.specs.Prelude.{◌≡◌, ◌++◌, ℕ, List};
ghost use Rattle.el_lines.specs.Lines.{lines, added_lines};
ghost use Rattle.el_lines.specs.NodeLines as said;
ghost use Rattle.el_lines.specs.NodeLines.{ReadsNodeLine};
ghost use Rattle.el_lines.specs.LineStates.{LineState, WasFed};

/// Line buffers of one limit that were fed the same bytes, in whatever pieces, and have given as many events,
/// are the same to their callers. So the pieces in which a peer's bytes come change none of the events that
/// follow. It does nothing when it runs.
pub fn cuts_do_not_matter()
    ensures { (one other : LineState) (fed : List ℕ) (given : ℕ) → one.limit ≡ other.limit
        → WasFed one fed given → WasFed other fed given → one ≡ other }
{}

/// A line of a node says one thing at most. It does nothing when it runs.
pub fn node_line_says_one_thing()
    ensures { (line : List ℕ) (one other : said.NodeLine)
        → ReadsNodeLine line one → ReadsNodeLine line other → one ≡ other }
{}

/// The lines of bytes are those of their first piece and those that the rest adds, wherever they are cut. So
/// what a client asks does not depend on the pieces that its bytes come in.
pub fn pieces_do_not_matter()
    ensures { (limit : ℕ) (first rest : List ℕ) →
        lines limit (first ++ rest) ≡ lines limit first ++ added_lines limit first rest }
{}
