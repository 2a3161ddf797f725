// What holds of the encoding of headers.
ghost use Rattle.std.specs.Prelude.{◌≡◌};
ghost use Rattle.el_tx.specs.Headers.{header_encoding, IsHeader};
ghost use Rattle.el_tx.specs.declared.types.Header as shape;

/// No two headers have one encoding.
pub fn headers_differ_in_encoding()
    ensures { (a b : shape.Header) → IsHeader a → IsHeader b → header_encoding a ≡ header_encoding b → a ≡ b }
{}
