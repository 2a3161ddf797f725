// What holds of the definitions.
ghost use Rattle.std.specs.Prelude.{◌≡◌, ◌⊎◌, ◌++◌, ℕ, List};
ghost use Rattle.el_base.specs.Left.{AreBytes};
ghost use Rattle.el_tx.specs.Encoding.{Encodes};
ghost use Rattle.el_tx.specs.FirstFault.{FirstFault};
ghost use Rattle.el_tx.specs.declared.types.Tx.{Tx};
ghost use Rattle.el_tx.specs.declared.fault.TxFault.{TxFault};

/// No encoding of a transaction begins another one, so bytes encode at most one transaction.
pub fn no_encoding_begins_another()
    ensures { (a b x y : List ℕ) (t u : Tx) → Encodes a t → Encodes b u → a ++ x ≡ b ++ y
        → (a ≡ b) × (t ≡ u) × (x ≡ y) }
{}

/// A transaction has at most one encoding.
pub fn each_has_one_encoding()
    ensures { (a b : List ℕ) (t : Tx) → Encodes a t → Encodes b t → a ≡ b }
{}

/// Bytes have at most one first fault.
pub fn first_fault_is_one()
    ensures { (bytes : List ℕ) (e f : TxFault) → FirstFault bytes e → FirstFault bytes f → e ≡ f }
{}

/// Bytes that begin with an encoding have no fault.
pub fn nothing_encoded_faults()
    ensures { (front rest : List ℕ) (t : Tx) (f : TxFault) → Encodes front t → FirstFault (front ++ rest) f
        → ⊥ }
{}

/// Bytes begin with an encoding or have a first fault.
pub fn each_is_read_or_faults()
    ensures { (bytes : List ℕ) → AreBytes bytes
        → ((t : Tx) × (front : List ℕ) × (rest : List ℕ) × Encodes front t × (bytes ≡ front ++ rest))
        ⊎ ((f : TxFault) × FirstFault bytes f) }
{}
