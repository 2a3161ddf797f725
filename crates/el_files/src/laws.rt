// What holds of the records of a file, and of scans of files that tell.
ghost use Rattle.std.specs.Prelude.{◌≡◌, ℕ, List, [], ◌++◌, length, replicate};
ghost use Rattle.std.specs.List.{AllByRecursion};
ghost use Rattle.el_outside.specs.Files.{Grows};
ghost use Rattle.el_outside.specs.Seen.{seen, WasSeen};
ghost use Rattle.el_chain.specs.Records.{records, records_from};
ghost use Rattle.el_chain.specs.Records.{IsRecordIn};
ghost use Rattle.el_chain.specs.declared.node.Node as shape;
ghost use Rattle.el_files.specs.Scanning.{AreWholeRecords, WasScanned};

use el_outside::Archive;

/// Each node in the list of a file's records is that of the record that stands at its place.
pub fn records_stand()
    ensures { (magic bytes : List ℕ) (file : ℕ)
        → AllByRecursion (IsRecordIn magic file bytes) (records magic file bytes) }
{}

/// Padding after whole records adds its own records alone, and zeros have none: a file to which whole records
/// were written has no others with its zeros than without them.
pub fn padding_adds_no_records()
    ensures joined { (magic bytes padding : List ℕ) (file : ℕ) → AreWholeRecords magic bytes
        → records magic file (bytes ++ padding)
        ≡ records magic file bytes ++ records_from magic file (length bytes) 0 padding }
    ensures zeros { (magic bytes : List ℕ) (file n : ℕ) → AreWholeRecords magic bytes
        → records magic file (bytes ++ replicate n 0) ≡ records magic file bytes }
{}

/// Where each sight of a file begins with the same bytes, as many as the size that was told, a scan finds the
/// records of these.
pub fn scan_of_one_sight<A: Archive>()
    ensures { (before after : ℕ → List ℕ) (magic bytes : List ℕ) (file : ℕ) (nodes : List shape.Node)
        → ((sight : List ℕ) → WasSeen ⟦<A as Archive>⟧ before after file sight → Grows bytes sight)
        → (s : WasScanned ⟦<A as Archive>⟧ before after magic file nodes)
        → length (seen ⟦<A as Archive>⟧ s.told file) ≡ length bytes → nodes ≡ records magic file bytes }
{}

/// Over block files that have no padding a scan finds the records of a file as it was at one moment.
pub fn scan_without_padding<A: Archive>()
    ensures { (before after : ℕ → List ℕ) (magic : List ℕ) (file : ℕ) (nodes : List shape.Node)
        → ((archive : A) → A.padding archive file ≡ [])
        → WasScanned ⟦<A as Archive>⟧ before after magic file nodes
        → (bytes : List ℕ) × Grows (before file) bytes × Grows bytes (after file)
        × (nodes ≡ records magic file bytes) }
{}
