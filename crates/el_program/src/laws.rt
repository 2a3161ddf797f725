// What holds of the chain that is read of file 0.
ghost use Rattle.std.specs.Prelude.{◌≡◌, ℕ, List, []};
ghost use Rattle.el_chain.specs.Chains.{Chain};
ghost use Rattle.el_chain.specs.Records.{GivesChain, records};
ghost use Rattle.el_chain.specs.declared.node.Node as shape;
ghost use Rattle.el_program.specs.Ends.{IsBadFile};
ghost use Rattle.el_program.specs.File.{GivesNoChain, WasFile};
ghost use Rattle.el_program.specs.Opened.{IsRead};

use el_outside::Archive;

/// Over block files that have no padding, the chain that is read of file 0 is the one that the file gives, as
/// it was at one moment, and these are its records; where its records are no chain, it gives none.
pub fn file_without_padding_gives_chain<A: Archive>()
    ensures gives { (before after : ℕ → List ℕ) (magic : List ℕ) (nodes : List shape.Node) (chain : Chain)
        → A.tells → ((archive : A) → A.padding archive 0 ≡ [])
        → IsRead ⟦<A as Archive>⟧ before after magic nodes chain
        → (file : List ℕ) × WasFile before after file × GivesChain magic 0 file chain
        × (nodes ≡ records magic 0 file) }
    ensures gives_none { (before after : ℕ → List ℕ) (magic : List ℕ)
        → A.tells → ((archive : A) → A.padding archive 0 ≡ [])
        → IsBadFile ⟦<A as Archive>⟧ magic before after
        → (file : List ℕ) × WasFile before after file × GivesNoChain magic file }
{}
