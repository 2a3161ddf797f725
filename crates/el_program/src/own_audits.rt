// What an audit finds over the blocks of the index's own chain.
ghost use Rattle.std.specs.Prelude.{◌≡◌, ◌≢◌, ℕ, List, [], Some};
ghost use Rattle.el_base.specs.declared.hash.Hash32 as hash_shape;
ghost use Rattle.el_chain.specs.declared.node.Node as shape;
ghost use Rattle.el_chain.specs.Chains.{Chain};
ghost use Rattle.el_chain.specs.Headers.{IsPath};
ghost use Rattle.el_methods.specs.Archives.{HasRecords};
ghost use Rattle.el_model.specs.Queries.{tip_of};
ghost use Rattle.el_words.specs.Commands.{IsAudit};
ghost use Rattle.el_program.specs.AnyCall.{IsCall};
ghost use Rattle.el_program.specs.Calls.{Call};
ghost use Rattle.el_program.specs.IndexDisks.{IsIndexDisk};
ghost use Rattle.el_program.specs.Opened.{IsScanned, all_added, nodes_of_chain};
ghost use Rattle.el_program.specs.declared.status.Status.TheVariants as status;

use el_outside::{Archive, Disk, Link, Relay};

/// A call with the words of `audit` tells no difference, over an index of a chain and block files that have
/// its records, where a scan of these finds the path to its last block at its places.
pub fn audits_of_own_blocks_are_the_same<D: Disk, A: Archive, Y: Relay, K: Link>()
    ensures { (c : Call D A Y K) (magic : List ℕ) (was flight chain : Chain)
        → IsCall ⟦<D as Disk>⟧ ⟦<A as Archive>⟧ ⟦<Y as Relay>⟧ ⟦<K as Link>⟧ c → IsAudit c.words magic
        → A.tells → IsIndexDisk ⟦<D as Disk>⟧ magic c.before.disk was flight chain
        → HasRecords (A.bytes c.before.files) chain
        → ((now : A) (nodes : List shape.Node) (h : hash_shape.Hash32)
        → IsScanned ⟦<A as Archive>⟧ magic c.before.files now nodes → tip_of chain ≡ Some h
        → IsPath (all_added [] nodes) h (nodes_of_chain chain))
        → c.status ≢ status.AuditDiffers }
{}
