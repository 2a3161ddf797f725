// `prove-check`: whether a branch proves a transaction is told to client 1.
ghost use Rattle.std.specs.Prelude.{◌≡◌, ◌≢◌, ◌≤◌, ℕ, length};
ghost use Rattle.el_loop.specs.Traffic.{Traffic};
ghost use Rattle.el_side.specs.Deeds.{faults};
ghost use Rattle.el_loop.specs.Counts.{counts};
ghost use Rattle.el_loop.specs.Traffic.{WentBy};
ghost use Rattle.el_words.specs.Proofs.{SayProof};
ghost use Rattle.el_words.specs.Words.{texts};
ghost use Rattle.el_words.specs.declared.words.ProofWords as shape;
ghost use Rattle.el_program.specs.Audits.{IsSendEnd, IsVerdict};
ghost use Rattle.el_program.specs.Checks.{SummaryEnds};
ghost use Rattle.el_program.specs.Ends.{IsUnserved};
ghost use Rattle.el_program.specs.Statuses.{ShowsCause};

use crate::checked::send_one;
use crate::status::Status;
use el_audit::check_tx;
use el_outside::Link;
use el_words::{ProofWords, proof_of};
use std::alloc::Global;

// The line that tells whether the words prove their transaction.
fn verdict(said: &ProofWords) -> &'static [u8]
    requires { length said.now.branch ≤ 32 }
    ensures { IsVerdict said.now result.now }
{
    if check_tx(&said.header, said.txid, said.pos, said.branch.as_slice()) {
        b"yes\n"
    } else {
        b"no\n"
    }
}

// Sends client 1 whether the words prove their transaction.
fn tell<K: Link>(said: &ProofWords, link: &mut K) -> Status
    requires { length said.now.branch ≤ 32 }
    ensures ends { (turns of_files of_disk of_relay : ℕ) → (t : Traffic)
        × WentBy ⟦<K as Link>⟧ link.old link.new t
        × SummaryEnds (IsVerdict said.now) (counts turns (K.calls link.old) (K.calls link.new)
        (faults (K.faults link.old) of_files of_disk of_relay)
        (faults (K.faults link.new) of_files of_disk of_relay)) t
        result }
    ensures causes { (turns of_files of_disk of_relay : ℕ) → ShowsCause
        (counts turns (K.calls link.old) (K.calls link.new)
        (faults (K.faults link.old) of_files of_disk of_relay)
        (faults (K.faults link.new) of_files of_disk of_relay))
        result }
    ensures sent { IsSendEnd result }
{
    send_one(link, verdict(said))
}

/// With the words of `prove-check` it sends client 1 whether they prove their transaction. No other device is
/// called. Other words are refused.
pub fn serve_proof<K: Link>(alloc: Global, words: &[String], link: &mut K) -> Status
    // How often calls of the other devices failed changes nothing here.
    ensures ends { (turns of_files of_disk of_relay : ℕ) (said : shape.ProofWords)
        → SayProof (texts words.now) said
        → (t : Traffic) × WentBy ⟦<K as Link>⟧ link.old link.new t
        × SummaryEnds (IsVerdict said) (counts turns (K.calls link.old) (K.calls link.new)
        (faults (K.faults link.old) of_files of_disk of_relay)
        (faults (K.faults link.new) of_files of_disk of_relay)) t
        result }
    ensures causes { (turns of_files of_disk of_relay : ℕ) → ShowsCause
        (counts turns (K.calls link.old) (K.calls link.new)
        (faults (K.faults link.old) of_files of_disk of_relay)
        (faults (K.faults link.new) of_files of_disk of_relay))
        result }
    ensures refused { ((said : shape.ProofWords) → SayProof (texts words.now) said → ⊥)
        → (result ≡ Status.Usage) × (link.new ≡ link.old) }
    ensures lawful { result ≡ Status.Usage → (said : shape.ProofWords) → SayProof (texts words.now) said → ⊥ }
    ensures no_index { result ≢ Status.BadIndex }
    ensures no_disk { result ≢ Status.DiskFailed }
    ensures unserved { IsUnserved result → link.new ≡ link.old }
{
    match proof_of(alloc, words) {
        Ok(Some(said)) => tell(&said, link),
        Ok(None) => Status::Usage,
        Err(_) => Status::OutOfMemory,
    }
}
