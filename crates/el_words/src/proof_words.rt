// The words of a proof that is to be checked.
ghost use Rattle.std.specs.Prelude.{◌≡◌, ◌↔◌, ℕ, List, ◌∷◌, codes, true, false, IsTrue, MatchOption, IfSome, IfNone, IfOk, IfErr};
ghost use Rattle.el_base.specs.Shown.{Shows};
ghost use Rattle.el_base.specs.declared.hash.Hash32 as shape;
ghost use Rattle.el_words.specs.Options.{Word};
ghost use Rattle.el_words.specs.Words.{texts};
ghost use Rattle.el_words.specs.Proofs.{ShowsHeader, ShowsBranch, SayProof};
ghost use Rattle.el_words.specs.declared.words.ProofWords as words_shape;
ghost use Rattle.el_words.specs.within.Hashes.{BeginsWithHash, ReadsHashes};

use crate::words::ProofWords;
use el_base::{Hash32, Listed, OutOfMemory};
use el_lines::number_of;
use std::alloc::Global;

// How many hashes a branch has at most.
const MOST_HASHES: usize = 32;

// The header that the text shows.
fn header_of(text: &[u8]) -> Option<[u8; 80]>
    ensures { MatchOption result ((header : List ℕ) → ShowsHeader text.now header → ⊥)
        (λ header. ShowsHeader text.now header) }
{
    if text.len() != 160 {
        return None;
    }
    let mut header = [0u8; 80];
    match hex::decode_to_slice(text, &mut header) {
        Ok(()) => Some(header),
        Err(_) => None,
    }
}

// The hash that the text shows.
fn hash_of(text: &[u8]) -> Option<Hash32>
    ensures { MatchOption result ((hash : List ℕ) → Shows text.now hash → ⊥)
        (λ hash. Shows text.now hash.0) }
{
    match Hash32::from_shown_bytes(text) {
        Ok(hash) => Some(hash),
        Err(_) => None,
    }
}

// The hash that the first 64 bytes show, and the text after them.
fn first_hash(text: &[u8]) -> Option<(Hash32, &[u8])>
    ensures { MatchOption result
        ((hash : shape.Hash32) (more : Word) → BeginsWithHash text.now hash more → ⊥)
        (λ found. BeginsWithHash text.now found.0 found.1.now) }
{
    if text.len() < 64 {
        return None;
    }
    let (first, more) = text.split_at(64);
    Some((hash_of(first)?, more))
}

// The text after the comma with which it begins.
fn after_comma(text: &[u8]) -> Option<&[u8]>
    ensures { MatchOption result ((more : Word) → text.now ≡ 44 ∷ more → ⊥)
        (λ more. text.now ≡ 44 ∷ more.now) }
{
    let (first, more) = text.split_first()?;
    if *first == b',' { Some(more) } else { None }
}

// The hashes that the text shows, joined by commas, at most 32.
fn hashes_of(alloc: Global, text: &[u8]) -> Result<Option<Vec<Hash32>>, OutOfMemory>
    ensures found { IfOk result (λ found. IfSome found (λ list. ReadsHashes text.now list.items)) }
    ensures none { IfOk result (λ found. IfNone found
        ((list : List shape.Hash32) → ReadsHashes text.now list → ⊥)) }
{
    let mut hashes = Vec::new(alloc);
    let mut rest = text;
    for number in 0..MOST_HASHES {
        let Some((hash, after)) = first_hash(rest) else {
            return Ok(None);
        };
        hashes.push(hash)?;
        if after.is_empty() {
            return Ok(Some(hashes));
        }
        let Some(more) = after_comma(after) else {
            return Ok(None);
        };
        rest = more;
    }
    Ok(None)
}

// Whether the text shows hashes, joined by commas, at most 32. Takes no memory.
fn shows_hashes(text: &[u8]) -> bool
    ensures shown { result ≡ true → (list : List shape.Hash32) × ReadsHashes text.now list }
    ensures none { result ≡ false → (list : List shape.Hash32) → ReadsHashes text.now list → ⊥ }
{
    let mut rest = text;
    for number in 0..MOST_HASHES {
        let Some((_, after)) = first_hash(rest) else {
            return false;
        };
        if after.is_empty() {
            return true;
        }
        let Some(more) = after_comma(after) else {
            return false;
        };
        rest = more;
    }
    false
}

// Whether the text is `-`.
fn is_dash(text: &[u8]) -> bool
    ensures { IsTrue result ↔ (text.now ≡ codes "-") }
{
    text == b"-".as_slice()
}

// Whether the text shows a branch. Takes no memory.
fn shows_branch(text: &[u8]) -> bool
    ensures shown { result ≡ true → (branch : List shape.Hash32) × ShowsBranch text.now branch }
    ensures none { result ≡ false → (branch : List shape.Hash32) → ShowsBranch text.now branch → ⊥ }
{
    is_dash(text) || shows_hashes(text)
}

// The branch that the text shows.
fn branch_of(alloc: Global, text: &[u8]) -> Result<Option<Listed<Hash32>>, OutOfMemory>
    ensures found { IfOk result (λ found. IfSome found (ShowsBranch text.now)) }
    ensures none { IfOk result (λ found. IfNone found
        ((branch : List shape.Hash32) → ShowsBranch text.now branch → ⊥)) }
{
    if is_dash(text) {
        return Ok(Some(Listed::new(alloc)));
    }
    match hashes_of(alloc, text)? {
        Some(hashes) => Ok(Some(Listed::from_vec(hashes))),
        None => Ok(None),
    }
}

/// What the words `prove-check HEADER TXID POS BRANCH` say; None exactly for other words. Memory runs out for
/// such words alone.
pub fn proof_of(alloc: Global, words: &[String]) -> Result<Option<ProofWords>, OutOfMemory>
    ensures found { IfOk result (λ found. IfSome found (SayProof (texts words.now))) }
    ensures none { IfOk result (λ found. IfNone found
        ((said : words_shape.ProofWords) → SayProof (texts words.now) said → ⊥)) }
    ensures memory { IfErr result (λ e. (said : words_shape.ProofWords) × SayProof (texts words.now) said) }
{
    let [command, header, txid, pos, branch] = words else {
        return Ok(None);
    };
    if command.as_str() != "prove-check" {
        return Ok(None);
    }
    let Some(header) = header_of(header.as_bytes()) else {
        return Ok(None);
    };
    let Some(txid) = hash_of(txid.as_bytes()) else {
        return Ok(None);
    };
    let Some(pos) = number_of(pos.as_bytes(), 10, 10_000_000_000) else {
        return Ok(None);
    };
    if !shows_branch(branch.as_bytes()) {
        return Ok(None);
    }
    let Some(branch) = branch_of(alloc, branch.as_bytes())? else {
        return Ok(None);
    };
    Ok(Some(ProofWords {
        header,
        txid,
        pos,
        branch,
    }))
}
