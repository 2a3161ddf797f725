// The line of what an audit finds.
ghost use Rattle.std.specs.Prelude.{◌≡◌, ◌++◌, ℕ, IfOk, OnOk};
ghost use Rattle.std.specs.Fmt.{decimal};
ghost use Rattle.el_base.specs.Shown.{shown};
ghost use Rattle.el_audit_run.specs.Lines as lines;

use crate::finding::Finding;
use el_audit::Kind;
use el_base::{Bytes, Hash32, OutOfMemory};
use el_chain::{Coin, Entry};
use el_lines::Flaw;
use itoa::Buffer;
use std::alloc::Global;

// A word and a number after it.
fn put_number(line: &mut Bytes, word: &[u8], number: u128) -> Result<(), OutOfMemory>
    ensures { OnOk result (line.new ≡ line.old ++ (word.now ++ decimal number)) }
{
    let mut digits = Buffer::new();
    line.extend(word)?;
    line.extend(digits.format(number).as_bytes())?;
    Ok(())
}

// A word and a hash after it, as it is shown.
fn put_hash(line: &mut Bytes, word: &[u8], hash: Hash32) -> Result<(), OutOfMemory>
    ensures { OnOk result (line.new ≡ line.old ++ (word.now ++ shown hash.0)) }
{
    line.extend(word)?;
    line.extend(hash.shown().as_slice())?;
    Ok(())
}

// A blank and an entry of a history.
fn put_entry(line: &mut Bytes, entry: Option<Entry>) -> Result<(), OutOfMemory>
    ensures { OnOk result (line.new ≡ line.old ++ lines.entry_word entry) }
{
    match entry {
        Some(entry) => {
            put_number(line, b" ", u128::from(entry.height))?;
            put_hash(line, b":", entry.txid)
        }
        None => line.extend(b" -"),
    }
}

// A blank and a coin.
fn put_coin(line: &mut Bytes, coin: Option<Coin>) -> Result<(), OutOfMemory>
    ensures { OnOk result (line.new ≡ line.old ++ lines.coin_word coin) }
{
    match coin {
        Some(coin) => {
            put_hash(line, b" ", coin.outpoint.txid)?;
            put_number(line, b":", u128::from(coin.outpoint.index))?;
            put_number(line, b":", u128::from(coin.value))?;
            put_number(line, b":", u128::from(coin.height))
        }
        None => line.extend(b" -"),
    }
}

// What differs of a script hash, in what, and where.
fn put_difference(line: &mut Bytes, script: Hash32, kind: &Kind, at: u64) -> Result<(), OutOfMemory>
    ensures { OnOk result (line.new ≡ line.old ++ lines.difference_text script kind.now at) }
{
    match *kind {
        Kind::History { wanted, claimed } => {
            put_hash(line, b"differs history ", script)?;
            put_number(line, b" ", u128::from(at))?;
            put_entry(line, wanted)?;
            put_entry(line, claimed)
        }
        Kind::Unspent { wanted, claimed } => {
            put_hash(line, b"differs unspent ", script)?;
            put_number(line, b" ", u128::from(at))?;
            put_coin(line, wanted)?;
            put_coin(line, claimed)
        }
        Kind::Balance { wanted, claimed } => {
            put_hash(line, b"differs balance ", script)?;
            put_number(line, b" ", u128::from(wanted))?;
            put_number(line, b" ", u128::from(claimed))
        }
    }
}

// The word for what is wrong with a block.
fn flaw_word(flaw: Option<Flaw>) -> &'static str
    ensures { result.now ≡ lines.block_word flaw }
{
    match flaw {
        Some(flaw) => flaw.word(),
        None => "changed",
    }
}

// What differs of a block.
fn put_block(line: &mut Bytes, block: Hash32, flaw: Option<Flaw>) -> Result<(), OutOfMemory>
    ensures { OnOk result (line.new ≡ line.old ++ lines.block_text block flaw) }
{
    put_hash(line, b"differs block ", block)?;
    line.extend(b" ")?;
    line.extend(flaw_word(flaw).as_bytes())
}

// That all are the same.
fn put_same(line: &mut Bytes, height: u32, txs: u128, scripts: u64) -> Result<(), OutOfMemory>
    ensures { OnOk result (line.new ≡ line.old ++ lines.same_text height txs scripts) }
{
    put_number(line, b"same height ", u128::from(height))?;
    put_number(line, b" transactions ", txs)?;
    put_number(line, b" scripts ", u128::from(scripts))
}

// What tells a finding, without its byte 10.
fn put_finding(line: &mut Bytes, finding: &Finding) -> Result<(), OutOfMemory>
    ensures { OnOk result (line.new ≡ line.old ++ lines.finding_text finding.now) }
{
    match *finding {
        Finding::Empty => line.extend(b"same empty"),
        Finding::NoPath { tip } => put_hash(line, b"differs tip ", tip),
        Finding::TooLarge { bytes } => put_number(line, b"audit too large ", bytes),
        Finding::BadBlock { block, flaw } => put_block(line, block, flaw),
        Finding::Differs {
            script,
            ref kind,
            at,
        } => put_difference(line, script, kind, at),
        Finding::Same {
            height,
            txs,
            scripts,
        } => put_same(line, height, txs, scripts),
    }
}

impl Finding {
    /// The line that tells it, ended by byte 10. Fails only where memory runs out.
    pub fn line(&self, alloc: Global) -> Result<Bytes, OutOfMemory>
        ensures { IfOk result (λ line. line ≡ lines.finding_line self.now) }
    {
        let mut line = Bytes::new(alloc);
        put_finding(&mut line, self)?;
        line.extend(b"\n")?;
        Ok(line)
    }
}
