// What a checked index has.
ghost use Rattle.std.specs.Prelude.{◌≡◌, ◌++◌, IfOk, OnOk};
ghost use Rattle.std.specs.Fmt.{decimal};
ghost use Rattle.el_check_chain.specs.Summaries as sums;

use el_base::{Bytes, OutOfMemory};
use itoa::Buffer;
use std::alloc::Global;

/// What an index has that was led over a made file.
#[derive(Clone, Copy, Debug, PartialEq, Eq)]
pub struct Summary {
    /// The height of the last block; 0 for no blocks.
    pub height: u32,
    /// How many rows the table of transactions has: one for each of the chain.
    pub txs: u64,
    /// How many rows the table of outputs has: one for each of the chain.
    pub outputs: u64,
    /// How many moves were committed.
    pub moves: u64,
    /// What the coins of the script of 100 hold together, in satoshi.
    pub balance: u64,
    /// How many bytes the made file has.
    pub bytes: u64,
}

// A word and a number after it.
fn put(line: &mut Bytes, word: &[u8], number: u64) -> Result<(), OutOfMemory>
    ensures { OnOk result (line.new ≡ line.old ++ word.now ++ decimal number) }
{
    let mut digits = Buffer::new();
    line.extend(word)?;
    line.extend(digits.format(number).as_bytes())?;
    Ok(())
}

impl Summary {
    /// The line that tells it, ended by byte 10. Fails only where memory runs out.
    pub fn line(&self, alloc: Global) -> Result<Bytes, OutOfMemory>
        ensures { IfOk result (λ line. line ≡ sums.summary_line self.now) }
    {
        let mut line = Bytes::new(alloc);
        put(&mut line, b"height ", u64::from(self.height))?;
        put(&mut line, b" transactions ", self.txs)?;
        put(&mut line, b" outputs ", self.outputs)?;
        put(&mut line, b" moves ", self.moves)?;
        put(&mut line, b" balance ", self.balance)?;
        put(&mut line, b" bytes ", self.bytes)?;
        line.extend(b"\n")?;
        Ok(line)
    }
}
