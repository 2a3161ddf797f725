// A folder of transactions that wait, as the system's calls give it.
ghost use Rattle.std.specs.Prelude.{◌≡◌, ◌≤◌, [], ◌∷◌, ◌++◌, true, length, take, IfOk, IfErr, OnOk};
ghost use Rattle.std.specs.IoError.{error_kind};
ghost use Rattle.el_relay_folder.specs.Outboxes.{empty_draft, with_more_text, durable, HasFile, PutsNone, PutsOnly};

use el_base::Hash32;
use std::io;
use std::io::ErrorKind;

/// A folder of transactions that wait for the node, each in a file that has the name of its txid, each call
/// as the system makes it: a write may take a part of what it is asked for, and a signal may interrupt it. A
/// file is written under another name, and then put under its own. Others may take away files that stand
/// under their names, and make none.
pub trait Outbox {
    ghost use Rattle.el_relay_folder.specs.Outboxes.{Draft, Files};

    /// A file that is being written.
    type Draft: Drop;

    /// Whether the folder tells what its files hold. One in memory does, a real one doesn't.
    ghost tells: { Type 0 };

    /// The files that were put under their names so far, and those of them that are on the disk.
    ghost files: { Self → Files };

    /// What a file that is being written has.
    ghost draft: { Self.Draft → Draft };

    /// Whether a file of the transaction with this txid stands under its name.
    fn has(&mut self, id: &Hash32) -> io::Result<bool>
        ensures there { tells → IfOk result (λ there. there ≡ true → HasFile (files self.new).put id.now) }
        ensures none { tells → PutsNone (files self.old) (files self.new) };

    /// How many files of transactions stand under their names.
    fn waiting(&mut self) -> io::Result<u64>
        ensures none { tells → PutsNone (files self.old) (files self.new) };

    /// Makes a file for the transaction with this txid, with no text yet, under a name that isn't its own.
    /// One that stands there is cut.
    fn create(&mut self, id: &Hash32) -> io::Result<Self::Draft>
        ensures made { tells → IfOk result (λ made. draft made ≡ empty_draft id.now) }
        ensures none { tells → PutsNone (files self.old) (files self.new) };

    /// Adds a front of the text after what the file has, and answers how many bytes those are. A call that
    /// was interrupted added nothing.
    fn write(&mut self, file: &mut Self::Draft, text: &[u8]) -> io::Result<usize>
        ensures within { IfOk result (λ n. n ≤ length text.now) }
        ensures written { tells → IfOk result (λ n.
            draft file.new ≡ with_more_text (draft file.old) (take n text.now)) }

        ensures interrupted { tells → IfErr result (λ e.
            error_kind e ≡ ErrorKind.Interrupted → draft file.new ≡ draft file.old) }
        ensures none { tells → PutsNone (files self.old) (files self.new) };

    /// Makes durable what the file has.
    fn sync(&mut self, file: &mut Self::Draft) -> io::Result<()>
        ensures synced { tells → OnOk result (draft file.new ≡ durable (draft file.old)) }
        ensures none { tells → PutsNone (files self.old) (files self.new) };

    /// Removes a file that was being written. Where it can't, the file stays, under a name that isn't its
    /// own.
    fn discard(&mut self, file: Self::Draft)
        ensures { tells → PutsNone (files self.old) (files self.new) };

    /// Puts the file under its name, in place of one that may stand there. Where all of it is on the disk,
    /// nobody finds another text than its own there. A file that isn't put is removed.
    fn put(&mut self, file: Self::Draft) -> io::Result<()>
        ensures put { tells → (draft file).is_synced ≡ true
            → OnOk result ((files self.new).put ≡ (files self.old).put ++ (draft file).file ∷ []) }
        ensures only { tells → (draft file).is_synced ≡ true
            → PutsOnly (draft file).file (files self.old) (files self.new) };

    /// Makes durable which files stand in the folder.
    fn sync_folder(&mut self) -> io::Result<()>
        ensures lasting { tells → OnOk result ((files self.new).lasting ≡ (files self.old).put) }
        ensures none { tells → PutsNone (files self.old) (files self.new) };
}
