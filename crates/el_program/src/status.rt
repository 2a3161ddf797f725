// How the program ends.
ghost use Rattle.std.specs.Prelude.{◌≡◌};
ghost use Rattle.el_program.specs.Statuses.{exit_code, line_of, status_of_end};

use el_loop::End;

/// How a call of `serve` ended.
#[derive(Clone, Copy, Debug, PartialEq, Eq)]
pub enum Status {
    /// The link answered that nothing comes any more, or that peer 0 left.
    Ended,
    /// The words are not those of a command.
    Usage,
    /// What is on the index's device is no index of the network.
    BadIndex,
    /// The block files failed.
    ArchiveFailed,
    /// A call of the index's device failed.
    DiskFailed,
    /// The link failed: a call of `next`, or a send to the node.
    LinkFailed,
    /// Out of memory.
    OutOfMemory,
    /// All turns were made.
    TurnsSpent,
    /// The block files are those of another chain than the index's.
    OtherChain,
    /// File 0 is no chain.
    BadChain,
    /// An audit found that the index or the block files are not as they should be.
    AuditDiffers,
    /// An audit found more bytes of blocks than it takes.
    AuditTooLarge,
}

impl Status {
    /// How the program ends where its run ends so.
    pub fn of_end(end: End) -> Status
        ensures { result ≡ status_of_end end }
    {
        match end {
            End::Ended => Status::Ended,
            End::DiskFailed => Status::DiskFailed,
            End::LinkFailed => Status::LinkFailed,
            End::OutOfMemory => Status::OutOfMemory,
            End::TurnsSpent => Status::TurnsSpent,
        }
    }

    /// The exit status of the program.
    pub fn code(self) -> u8
        ensures { result ≡ exit_code self }
    {
        match self {
            Status::Ended => 0,
            Status::Usage => 2,
            Status::BadIndex => 3,
            Status::ArchiveFailed => 4,
            Status::DiskFailed => 5,
            Status::LinkFailed => 6,
            Status::OutOfMemory => 7,
            Status::TurnsSpent => 8,
            Status::OtherChain => 9,
            Status::BadChain => 10,
            Status::AuditDiffers => 11,
            Status::AuditTooLarge => 12,
        }
    }

    /// The line that the program writes to standard error as it ends.
    pub fn line(self) -> &'static str
        ensures { result.now ≡ line_of self }
    {
        match self {
            Status::Ended => "electrum_serve: ended\n",
            Status::Usage => "electrum_serve: usage\n",
            Status::BadIndex => "electrum_serve: bad index\n",
            Status::ArchiveFailed => "electrum_serve: block files failed\n",
            Status::DiskFailed => "electrum_serve: index device failed\n",
            Status::LinkFailed => "electrum_serve: link failed\n",
            Status::OutOfMemory => "electrum_serve: out of memory\n",
            Status::TurnsSpent => "electrum_serve: turns spent\n",
            Status::OtherChain => "electrum_serve: other chain\n",
            Status::BadChain => "electrum_serve: bad chain\n",
            Status::AuditDiffers => "electrum_serve: audit differs\n",
            Status::AuditTooLarge => "electrum_serve: audit too large\n",
        }
    }
}
