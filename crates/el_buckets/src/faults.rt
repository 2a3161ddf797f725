// Faults of rows, told as those of a block that can't be added to a chain.
ghost use Rattle.std.specs.Prelude.{◌≡◌};
ghost use Rattle.el_buckets.specs.Faults.{as_connect_fault};

use el_chain::ConnectFault;
use el_rows::AppendFault;

/// Why a row wasn't appended.
pub fn not_appended(fault: AppendFault) -> ConnectFault
    ensures { result ≡ as_connect_fault fault }
{
    match fault {
        AppendFault::Full { table, rows } => ConnectFault::Full { table, rows },
        AppendFault::Memory => ConnectFault::Memory,
    }
}
