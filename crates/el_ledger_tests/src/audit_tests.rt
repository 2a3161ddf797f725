// What no contract says of audits: a ledger that tells nothing is found out where it drops an entry; and
// proofs that servers gave are accepted, but none with a changed byte.
ghost use Rattle.std.specs.Prelude.{◌≡◌, ◌≤◌, ◌<◌, [], None, Some, length, IfOk};

use crate::laid::{Laid, Made, go, laid_out};
use el_audit::{Claim, Kind, Report, audit, check_header, check_tx, collect, scripts_of};
use el_base::Hash32;
use el_chain::{Coin, Entry, MoveFault, Moved, Plan, Spot};
use el_gen::{BLOCK_1_HASH, GENESIS_TXID, HEADER_0};
use el_model::{Ledger, QueryFault};
use el_outside::{Archive, DiskFailed, NoPace, Pace, Place};
use el_plain::PlainLedger;
use el_tx::Outpoint;
use std::alloc::Global;
use std::process::Abort;
use std::test::Fail;
use std::thread::Threads;

// A ledger that tells no chain. It answers as the plain one in it does, but that it drops the last entry of
// each history.
#[derive(Drop)]
struct Lossy {
    plain: PlainLedger,
}

impl Ledger for Lossy {
    ghost stands = { λ l chain. ⊥ };

    ghost is_live = { λ l. Unit {0} };

    ghost height = { λ l. Some 0 };

    ghost tip = { λ l. None };

    ghost buckets = { λ l. 1 };

    ghost faults = { λ l. 0 };

    ghost reads = { λ l. 0 };

    ghost tells_crash = { ⊥ };

    ghost Left = { Unit {0} };

    ghost means = { λ left chain. ⊥ };

    ghost moment = { λ l. 0 };

    ghost left_since = { λ l since left. ⊥ };

    ghost beside = { λ l f. [] };

    ghost height_is = { λ l chain stands. absurd stands };

    ghost tip_is = { λ l chain stands. absurd stands };

    ghost good = { λ l chain stands. absurd stands };

    ghost earlier = { λ l t u left le since. since };

    ghost leaves_own = { λ l chain left told live stands since. absurd told };

    fn height(&self) -> Option<u32> {
        Some(0)
    }

    fn tip(&self) -> Option<Hash32> {
        None
    }

    fn header(&mut self, _h: u32) -> Result<[u8; 80], DiskFailed> {
        Ok([0; 80])
    }

    fn place(&mut self, _h: u32) -> Result<Place, DiskFailed> {
        Ok(Place {
            file: 0,
            offset: 0,
            len: 0,
        })
    }

    fn hashes(&mut self, _alloc: Global, _upto: u32) -> Result<Vec<Hash32>, QueryFault> {
        Err(QueryFault::Memory)
    }

    fn history(&mut self, alloc: Global, script_hash: &Hash32) -> Result<Vec<Entry>, QueryFault> {
        let mut found = self.plain.history(alloc, script_hash)?;
        let _last = found.pop();
        Ok(found)
    }

    fn unspent(&mut self, alloc: Global, script_hash: &Hash32) -> Result<Vec<Coin>, QueryFault> {
        self.plain.unspent(alloc, script_hash)
    }

    fn balance(&mut self, script_hash: &Hash32) -> Result<u64, DiskFailed> {
        self.plain.balance(script_hash)
    }

    fn find_tx(&mut self, _txid: &Hash32) -> Result<Option<Spot>, DiskFailed> {
        Ok(None)
    }

    fn block_txids(&mut self, _alloc: Global, _h: u32) -> Result<Vec<Hash32>, QueryFault> {
        Err(QueryFault::Memory)
    }

    fn coin(&mut self, _o: &Outpoint) -> Result<Option<Coin>, DiskFailed> {
        Ok(None)
    }

    fn spender(&mut self, _o: &Outpoint) -> Result<Option<Entry>, DiskFailed> {
        Ok(None)
    }

    fn go<W: Threads + Sync, A: Archive>(
        &mut self,
        _rt: &W,
        _alloc: Global,
        _plan: &Plan,
        _archive: &mut A,
        _pace: &(dyn Pace + Sync),
    ) -> Result<Moved, MoveFault> {
        Err(MoveFault::Memory)
    }
}

// Two coinbases to one script, and a transaction that gives half of the first one's coin to another.
const TABLE: &[Made] = &[
    Made::Coinbase(0, 0, 101),
    Made::Coinbase(1, 0, 101),
    Made::Spend(&[(0, 0)], &[(2_500_000_000, 101), (2_500_000_000, 100)]),
];

const BLOCKS: &[Laid] = &[Laid(0, None, &[0]), Laid(1, Some(0), &[1, 2])];

// A plain ledger of these blocks.
fn led<W: Threads + Sync>(rt: &W, alloc: Global) -> Result<PlainLedger, Fail> {
    let mut files = laid_out(alloc, TABLE, BLOCKS)?;
    let mut plain = PlainLedger::new(alloc);
    let _moved = go(rt, alloc, &mut plain, 0, &[0, 1], &mut files)?;
    Ok(plain)
}

// The report on what the ledger claims of these blocks' script hashes, which come with it.
fn report_on<W: Threads + Sync, G: Ledger>(
    rt: &W,
    alloc: Global,
    ledger: &mut G,
) -> Result<(Report, Vec<Claim>), Fail>
    requires { G.is_live ledger.old }
{
    let plain = led(rt, alloc)?;
    let scripts = scripts_of(alloc, plain.blocks())?;
    let claims = collect(alloc, ledger, scripts.as_slice())?;
    let report = audit(rt, alloc, plain.blocks(), claims.as_slice(), &NoPace)?;
    Ok((report, claims))
}

#[test]
fn a_ledger_of_the_blocks_is_the_same(rt: HostRuntime) -> Result<(), Fail> {
    let mut plain = led(&rt, rt.alloc())?;
    let (report, _) = report_on(&rt, rt.alloc(), &mut plain)?;
    assert!(rt; report == Report::Same { scripts: 2 });
    Ok(())
}

#[test]
fn a_dropped_entry_is_found(rt: HostRuntime) -> Result<(), Fail> {
    let plain = led(&rt, rt.alloc())?;
    let mut lossy = Lossy { plain };
    let (report, claims) = report_on(&rt, rt.alloc(), &mut lossy)?;
    let Some(first) = claims.first() else {
        return Err(Fail::new("no claims"));
    };
    match report {
        Report::Differs {
            script,
            kind: Kind::History { wanted, claimed },
            at,
        } => {
            assert!(rt; script == first.script && at == first.history.len() as u64);
            assert!(rt; wanted.is_some() && claimed.is_none());
        }
        _ => return Err(Fail::new("another report")),
    }
    Ok(())
}

// What a wallet is given: a header in digits, a leaf, its place, how many places the tree has, its branch.
struct Given {
    header: &'static str,
    leaf: &'static str,
    place: u64,
    places: u32,
    branch: &'static [&'static str],
}

// A third transaction, of no block.
const THIRD: &str = "9b0fc92260312ce44e74ef369f5c66bb85b66f3a0a8b2e5e6bb0c05a5d2f3c11";

// The replies to a wallet that asks where transactions stand: the first block's coinbase, and the last of
// three transactions, whose branch begins with itself. Their hashes were joined by another program.
const TXS: &[Given] = &[
    Given {
        header: HEADER_0,
        leaf: GENESIS_TXID,
        place: 0,
        places: 1,
        branch: &[],
    },
    Given {
        header: "01000000000000000000000000000000000000000000000000000000000000000000000090fc8a880aff33892ea55878bf75\
             5656e43dc2cb9f54f03f2fe2f5407cd6a51229ab5f49ffff001d1dac2b7c",
        leaf: THIRD,
        place: 2,
        places: 4,
        branch: &[
            THIRD,
            "2f42d840352292483446963dd7a2713ec165f852a975ccfb0fd7f6194f58fb33",
        ],
    },
];

// The reply to one that asks for the first header, proved up to the second block.
const HEADERS: &[(Given, &str)] = &[(
    Given {
        header: HEADER_0,
        leaf: "",
        place: 0,
        places: 2,
        branch: &[BLOCK_1_HASH],
    },
    "abdc2227d02d114b77be15085c1257709252a7a103f9ac0ab3c85d67e12bc0b8",
)];

// The bytes of a header.
fn header_of(digits: &str) -> Result<[u8; 80], Fail> {
    let mut header = [0u8; 80];
    hex::decode_to_slice(digits, &mut header)?;
    Ok(header)
}

// The hashes of a branch.
fn branch_of(alloc: Global, texts: &[&str]) -> Result<Vec<Hash32>, Fail>
    ensures { IfOk result (λ branch. length branch.items ≤ 32) }
{
    let mut branch = Vec::new(alloc);
    for text in texts {
        if branch.len() == 32 {
            return Err(Fail::new("a long branch"));
        }
        branch.push(Hash32::from_shown(text)?)?;
    }
    Ok(branch)
}

// The hash with another byte at the place.
fn changed(hash: Hash32, place: usize) -> Hash32
    requires { place < 32 }
{
    let Hash32(mut bytes) = hash;
    bytes[place] ^= 1;
    Hash32(bytes)
}

// The header with another byte at the place.
fn changed_header(header: [u8; 80], place: usize) -> [u8; 80]
    requires { place < 80 }
{
    let mut bytes = header;
    bytes[place] ^= 1;
    bytes
}

// The branch with another byte at that place of the hash of that number.
fn changed_branch(
    alloc: Global,
    branch: &[Hash32],
    number: usize,
    place: usize,
) -> Result<Vec<Hash32>, Fail>
    requires number { number < length branch.now }
    requires place { place < 32 }
    ensures { IfOk result (λ other. length other.items ≡ length branch.now) }
{
    let mut other = Vec::from_slice(alloc, branch)?;
    other[number] = changed(branch[number], place);
    Ok(other)
}

// The transaction is proved, and not with another byte of its txid, of the root in the header, or of the
// branch.
fn check_one_tx<R: Abort>(rt: &R, alloc: Global, given: &Given) -> Result<(), Fail> {
    let header = header_of(given.header)?;
    let txid = Hash32::from_shown(given.leaf)?;
    let branch = branch_of(alloc, given.branch)?;
    let place = given.place;
    assert!(rt; check_tx(&header, txid, place, branch.as_slice()));
    // The tree has no such place, though the branch leads to the root from there as well.
    let beyond = u64::from(given.places) + place % 4;
    assert!(rt; !check_tx(&header, txid, beyond, branch.as_slice()));
    for byte in 0..32 {
        assert!(rt; !check_tx(&header, changed(txid, byte), place, branch.as_slice()));
        let other = changed_header(header, 36 + byte);
        assert!(rt; !check_tx(&other, txid, place, branch.as_slice()));
        for number in 0..branch.len() {
            let other = changed_branch(alloc, branch.as_slice(), number, byte)?;
            assert!(rt; !check_tx(&header, txid, place, other.as_slice()));
        }
    }
    Ok(())
}

#[test]
fn proofs_of_transactions(rt: HostRuntime) -> Result<(), Fail> {
    for given in TXS {
        check_one_tx(&rt, rt.alloc(), given)?;
    }
    Ok(())
}

// The header is proved, and not with another byte of it, of the root, or of the branch.
fn check_one_header<R: Abort>(
    rt: &R,
    alloc: Global,
    given: &Given,
    root: &str,
) -> Result<(), Fail> {
    let header = header_of(given.header)?;
    let root = Hash32::from_shown(root)?;
    let branch = branch_of(alloc, given.branch)?;
    let place = given.place;
    assert!(rt; check_header(root, &header, place, branch.as_slice()));
    for byte in 0..80 {
        let other = changed_header(header, byte);
        assert!(rt; !check_header(root, &other, place, branch.as_slice()));
    }
    for byte in 0..32 {
        assert!(rt; !check_header(changed(root, byte), &header, place, branch.as_slice()));
        for number in 0..branch.len() {
            let other = changed_branch(alloc, branch.as_slice(), number, byte)?;
            assert!(rt; !check_header(root, &header, place, other.as_slice()));
        }
    }
    Ok(())
}

#[test]
fn proofs_of_headers(rt: HostRuntime) -> Result<(), Fail> {
    for (given, root) in HEADERS {
        check_one_header(&rt, rt.alloc(), given, root)?;
    }
    Ok(())
}
