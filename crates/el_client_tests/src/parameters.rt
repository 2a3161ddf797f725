// The parameters of each method: too few, too many, each of another kind, null, and by an unknown name. Which
// value is of which kind was written out by hand from Electrum Protocol 1.4.
use crate::methods::{joined, push_all, request, text_of, world_of};
use el_base::Bytes;
use std::alloc::Global;
use std::test::Fail;

// What a parameter may be.
#[derive(Clone, Copy, PartialEq, Eq)]
enum Kind {
    Hash,
    Number,
    Flag,
    Text,
    Versions,
    Object,
    Hex,
}

// A method, its parameters by name, each with a value and its kind, and how many of them must be given.
type Row = (
    &'static str,
    &'static [(&'static str, &'static str, Kind)],
    usize,
);

const SOME_HASH: &str = "\"4a5e1e4baab89f3a32518a88c31bc87f618f76673e2cc77ab2127b7afdeda33b\"";

const METHODS: &[Row] = &[
    (
        "server.version",
        &[
            ("client_name", "\"electrum\"", Kind::Text),
            ("protocol_version", "\"1.4\"", Kind::Versions),
        ],
        0,
    ),
    ("server.banner", &[], 0),
    ("server.donation_address", &[], 0),
    ("server.features", &[], 0),
    ("server.ping", &[], 0),
    ("server.peers.subscribe", &[], 0),
    ("server.add_peer", &[("features", "{}", Kind::Object)], 1),
    (
        "blockchain.block.header",
        &[
            ("height", "0", Kind::Number),
            ("cp_height", "0", Kind::Number),
        ],
        1,
    ),
    (
        "blockchain.block.headers",
        &[
            ("start_height", "0", Kind::Number),
            ("count", "1", Kind::Number),
            ("cp_height", "0", Kind::Number),
        ],
        2,
    ),
    (
        "blockchain.estimatefee",
        &[("number", "2", Kind::Number)],
        1,
    ),
    ("blockchain.relayfee", &[], 0),
    ("blockchain.headers.subscribe", &[], 0),
    (
        "blockchain.scripthash.get_balance",
        &[("scripthash", SOME_HASH, Kind::Hash)],
        1,
    ),
    (
        "blockchain.scripthash.get_history",
        &[("scripthash", SOME_HASH, Kind::Hash)],
        1,
    ),
    (
        "blockchain.scripthash.get_mempool",
        &[("scripthash", SOME_HASH, Kind::Hash)],
        1,
    ),
    (
        "blockchain.scripthash.listunspent",
        &[("scripthash", SOME_HASH, Kind::Hash)],
        1,
    ),
    (
        "blockchain.scripthash.subscribe",
        &[("scripthash", SOME_HASH, Kind::Hash)],
        1,
    ),
    (
        "blockchain.scripthash.unsubscribe",
        &[("scripthash", SOME_HASH, Kind::Hash)],
        1,
    ),
    (
        "blockchain.transaction.broadcast",
        &[("raw_tx", "\"00\"", Kind::Hex)],
        1,
    ),
    (
        "blockchain.transaction.get",
        &[
            ("tx_hash", SOME_HASH, Kind::Hash),
            ("verbose", "false", Kind::Flag),
        ],
        1,
    ),
    (
        "blockchain.transaction.get_merkle",
        &[
            ("tx_hash", SOME_HASH, Kind::Hash),
            ("height", "0", Kind::Number),
        ],
        2,
    ),
    (
        "blockchain.transaction.id_from_pos",
        &[
            ("height", "0", Kind::Number),
            ("tx_pos", "0", Kind::Number),
            ("merkle", "false", Kind::Flag),
        ],
        2,
    ),
    ("mempool.get_fee_histogram", &[], 0),
];

// A value, and the kinds that it is of.
const VALUES: &[(&str, &[Kind])] = &[
    ("null", &[]),
    ("true", &[Kind::Flag]),
    ("7", &[Kind::Number]),
    ("18446744073709551615", &[Kind::Number]),
    ("18446744073709551616", &[]),
    ("-1", &[]),
    ("1.0", &[]),
    ("\"\"", &[Kind::Text, Kind::Hex]),
    ("\"zz\"", &[Kind::Text]),
    ("\"0aF\"", &[Kind::Text]),
    ("\"0aFf\"", &[Kind::Text, Kind::Hex]),
    ("\"1.4\"", &[Kind::Text, Kind::Versions]),
    ("\"1.12345\"", &[Kind::Text]),
    ("[\"1.4\",\"1.4.2\"]", &[Kind::Versions]),
    ("[\"1.4\"]", &[]),
    ("[]", &[]),
    ("{}", &[Kind::Object]),
    (SOME_HASH, &[Kind::Text, Kind::Hash, Kind::Hex]),
    (
        "\"4A5E1E4BAAB89F3A32518A88C31BC87F618F76673E2CC77AB2127B7AFDEDA33\"",
        &[Kind::Text],
    ),
];

const INVALID: &[u8] =
    b"{\"error\":{\"code\":-32602,\"message\":\"invalid params\"},\"id\":1,\"jsonrpc\":\"2.0\"}\n";

// The message to a new client's line; None where there is none.
fn told_new(alloc: Global, line: &[u8]) -> Option<Bytes> {
    match world_of(alloc, &[], 0) {
        Some(mut world) => text_of(alloc, &mut world, line),
        None => None,
    }
}

// Whether a new client's line is refused for its parameters; None where there is no answer.
fn is_line_refused(alloc: Global, line: &[u8]) -> Option<bool> {
    match told_new(alloc, line) {
        Some(text) => Some(text.as_slice() == INVALID),
        None => None,
    }
}

// Whether a new client's request with these parameters is refused for them; None where there is no answer.
fn is_refused(alloc: Global, method: &str, params: &str) -> Option<bool> {
    match request(alloc, 1, method, params) {
        Some(line) => is_line_refused(alloc, line.as_bytes()),
        None => None,
    }
}

// Adds a parameter, by its name if there is one.
fn add(out: &mut String, name: Option<&str>, value: &str) -> Option<()> {
    let comma = if out.len() > 1 { "," } else { "" };
    match name {
        Some(name) => push_all(out, &[comma, "\"", name, "\":", value]),
        None => push_all(out, &[comma, value]),
    }
}

// What stands before parameters, and after them.
fn brackets(by_name: bool) -> (&'static str, &'static str) {
    if by_name { ("{", "}") } else { ("[", "]") }
}

// The value of the parameter with that number: its own, or the one that is given in its place.
fn value_at<'x>(number: usize, own: &'x str, changed: Option<(usize, &'x str)>) -> &'x str {
    match changed {
        Some((n, other)) => { if n == number { other } else { own } }
        None => own,
    }
}

// Adds the first so many parameters.
fn add_first(
    out: &mut String,
    row: &Row,
    count: usize,
    by_name: bool,
    changed: Option<(usize, &str)>,
) -> Option<()> {
    for (i, (name, own, _)) in row.1.iter().enumerate() {
        if i < count {
            let name = if by_name { Some(*name) } else { None };
            add(out, name, value_at(i, *own, changed))?;
        }
    }
    Some(())
}

// The first so many parameters of a method, by place or by name, of which the one with that number has this
// value.
fn given(
    alloc: Global,
    row: &Row,
    count: usize,
    by_name: bool,
    changed: Option<(usize, &str)>,
) -> Option<String> {
    let (front, back) = brackets(by_name);
    let mut out = joined(alloc, &[front])?;
    add_first(&mut out, row, count, by_name, changed)?;
    push_all(&mut out, &[back])?;
    Some(out)
}

// Whether these parameters are refused, or aren't, as is wanted.
fn is_as_wanted(alloc: Global, row: &Row, params: Option<String>, refused: bool) -> bool {
    match params {
        Some(params) => is_refused(alloc, row.0, params.as_str()) == Some(refused),
        None => false,
    }
}

// Whether so many are refused exactly where one is missing.
fn count_is_kept(alloc: Global, row: &Row, by_name: bool) -> bool {
    let mut kept = true;
    for count in 0..=row.1.len() {
        let params = given(alloc, row, count, by_name, None);
        kept = is_as_wanted(alloc, row, params, count < row.2) && kept;
    }
    kept
}

#[test]
fn too_few_parameters(rt: HostRuntime) -> Result<(), Fail> {
    for row in METHODS.iter() {
        assert!(rt; count_is_kept(rt.alloc(), row, false), "{}", row.0);
        assert!(rt; count_is_kept(rt.alloc(), row, true), "{}", row.0);
    }
    Ok(())
}

// All parameters of a method and one more, by place or by a name that is unknown.
fn one_more(alloc: Global, row: &Row, by_name: bool) -> Option<String> {
    let (front, back) = brackets(by_name);
    let name = if by_name { Some("heigth") } else { None };
    let mut out = joined(alloc, &[front])?;
    add_first(&mut out, row, row.1.len(), by_name, None)?;
    add(&mut out, name, "null")?;
    push_all(&mut out, &[back])?;
    Some(out)
}

// Whether one more is refused.
fn refuses_more(alloc: Global, row: &Row, by_name: bool) -> bool {
    is_as_wanted(alloc, row, one_more(alloc, row, by_name), true)
}

#[test]
fn too_many_parameters_and_unknown_names(rt: HostRuntime) -> Result<(), Fail> {
    for row in METHODS.iter() {
        assert!(rt; refuses_more(rt.alloc(), row, false), "{}", row.0);
        assert!(rt; refuses_more(rt.alloc(), row, true), "{}", row.0);
    }
    Ok(())
}

fn is_among(kind: Kind, kinds: &[Kind]) -> bool {
    let mut found = false;
    for other in kinds {
        found = found || *other == kind;
    }
    found
}

// Whether the parameter with that number is refused exactly where it isn't of its kind.
fn kind_is_kept(alloc: Global, row: &Row, number: usize, kind: Kind, by_name: bool) -> bool {
    let mut kept = true;
    for (value, kinds) in VALUES.iter() {
        let params = given(alloc, row, row.1.len(), by_name, Some((number, *value)));
        kept = is_as_wanted(alloc, row, params, !is_among(kind, *kinds)) && kept;
    }
    kept
}

// Whether that holds of each parameter of the method.
fn kinds_are_kept(alloc: Global, row: &Row, by_name: bool) -> bool {
    let mut kept = true;
    for (number, (_, _, kind)) in row.1.iter().enumerate() {
        kept = kind_is_kept(alloc, row, number, *kind, by_name) && kept;
    }
    kept
}

#[test]
fn parameters_of_other_kinds(rt: HostRuntime) -> Result<(), Fail> {
    for row in METHODS.iter() {
        assert!(rt; kinds_are_kept(rt.alloc(), row, false), "{}", row.0);
        assert!(rt; kinds_are_kept(rt.alloc(), row, true), "{}", row.0);
    }
    Ok(())
}
