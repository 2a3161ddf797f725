// What no contract says: lines from outside, printed texts, and that each call succeeds where memory is
// ample.
ghost use Rattle.std.specs.Prelude.{◌<◌, ◌^◌};
ghost use Rattle.el_json.specs.Lines.{IsPrintable, HasPrintableId, IsPrintableId};

use el_base::Text;
use el_json::{
    Answer, Answers, Elements, Envelope, Item, LineFault, Members, Param, Params, Request,
    print_answer, read_line,
};
use std::alloc::Global;
use std::test::Fail;

// Adds the id, the method, `[` or `{` for parameters by place or by name, and what is given for the first
// parameter, of name `a`.
fn add_request(alloc: Global, out: &mut Vec<u8>, request: &Request) -> Result<(), Fail>
    requires { IsPrintableId request.now.id }
{
    match &request.id {
        Some(id) => out.extend_from_slice(&id.compact(alloc)?)?,
        None => out.push(b'-')?,
    }
    out.push(b' ')?;
    out.extend_from_slice(request.method.as_str().as_bytes())?;
    out.extend_from_slice(match &request.params {
        Params::Places(_) => b" [",
        Params::Names(_) => b" {",
    })?;
    if let Some(n) = request
        .params
        .given(0, "a")
        .and_then(|param| param.number())
    {
        out.extend_from_slice(n.to_string(alloc)?.as_bytes())?;
    }
    Ok(())
}

// Adds a request, or `!` and the id that the error repeats.
fn add_item(alloc: Global, out: &mut Vec<u8>, item: &Item) -> Result<(), Fail>
    requires { HasPrintableId item.now }
{
    match item {
        Item::Good(request) => add_request(alloc, out, request),
        Item::Invalid(id) => {
            out.push(b'!')?;
            out.extend_from_slice(&id.compact(alloc)?)?;
            Ok(())
        }
    }
}

// Adds the elements of a batch, each ended by a semicolon, of which there are at most four.
fn add_batch(alloc: Global, out: &mut Vec<u8>, mut elements: Elements) -> Result<(), Fail> {
    for _ in 0..5 {
        if let Some(item) = elements.next(alloc) {
            add_item(alloc, out, &item)?;
            out.push(b';')?;
        }
    }
    Ok(())
}

// Adds what is read of a line.
fn add_line(alloc: Global, out: &mut Vec<u8>, line: &[u8]) -> Result<(), Fail> {
    match read_line(alloc, line) {
        Ok(Envelope::One(request)) => add_request(alloc, out, &request),
        Ok(Envelope::Batch(elements)) => add_batch(alloc, out, elements),
        Err(LineFault::Invalid(id)) => add_item(alloc, out, &Item::Invalid(id)),
        Err(fault) => Ok(out.extend_from_slice(format!(in alloc; "{fault}")?.as_bytes())?),
    }
}

// Whether this is read of a line, in short.
fn says(alloc: Global, line: &[u8], short: &str) -> Result<bool, Fail> {
    let mut out = Vec::new(alloc);
    add_line(alloc, &mut out, line)?;
    Ok(out.as_slice() == short.as_bytes())
}

// Lines, and what they say by JSON-RPC 2.0, sections 4 to 6, and RFC 8259.
const LINES: &[(&[u8], &str)] = &[
    (b"{\"id\":1,\"method\":\"m\"}", "1 m ["),
    (b"{\"id\":1,\"method\":\"m\",\"params\":null}", "1 m ["),
    (b"{\"id\":1,\"method\":\"m\",\"params\":[7,8]}", "1 m [7"),
    (
        b"{\"id\":1,\"method\":\"m\",\"params\":{\"b\":8,\"a\":7}}",
        "1 m {7",
    ),
    (
        b" {\"jsonrpc\":\"1.0\" , \"method\":\"\",\"id\":\"x\",\"more\":[]}\t\r",
        "\"x\"  [",
    ),
    (b"{\"method\":\"m\"}", "- m ["),
    (b"{\"id\":null,\"method\":\"m\"}", "null m ["),
    (
        b"{\"id\":-9223372036854775808,\"method\":\"m\"}",
        "-9223372036854775808 m [",
    ),
    (
        b"{\"id\":18446744073709551615,\"method\":\"m\"}",
        "18446744073709551615 m [",
    ),
    (
        b"{\"id\":\"\\ud83d\\ude00\\u0041\\/\\n\\\"\",\"m\\u0065thod\":\"\xc3\xa9\"}",
        "\"\u{1f600}A/\\n\\\"\" \u{e9} [",
    ),
    (b"{\"id\":1,\"id\":2,\"method\":\"m\"}", "2 m ["),
    (b"{\"id\":1,\"method\":\"m\",\"id\":{}}", "!null"),
    (
        b"{\"id\":1,\"method\":\"m\",\"method\":\"n\",\"params\":[1],\"params\":{\"a\":2}}",
        "1 n {2",
    ),
    (b"{\"id\":18446744073709551616,\"method\":\"m\"}", "!null"),
    (b"{\"id\":-9223372036854775809,\"method\":\"m\"}", "!null"),
    (b"{\"id\":1.0,\"method\":\"m\"}", "!null"),
    (b"{\"id\":1e3,\"method\":\"m\"}", "!null"),
    (b"{\"id\":-0,\"method\":\"m\"}", "!null"),
    (b"{\"id\":true,\"method\":\"m\"}", "!null"),
    (b"{\"id\":[1],\"method\":\"m\"}", "!null"),
    (b"{\"id\":1}", "!1"),
    (b"{\"id\":\"x\",\"method\":5}", "!\"x\""),
    (b"{\"id\":1,\"method\":\"m\",\"params\":\"a\"}", "!1"),
    (b"{\"id\":1,\"method\":\"m\",\"params\":7}", "!1"),
    (b"{\"method\":5}", "!null"),
    (b"{}", "!null"),
    (b"5", "!null"),
    (b"null", "!null"),
    (b"\"m\"", "!null"),
    (b"[]", "!null"),
    (b"[[]]", "!null;"),
    (b"[[{\"id\":1,\"method\":\"m\"}],[5]]", "!null;!null;"),
    (
        b"[{\"id\":1,\"method\":\"m\"},{\"method\":\"n\"},5,{\"id\":2}]",
        "1 m [;- n [;!null;!2;",
    ),
    (b"", "no JSON"),
    (b"}", "no JSON"),
    (b"{\"id\":1,\"method\":\"m\"", "no JSON"),
    (b"{\"id\":1,\"method\":\"m\"}{}", "no JSON"),
    (b"{'id':1,'method':'m'}", "no JSON"),
    (b"{\"id\":1,\"method\":\"m\",}", "no JSON"),
    (b"{\"id\":01,\"method\":\"m\"}", "no JSON"),
    (b"{\"id\":1,\"method\":\"\xff\"}", "no JSON"),
    (
        b"{\"id\":1,\"method\":\"m\",\"more\":\"\\ud83d\"}",
        "no JSON",
    ),
    (b"{\"id\":1,\"method\":\"m\x01\"}", "no JSON"),
    (b"[1e400]", "no JSON"),
];

// Whether this is read of a line of so many brackets and the same number that close them.
fn says_of_brackets(alloc: Global, brackets: usize, short: &str) -> Result<bool, Fail>
    requires { brackets < 2 ^ 32 }
{
    let mut line = vec![in alloc; b'['; brackets]?;
    line.extend_from_slice(&vec![in alloc; b']'; brackets]?)?;
    says(alloc, line.as_slice(), short)
}

#[test]
fn lines(rt: HostRuntime) -> Result<(), Fail> {
    for (line, short) in LINES.iter() {
        assert!(rt; says(rt.alloc(), line, short)?, "of {line:?}");
    }
    assert!(rt; says_of_brackets(rt.alloc(), 127, "!null;")?);
    assert!(rt; says_of_brackets(rt.alloc(), 128, "no JSON")?);
    Ok(())
}

// The text of an answer.
fn printed(alloc: Global, answer: &Answer) -> Result<Vec<u8>, Fail>
    requires { IsPrintable answer.now }
{
    Ok(print_answer(alloc, answer)?)
}

// A list of a text with each kind of character that JSON escapes or doesn't (RFC 8259, section 7).
fn list_of_a_text(alloc: Global) -> Result<Vec<u8>, Fail> {
    let mut list = Answers::new(alloc);
    list.push(Answer::from_str(
        alloc,
        "a\"\\/\u{8}\u{c}\n\r\t\u{1}\u{1f}\u{7f}\u{e9}\u{1f600}",
    )?)?;
    list.push(Answer::text(Text::from_str(alloc, "")?))?;
    printed(alloc, &list.into_answer())
}

// Members that are put in another order than that of their names, one of them twice.
fn members(alloc: Global) -> Result<Vec<u8>, Fail> {
    let mut members = Members::new(alloc);
    members.put(alloc, "b", Answer::signed(-9_223_372_036_854_775_808))?;
    members.put(alloc, "a", Answer::null())?;
    members.put(alloc, "ab", Answer::flag(true))?;
    members.put(alloc, "a", Answer::number(18_446_744_073_709_551_615))?;
    printed(alloc, &members.into_answer())
}

#[test]
fn answers(rt: HostRuntime) -> Result<(), Fail> {
    let empty = Answers::new(rt.alloc()).into_answer();
    assert_eq!(rt; printed(rt.alloc(), &empty)?.as_slice(), b"[]\n".as_slice());
    assert_eq!(rt;
        list_of_a_text(rt.alloc())?.as_slice(),
        "[\"a\\\"\\\\/\\b\\f\\n\\r\\t\\u0001\\u001f\u{7f}\u{e9}\u{1f600}\",\"\"]\n".as_bytes()
    );
    assert_eq!(rt;
        members(rt.alloc())?.as_slice(),
        b"{\"a\":18446744073709551615,\"ab\":true,\"b\":-9223372036854775808}\n".as_slice()
    );
    Ok(())
}

// Adds the simple kinds that a parameter is of, in short.
fn add_simple_kinds(alloc: Global, out: &mut Vec<u8>, param: &Param) -> Result<(), Fail> {
    if let Some(n) = param.number() {
        out.extend_from_slice(n.to_string(alloc)?.as_bytes())?;
    }
    if let Some(is) = param.flag() {
        out.extend_from_slice(if is { b"yes" } else { b"not" })?;
    }
    if let Some(text) = param.text() {
        out.extend_from_slice(text.as_bytes())?;
    }
    Ok(())
}

// Adds the other kinds, in short: of a hash its first and its last byte in inner order.
fn add_other_kinds(out: &mut Vec<u8>, param: &Param) -> Result<(), Fail> {
    if let Some(hash) = param.hash() {
        out.extend_from_slice(&[hash.0[0], hash.0[31]])?;
    }
    if param.is_object() {
        out.push(b'{')?;
    }
    if let Some((first, second)) = param.pair() {
        let in_order = first.flag().is_some() && second.flag().is_none();
        out.push(if in_order { b',' } else { b'?' })?;
    }
    Ok(())
}

// Whether the parameter is of these kinds.
fn is_of_kinds(alloc: Global, param: &Param, short: &str) -> Result<bool, Fail> {
    let mut out = Vec::new(alloc);
    add_simple_kinds(alloc, &mut out, param)?;
    add_other_kinds(&mut out, param)?;
    Ok(out.as_slice() == short.as_bytes())
}

// 64 digits in both cases, of which the first two show the last byte in inner order; and one too few.
const DIGITS: &str = "\"41aA000000000000000000000000000000000000000000000000000000000042\"";

const READ: &str = "41aA000000000000000000000000000000000000000000000000000000000042BA";

const SHORTER: &str = "\"41aA00000000000000000000000000000000000000000000000000000000004\"";

const SHORTER_READ: &str = "41aA00000000000000000000000000000000000000000000000000000000004";

const PARAMETERS: [(&str, &str); 13] = [
    ("0", "0"),
    ("18446744073709551615", "18446744073709551615"),
    ("-1", ""),
    ("1.0", ""),
    ("false", "not"),
    ("\"0\"", "0"),
    ("{}", "{"),
    ("[1]", ""),
    ("[true,2]", ","),
    ("[1,2,3]", ""),
    ("null", ""),
    (DIGITS, READ),
    (SHORTER, SHORTER_READ),
];

// Whether the request's one parameter, `a`, is of these kinds.
fn asks_with(alloc: Global, request: &Request, short: &str) -> Result<bool, Fail> {
    let only = request.params.has_only(&["b", "a"]) && !request.params.has_only(&["b"]);
    match request.params.given(0, "a") {
        Some(param) => Ok(is_of_kinds(alloc, &param, short)? && only),
        None => Ok(false),
    }
}

// Whether the value is read as a parameter of these kinds.
fn is_parameter(alloc: Global, value: &str, short: &str) -> Result<bool, Fail> {
    let line = format!(in alloc; "{{\"id\":1,\"method\":\"m\",\"params\":{{\"a\":{value}}}}}")?;
    match read_line(alloc, line.as_bytes())? {
        Envelope::One(request) => asks_with(alloc, &request, short),
        Envelope::Batch(_) => Ok(false),
    }
}

#[test]
fn parameters(rt: HostRuntime) -> Result<(), Fail> {
    for (value, short) in PARAMETERS.iter() {
        assert!(rt; is_parameter(rt.alloc(), value, short)?, "of {value}");
    }
    Ok(())
}
