//! What is printed behind the fault of a script: what is wrong with its line, and what would be right.
use script_program::advice::wrong_with;
use sock_pair::script::parse;
use std::alloc::Global;
use std::process::Abort;
use std::test::Fail;

// What is printed in the second line for a text that is no script.
fn advises(rt: &(impl Abort), alloc: Global, text: &str, want: &str) -> Result<(), Fail> {
    let Err(error) = parse(alloc, text.as_bytes()) else {
        return Err(Fail::new("it is a script"));
    };
    let Some(advice) = wrong_with(&error, text.as_bytes()) else {
        return Err(Fail::new("there is no advice"));
    };
    let got = advice.to_string(alloc)?;
    assert!(rt; got.as_str() == want, "{text}");
    Ok(())
}

const RETURN: &str = "the line ends in a carriage return; right is a line feed alone";

const TEXTS: &[(&str, &str)] = &[
    (
        "# a\n\n",
        "right is a first line: pair ARX ATX BRX BTX LIMIT",
    ),
    ("pair 1 1 1 1 -\r\nlisten b\r\n", RETURN),
    (
        "pair 1 2 3 04x -",
        "word 5 is \"04x\"; right is: 1 to 10 digits that write at most 1048576",
    ),
    (
        "pair 1 1 1 1 none",
        "word 6 is \"none\"; right is: -, or 1 to 10 digits that write at most 536870911",
    ),
    ("pair 1 1 1 1", "right is: pair ARX ATX BRX BTX LIMIT"),
    ("pair 1 1 1 1 -\nlisten b\r\n", RETURN),
    ("pair 1 1 1 1 -\n\r\n", RETURN),
    ("pair 1 1 1 1 -\nnagle a on \r\n", RETURN),
    (
        "pair 1 1 1 1 -\n\npair 1 1 1 1 -",
        "a second pair line; a script has one, before its events",
    ),
    (
        "pair 1 1 1 1 -\nj\"p a",
        "word 1 is \"j\\\"p\"; right is one of: listen connect send recv close abort nagle rules dispatch fail gone deliver",
    ),
    ("pair 1 1 1 1 -\nclose", "right is: close S"),
    (
        "pair 1 1 1 1 -\nsend c x",
        "word 2 is \"c\"; right is: a or b",
    ),
    (
        "pair 1 1 1 1 -\nsend a x\ty",
        "word 3 is \"x\\x09y\"; right is: printable ASCII characters",
    ),
    (
        "pair 1 1 1 1 -\nnagle b yes",
        "word 3 is \"yes\"; right is: on or off",
    ),
    (
        "pair 1 1 1 1 -\n  deliver 0 1000000001 0",
        "word 3 is \"1000000001\"; right is: 1 to 10 digits that write at most 1000000000",
    ),
];

#[test]
fn advice_is_printed(rt: HostRuntime) -> Result<(), Fail> {
    for (text, want) in TEXTS {
        advises(&rt, rt.alloc(), text, want)?;
    }
    Ok(())
}
