use std::test::Fail;
use subjects::Pattern;

/// Returns what the second pattern has and the first hasn't, or `none`.
fn missing(rt: &HostRuntime, first: &[u8], second: &[u8]) -> Result<String, Fail> {
    let first = Pattern::parse(rt.alloc(), first)?;
    let second = Pattern::parse(rt.alloc(), second)?;
    match first.outside(rt.alloc(), &second)? {
        None => Ok(String::from_str(rt.alloc(), "none")?),
        Some(text) => Ok(String::from_utf8(text)?),
    }
}

/// Returns a text of some tokens, all but the last `token`.
fn text_of(rt: &HostRuntime, token: u8, last: u8, count: usize) -> Result<Vec<u8>, Fail> {
    let mut text = Vec::new(rt.alloc());
    for _ in 1..count {
        text.push(token)?;
        text.push(b'.')?;
    }
    text.push(last)?;
    Ok(text)
}

#[test]
fn a_missing_subject_is_shown(rt: HostRuntime) -> Result<(), Fail> {
    for (first, second, want) in [
        ("*", ">", "a.a"),
        ("*.>", ">", "a"),
        ("a.>", "*.x", "b.x"),
        ("x.*", "x.>", "x.a.a"),
        (">", "a.*", "none"),
    ] {
        assert_eq!(rt;
            missing(&rt, first.as_bytes(), second.as_bytes())?.as_str(),
            want,
            "{first} {second}"
        );
    }
    Ok(())
}

#[test]
fn the_longest_missing_subject_has_513_tokens(rt: HostRuntime) -> Result<(), Fail> {
    let stars = text_of(&rt, b'*', b'*', 512)?;
    let tail = text_of(&rt, b'*', b'>', 512)?;
    let shown = missing(&rt, stars.as_slice(), tail.as_slice())?;
    let want = text_of(&rt, b'a', b'a', 513)?;
    assert_eq!(rt; shown.as_bytes(), want.as_slice());
    Ok(())
}
