use crate::{Mapping, MappingError};
use std::test::Fail;
use subjects::{Pattern, Subject};

/// The other side's text, or why there is none.
fn told<E: std::fmt::Display + Drop>(
    rt: &HostRuntime,
    other: Result<Option<Subject>, E>,
) -> Result<Vec<u8>, Fail> {
    match other {
        Ok(None) => Ok(Vec::from_slice(rt.alloc(), b"none")?),
        Ok(Some(subject)) => Ok(Vec::from_slice(rt.alloc(), subject.bytes())?),
        Err(error) => Ok(Vec::from_slice(
            rt.alloc(),
            format!(in rt.alloc(); "{error}")?.as_bytes(),
        )?),
    }
}

fn forward(rt: &HostRuntime, mapping: &Mapping, text: &[u8]) -> Result<Vec<u8>, Fail> {
    let subject = Subject::parse(rt.alloc(), text)?;
    told(rt, mapping.forward(rt.alloc(), &subject.lend()))
}

fn back(rt: &HostRuntime, mapping: &Mapping, text: &[u8]) -> Result<Vec<u8>, Fail> {
    let subject = Subject::parse(rt.alloc(), text)?;
    told(rt, mapping.back(rt.alloc(), &subject.lend()))
}

#[test]
fn templates(rt: HostRuntime) -> Result<(), Fail> {
    let pattern = Pattern::parse(rt.alloc(), b"a.*.b.*.>")?;
    for (template, want) in [
        ("x.$2.$1.>", "x.2.1.c.d"),
        ("x.{{wildcard(2)}}.{{wildcard(1)}}.>", "x.2.1.c.d"),
        ("*.x.*.>", "1.x.2.c.d"),
        ("$002.$1.$.$x.>", "2.1.$.$x.c.d"),
        ("x.$1.$1.>", "the template refers to a wildcard twice"),
        (
            "x.$1.>",
            "the template doesn't refer to exactly the wildcards of the subject",
        ),
        (
            "x.$1.$3.>",
            "the template doesn't refer to exactly the wildcards of the subject",
        ),
        (
            "x.$1.$2",
            "only one of the template and the subject ends in `>`",
        ),
        ("x.*.$2.>", "the text is no template"),
        ("x.$1.$1234.>", "the text is no template"),
        ("x.$1.{{wildcard()}}.>", "the text is no template"),
    ] {
        match Mapping::with_to(rt.alloc(), &pattern, template.as_bytes()) {
            Err(error) => {
                assert_eq!(rt;
                    format!(in rt.alloc(); "{error}")?.as_str(),
                    want,
                    "{template}"
                );
            }
            Ok(mapping) => {
                let local = forward(&rt, &mapping, b"a.1.b.2.c.d")?;
                assert!(rt; local.as_slice() == want.as_bytes(), "{template}");
                let outer = back(&rt, &mapping, local.as_slice())?;
                assert!(rt; outer.as_slice() == b"a.1.b.2.c.d".as_slice(), "{template}");
                let none = forward(&rt, &mapping, b"a.1.c.2.c.d")?;
                assert!(rt; none.as_slice() == b"none".as_slice(), "{template}");
            }
        }
    }
    Ok(())
}

/// A subject of so many tokens.
fn long(rt: &HostRuntime, count: usize) -> Result<Vec<u8>, Fail> {
    let mut text = Vec::from_slice(rt.alloc(), b"s")?;
    for _token in 1..count {
        text.extend_from_slice(b".t")?;
    }
    Ok(text)
}

#[test]
fn prefixes(rt: HostRuntime) -> Result<(), Fail> {
    let all = Pattern::parse(rt.alloc(), b">")?;
    let prefix = Subject::parse(rt.alloc(), b"p")?;
    let mapping = Mapping::with_prefix(rt.alloc(), &all, &prefix)?;
    assert!(rt; mapping.local().bytes() == b"p.>".as_slice());
    assert!(rt; mapping.outer().bytes() == b">".as_slice());
    let most = long(&rt, 511)?;
    let local = forward(&rt, &mapping, most.as_slice())?;
    assert!(rt; back(&rt, &mapping, local.as_slice())?.as_slice() == most.as_slice());
    let too_long = forward(&rt, &mapping, long(&rt, 512)?.as_slice())?;
    assert!(rt; too_long.as_slice() == b"the mapped subject has more than 512 tokens".as_slice());
    let same = Mapping::identity(rt.alloc(), &all)?;
    let kept = forward(&rt, &same, long(&rt, 512)?.as_slice())?;
    assert!(rt; kept.as_slice() == long(&rt, 512)?.as_slice());
    let longest = Subject::parse(rt.alloc(), long(&rt, 512)?.as_slice())?;
    let refused = Mapping::with_prefix(rt.alloc(), &all, &longest);
    assert!(rt; matches!(refused, Err(MappingError::TooLong)));
    Ok(())
}
