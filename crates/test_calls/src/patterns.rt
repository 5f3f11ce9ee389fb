use std::hash::RandomState;
use std::test::Fail;
use subjects::{Pattern, Subject};
use sublist::{InsertError, Sublist};

#[derive(Clone, Copy, Debug)]
enum Ask {
    Insert,
    Remove,
    Contains,
}

fn inserted(tree: &mut Sublist, pattern: &Pattern, id: u64) -> &'static str {
    match tree.insert(pattern, id) {
        Ok(()) => "added",
        Err(InsertError::Present) => "present",
        Err(InsertError::NoMemory) => "no memory",
    }
}

fn removed(tree: &mut Sublist, pattern: &Pattern, id: u64) -> &'static str {
    match tree.remove(pattern, id) {
        Ok(()) => "removed",
        Err(_) => "absent",
    }
}

fn contained(tree: &Sublist, pattern: &Pattern, id: u64) -> &'static str {
    match tree.contains(pattern, id) {
        true => "stands",
        false => "absent",
    }
}

fn told_of(
    rt: &HostRuntime,
    tree: &mut Sublist,
    ask: Ask,
    text: &str,
    id: u64,
) -> Result<&'static str, Fail> {
    let pattern = Pattern::parse(rt.alloc(), text.as_bytes())?;
    match ask {
        Ask::Insert => Ok(inserted(tree, &pattern, id)),
        Ask::Remove => Ok(removed(tree, &pattern, id)),
        Ask::Contains => Ok(contained(tree, &pattern, id)),
    }
}

fn reached(rt: &HostRuntime, tree: &Sublist, text: &str) -> Result<String, Fail> {
    let found = tree.matching(&Subject::parse(rt.alloc(), text.as_bytes())?.lend())?;
    Ok(format!(in rt.alloc(); "{found:?}")?)
}

#[test]
fn a_pattern_has_subjects(rt: HostRuntime) -> Result<(), Fail> {
    let orders = Pattern::parse(rt.alloc(), b"orders.*.eu")?;
    let all = Pattern::parse(rt.alloc(), b"orders.>")?;
    assert!(rt; orders.matches(&Subject::parse(rt.alloc(), b"orders.new.eu")?.lend()));
    assert!(rt; all.covers(&orders));
    assert!(rt; !orders.covers(&all));
    Ok(())
}

#[test]
fn a_subject_finds_ids(rt: HostRuntime) -> Result<(), Fail> {
    let wildcard = Pattern::parse(rt.alloc(), b"orders.*.eu")?;
    let all = Pattern::parse(rt.alloc(), b"orders.>")?;
    let subject = Subject::parse(rt.alloc(), b"orders.new.eu")?;
    let mut tree = Sublist::new(rt.alloc(), RandomState::new(&rt)?);
    assert!(rt; tree.insert(&wildcard, 1).is_ok());
    assert!(rt; tree.insert(&all, 2).is_ok());
    let found = tree.matching(&subject.lend())?;
    assert_eq!(rt; found.as_slice(), [1, 2].as_slice());
    Ok(())
}

#[test]
fn a_pair_stands_once(rt: HostRuntime) -> Result<(), Fail> {
    let mut tree = Sublist::new(rt.alloc(), RandomState::new(&rt)?);
    for (ask, text, id, want) in [
        (Ask::Insert, "orders.*.eu", 1, "added"),
        (Ask::Insert, "orders.*.eu", 1, "present"),
        (Ask::Remove, "orders.*.eu", 2, "absent"),
        (Ask::Remove, "orders.>", 1, "absent"),
        (Ask::Insert, "orders.>", 2, "added"),
        (Ask::Contains, "orders.*.eu", 1, "stands"),
        (Ask::Remove, "orders.*.eu", 1, "removed"),
        (Ask::Remove, "orders.*.eu", 1, "absent"),
        (Ask::Contains, "orders.>", 2, "stands"),
    ] {
        assert_eq!(rt;
            told_of(&rt, &mut tree, ask, text, id)?,
            want,
            "{ask:?} {text} {id}"
        );
    }
    assert_eq!(rt; reached(&rt, &tree, "orders.new.eu")?.as_str(), "[2]");
    Ok(())
}
