use policy_doc::permission_doc::Terms;
use reply_grants::Grants;
use std::hash::RandomState;
use std::test::Fail;
use subjects::Subject;

fn subject(rt: &HostRuntime, text: &str) -> Result<Subject, Fail> {
    let subject = Subject::parse(rt.alloc(), text.as_bytes())?;
    Ok(subject)
}

#[test]
fn two_responses_pass_for_one_second(rt: HostRuntime) -> Result<(), Fail> {
    let terms = Some(Terms {
        max: Some(2),
        expires: Some(1_000),
    });
    let inbox = subject(&rt, "r.1")?;
    let reply = inbox.lend();
    let mut all = Grants::with_room(rt.alloc(), RandomState::new(&rt)?)?;
    assert!(rt; !all.live(&reply, 5_000, terms));
    all.note(subject(&rt, "r.1")?, 5_000);
    assert!(rt; all.live(&reply, 4_000, terms));
    assert!(rt; all.live(&reply, 6_000, terms));
    assert!(rt; !all.live(&reply, 6_001, terms));
    assert!(rt; !all.live(&reply, 6_000, None));
    all.spend(&reply);
    assert!(rt; all.live(&reply, 6_000, terms));
    all.spend(&reply);
    assert!(rt; !all.live(&reply, 6_000, terms));
    all.note(subject(&rt, "r.1")?, 7_000);
    assert!(rt; all.live(&reply, 8_000, terms));
    all.prune(8_001, terms);
    assert!(rt; !all.live(&reply, 8_000, terms));
    Ok(())
}
