use base::Copying;
use permissions::{By, Compiled, Verdict};
use policy_doc::{Policy, UserDoc};
use std::alloc::Global;
use std::test::Fail;
use subjects::Subject;

/// User limited of the built-in policy, who publishes below foo, but not on foo.bar. It has no clause, so that the prover knows
/// nothing of the policy's text.
fn limited(alloc: Global) -> Option<UserDoc> {
    let policy = Policy::builtin(alloc).ok()?;
    let account = policy.doc().accounts.as_slice().first()?;
    let user = account.account.users.as_slice().get(1)?;
    user.copy(alloc).ok()
}

#[test]
fn lists_give_verdicts(rt: HostRuntime) -> Result<(), Fail> {
    let user = limited(rt.alloc()).ok_or("memory lacked")?;
    let foo = Subject::parse(rt.alloc(), b"foo.baz")?;
    let secret = Subject::parse(rt.alloc(), b"foo.bar")?;
    let bar = Subject::parse(rt.alloc(), b"bar")?;
    let rules = Compiled::of(rt.alloc(), &user, None)?;
    assert_eq!(rt; rules.publish(&foo.lend()), Verdict::Allowed(By::Index(0)));
    assert_eq!(rt; rules.publish(&secret.lend()), Verdict::DeniedBy(0));
    assert_eq!(rt; rules.publish(&bar.lend()), Verdict::NoAllow);
    Ok(())
}
