use hub::{Caps, Command, CompiledPolicy, Event, Hub, Item, Outcome};
use policy_text::reload::prepare;
use std::alloc::Global;
use std::hash::RandomState;
use std::test::Fail;
use test_samples::{connect, publish};

/// What a message met.
#[derive(Clone, Copy, Debug, PartialEq, Eq)]
enum Told {
    Nobody,
    /// The destination with this index would give it too many tokens.
    TooLong(usize),
    Other,
}

fn told_of(outcome: &Outcome) -> Told {
    let items = match outcome {
        Outcome::Published(_, met) => met.as_slice(),
        _ => return Told::Other,
    };
    match items.first() {
        None => Told::Nobody,
        Some(Item::MappedTooLong(index)) => {
            if items.len() == 1 {
                Told::TooLong(*index)
            } else {
                Told::Other
            }
        }
        Some(_) => Told::Other,
    }
}

/// A policy whose mapping gives each subject one token more. It has no clause, so that the prover knows nothing of its text.
fn longer(alloc: Global) -> Option<CompiledPolicy> {
    let text =
        "{\"version\":2,\"accounts\":{\"A\":{\"users\":[{\"user\":\"demo\",\"password\":\"demo\"}],\"mappings\":{\">\":\"p.>\"}}}}";
    prepare(alloc, text.as_bytes()).ok()
}

/// A subject of so many tokens, one at least.
fn subject(alloc: Global, tokens: usize) -> Option<String> {
    let mut text = String::from_str(alloc, "a").ok()?;
    for _ in 1..tokens {
        text.push_str(".a").ok()?;
    }
    Some(text)
}

fn step(hub: &mut Hub, what: Command) -> Told {
    match hub.step(Event { now: 0, what }) {
        Ok(answer) => told_of(&answer.get().outcome),
        Err(_) => Told::Other,
    }
}

/// What a new session is told of a message on a subject of so many tokens.
fn told_by_new(alloc: Global, keys: RandomState, tokens: usize) -> Option<Told> {
    let caps = Caps {
        outbox: 16,
        history: 2,
    };
    let mut hub = Hub::new(alloc, longer(alloc)?, caps, keys).ok()?;
    let subject = subject(alloc, tokens)?;
    step(&mut hub, connect(alloc, 1)?);
    Some(step(&mut hub, publish(alloc, 1, subject.as_str())?))
}

#[test]
fn a_mapping_makes_no_subject_of_more_than_512_tokens(rt: HostRuntime) -> Result<(), Fail> {
    let keys = RandomState::new(&rt)?;
    let longest = told_by_new(rt.alloc(), keys, 511).ok_or("memory lacked")?;
    assert_eq!(rt; longest, Told::Nobody);
    let too_long = told_by_new(rt.alloc(), keys, 512).ok_or("memory lacked")?;
    assert_eq!(rt; too_long, Told::TooLong(0));
    Ok(())
}
