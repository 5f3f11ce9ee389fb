// One event to a port.
ghost use Rattle.std.specs.Prelude.{◌≡◌, MatchOption};
ghost use Rattle.session_conn.specs.Turns.{IsAnswered, outcome_of};

use events::{Answer, Event, HubRefusal, Port, PublishRefusal};

/// Submits an event, once, and gives the answer, or why it is refused.
#[inline(always)]
pub fn submit<P: Port>(port: &mut P, event: Event) -> Result<Answer, HubRefusal>
    ensures place { P.place port.new ≡ P.place port.old }
    ensures answer { IsAnswered P.steps port.old event (outcome_of result) port.new }
{
    match port.submit(event) {
        Ok(answer) => Ok(answer),
        Err((event, refusal)) => {
            drop(event);
            Err(refusal)
        }
    }
}

/// Offers a message's event, and gives the answer, or why it is refused; nothing where it is held back.
#[inline(always)]
pub fn offer<P: Port>(port: &mut P, event: Event) -> Option<Result<Answer, HubRefusal>>
    ensures place { P.place port.new ≡ P.place port.old }
    ensures offered { MatchOption result (P.holds port.old port.new) (λ answer. IsAnswered P.posts port.old event (outcome_of answer) port.new) }
{
    match port.offer(event) {
        Ok(answer) => Some(Ok(answer)),
        Err((event, refusal)) => {
            drop(event);
            match refusal {
                PublishRefusal::By(refusal) => Some(Err(refusal)),
                PublishRefusal::Held => None,
            }
        }
    }
}
