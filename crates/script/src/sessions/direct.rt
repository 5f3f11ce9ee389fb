ghost use Rattle.std.specs.Prelude.{◌≡◌};
ghost use Rattle.hub.specs.History.{IsStep};

use events::{Answer, Event, HubRefusal, Port, PublishRefusal};
use hub::Hub;

/// A hub that is this thread's alone: each event is one step of it.
#[derive(Drop)]
pub struct Direct<'a> {
    hub: &'a mut Hub,
}

impl<'a> Direct<'a> {
    /// A port to a hub.
    pub fn new(hub: &'a mut Hub) -> Direct<'a>
        ensures same { result.hub.ghost_name ≡ hub.entry.ghost_name }
        ensures hub { result.hub.now ≡ hub.old }
    {
        Direct { hub }
    }
}

impl Port for Direct<'_> {
    ghost place = { λ port. port.hub.ghost_name };

    ghost steps = { λ old event result new. IsStep old.hub.now event result new.hub.now };

    ghost posts = { λ old event result new. IsStep old.hub.now event result new.hub.now };

    #[inline(always)]
    fn submit(&mut self, event: Event) -> Result<Answer, (Event, HubRefusal)> {
        self.hub.step(event)
    }

    #[inline(always)]
    fn offer(&mut self, event: Event) -> Result<Answer, (Event, PublishRefusal)> {
        match self.submit(event) {
            Ok(answer) => Ok(answer),
            Err((event, refusal)) => Err((event, PublishRefusal::By(refusal))),
        }
    }
}
