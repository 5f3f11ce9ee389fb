// Why a session's grant answers no more, for who tells an operator.
ghost use Rattle.std.specs.Prelude.{◌≡◌, IfSome, None, true};
ghost use Rattle.world_sessions.specs.deliveries.Sessions.{session_of};
ghost use Rattle.world_sessions.specs.deliveries.Replying.{is_granted};

use crate::world::World;
use events::Message;
use reply_grants::GrantEnd;

impl World {
    /// Returns why the grant that a connection's session has, or had, for a message's subject allows it no more, where
    /// that is known.
    pub fn grant_end(&self, conn: u64, message: &Message) -> Option<GrantEnd>
        ensures { IfSome (session_of self.now.sessions conn)
            (λ z. is_granted self.now.moment message.now.subject z ≡ true → result ≡ None) }
    {
        match self.sessions.find(conn) {
            None => None,
            Some(session) => {
                let terms = session.user.rules.terms();
                session
                    .replies
                    .end_of(&message.subject(), self.moment, terms)
            }
        }
    }
}
