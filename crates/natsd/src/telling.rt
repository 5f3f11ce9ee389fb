// What is told on standard error while clients are served (docs/OPERATING.md, "What the server tells").
ghost use Rattle.std.specs.Prelude.{◌≡◌};
ghost use Rattle.natsd.specs.Telling.{level_of};

use command_line::LogChoice;
use server::policy_source::Watcher;
use server_log::{LogLevel, ServerLog, What};
use std::sync::Wait;
use std::time::Clock;

/// Returns how much is told, as the command line chooses.
pub fn level_of(choice: LogChoice) -> LogLevel
    ensures { result ≡ level_of choice }
{
    match choice {
        LogChoice::None => LogLevel::None,
        LogChoice::Denials => LogLevel::Denials,
        LogChoice::All => LogLevel::All,
    }
}

/// Tells of the policy's file.
#[derive(Drop)]
pub struct FileWatcher<'a, R> {
    pub rt: &'a R,
    pub log: &'a ServerLog<'a>,
}

impl<R: Wait + Clock> Watcher for FileWatcher<'_, R> {
    fn tell_unreadable(&mut self, why: &[u8]) {
        self.log
            .tell_or_print(self.rt, What::PolicyUnreadable(why), why);
    }

    fn tell_readable(&mut self) {
        self.log.tell(self.rt, What::PolicyReadable);
    }
}
