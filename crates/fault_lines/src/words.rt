//! What is wanted in the place of a fault, in words.
ghost use Rattle.std.specs.Prelude.{◌≡◌};
ghost use Rattle.fault_lines.specs.Words.{words_of};

use policy_faults::Wanted;

pub(crate) fn words_of(wanted: Wanted) -> &'static str
    ensures { result.now ≡ words_of wanted }
{
    match wanted {
        Wanted::KnownKey => "a known key",
        Wanted::Key => "a value",
        Wanted::Object => "an object",
        Wanted::List => "a list",
        Wanted::Version => "1 or 2",
        Wanted::AccountName => "1 to 256 bytes, none a control byte, space or DEL",
        Wanted::UserName => "1 to 256 bytes",
        Wanted::Password => "a password in clear",
        Wanted::Direction => "entries, or an object with allow and deny",
        Wanted::Spelling => "one spelling of the direction",
        Wanted::Entries => "an entry, or a list of entries",
        Wanted::PublishEntry => "a pattern",
        Wanted::SubscribeEntry => "a pattern, or a pattern and one for queues",
        Wanted::Responses => "true, false or an object",
        Wanted::Max => "a whole number from 1 to 2147483647, or -1",
        Wanted::Duration => "a duration such as \"2m\"",
        Wanted::Kind => "one of stream and service",
        Wanted::Pattern => "a pattern",
        Wanted::Subject => "a subject without wildcards",
        Wanted::Text => "a text",
        Wanted::ResponseType => "\"single\" or \"stream\"",
        Wanted::Destinations => "a template, an object, or a list of objects",
        Wanted::Template => "a template for the subjects of its source",
        Wanted::Weight => "a weight from 1 to 100, or such as \"10%\"",
        Wanted::Sum => "weights of 100 at most",
    }
}
