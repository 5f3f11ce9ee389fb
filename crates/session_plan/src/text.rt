// Texts to the client.
ghost use Rattle.std.specs.Prelude.{◌≡◌, ◌+◌, ◌++◌, ◌≤◌, length, OnOk, OnErr, ◌<◌};
ghost use Rattle.std.specs.Vec.{vec_len, vec_capacity};
ghost use Rattle.session_plan.specs.Replies.{text_line};

use base::NoMemory;
use wire_write::{ServerError, write_err, write_ok, write_pong};

/// One text to the client, or none.
#[derive(Clone, Copy, Debug)]
pub enum Text<'a> {
    Nothing,
    Accepted,
    Pong,
    Error(ServerError<'a>),
}

/// Appends a text. Memory lacks only where there is no room for it.
pub fn write_text(out: &mut Vec<u8>, text: Text<'_>) -> Result<(), NoMemory>
    ensures ok { OnOk result (out.new.items ≡ out.old.items ++ text_line text.entry) }
    ensures err { OnErr result (out.new.items ≡ out.old.items) }
    ensures full { OnErr result (vec_capacity out.old < vec_len out.old + length (text_line text.entry)) }
{
    match text {
        Text::Nothing => Ok(()),
        Text::Accepted => write_ok(out),
        Text::Pong => write_pong(out),
        Text::Error(error) => write_err(out, error),
    }
}

/// Appends a text for which there is room.
pub fn put_text(out: &mut Vec<u8>, text: Text<'_>)
    requires { vec_len out.old + length (text_line text) ≤ vec_capacity out.old }
    ensures { out.new.items ≡ out.old.items ++ text_line text.entry }
{
    let _had_room = write_text(out, text).is_ok();
}
