ghost use Rattle.std.specs.Prelude.{◌≡◌};
ghost use Rattle.std.specs.Str.{str_eq_ignore_ascii_case};
ghost use Rattle.wire_read.specs.lines.Operation.{operation};

/// The operations that a client may name.
#[derive(Clone, Copy)]
pub enum Operation {
    Connect,
    Pub,
    Hpub,
    Sub,
    Unsub,
    Ping,
    Pong,
}

fn is_name(field: &[u8], name: &[u8]) -> bool
    ensures { result ≡ str_eq_ignore_ascii_case field.now name.now }
{
    field.eq_ignore_ascii_case(name)
}

/// The operation that a field names, in any case of letters.
#[tactic(auto, unfolding(crate::specs::lines::Operation::operation))]
pub fn find_operation(field: &[u8]) -> Option<Operation>
    ensures { result ≡ operation field.now }
{
    if is_name(field, b"CONNECT") {
        Some(Operation::Connect)
    } else if is_name(field, b"PUB") {
        Some(Operation::Pub)
    } else if is_name(field, b"HPUB") {
        Some(Operation::Hpub)
    } else if is_name(field, b"SUB") {
        Some(Operation::Sub)
    } else if is_name(field, b"UNSUB") {
        Some(Operation::Unsub)
    } else if is_name(field, b"PING") {
        Some(Operation::Ping)
    } else if is_name(field, b"PONG") {
        Some(Operation::Pong)
    } else {
        None
    }
}
