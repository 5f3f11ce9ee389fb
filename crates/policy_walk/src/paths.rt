//! Where in a policy's text a value stands.
ghost use Rattle.std.specs.Prelude.{◌≡◌, OnOk, ◌++◌, encode_utf8, string_bytes};
ghost use Rattle.policy_walk.specs.Path.{printed_key};

use itoa::Buffer;
use std::alloc::{AllocError, Global};
use std::marker::Model;

/// Where in a policy's text a value stands: a `/` before each key and index, from the outermost on, and in a
/// key `~0` for `~` and `~1` for `/`. A clause sees its bytes.
#[derive(Debug, Drop)]
pub struct Path {
    text: String,
}

impl Model for Path {
    ghost use Rattle.std.specs.Prelude.{List, ℕ, string_bytes};

    ghost Value = { List ℕ };

    ghost view = { λ path. string_bytes path.text };
}

impl Path {
    ghost use Rattle.std.specs.Prelude.{◌≡◌, [], IfOk};
    ghost use Rattle.policy_walk.specs.Path.{at_key, at_index};

    /// The path of the whole, which is empty.
    pub fn whole(alloc: Global) -> Path
        ensures { result ≡ [] }
    {
        Path {
            text: String::new(alloc),
        }
    }

    /// The path's text.
    pub fn as_str(&self) -> &str
        ensures { result.now ≡ self.now }
    {
        self.text.as_str()
    }

    /// The same path.
    pub fn copy(&self, alloc: Global) -> Result<Path, AllocError>
        ensures { IfOk result (λ copy. copy ≡ self.now) }
    {
        let mut text = String::new(alloc);
        text.push_str(self.text.as_str())?;
        Ok(Path { text })
    }

    /// The path of the value that an object has under a key.
    pub fn key(&self, alloc: Global, key: &str) -> Result<Path, AllocError>
        ensures { IfOk result (λ below. below ≡ at_key self.now key.now) }
    {
        let mut below = self.copy(alloc)?;
        below.text.push_str("/")?;
        put_key(&mut below.text, key)?;
        Ok(below)
    }

    /// The path of the value that a list has at an index.
    pub fn index(&self, alloc: Global, index: usize) -> Result<Path, AllocError>
        ensures { IfOk result (λ below. below ≡ at_index self.now index) }
    {
        let mut digits = Buffer::new();
        let mut below = self.copy(alloc)?;
        below.text.push_str("/")?;
        below.text.push_str(digits.format(index))?;
        Ok(below)
    }
}

/// Appends a key as it is printed in a path.
fn put_key(out: &mut String, key: &str) -> Result<(), AllocError>
    ensures { OnOk result (string_bytes out.new ≡ string_bytes out.old ++ printed_key key.now) }
{
    for letter in key.chars() {
        put_char(out, letter)?;
    }
    Ok(())
}

/// Appends a character of a key as it is printed in a path.
fn put_char(out: &mut String, letter: char) -> Result<(), AllocError>
    ensures { OnOk result (string_bytes out.new ≡ string_bytes out.old ++ printed_key (encode_utf8 letter)) }
{
    match letter {
        '~' => out.push_str("~0"),
        '/' => out.push_str("~1"),
        other => out.push(other),
    }
}
