ghost use Rattle.std.specs.Prelude.{◌≡◌, ◌<◌, ◌++◌, [], length, take, IfOk, OnOk, OnErr};
ghost use Rattle.std.specs.Option.{unwrap_or};

use base::SharedBytes;
use std::alloc::{AllocError, Global};
use std::marker::Model;
use std::mem;

/// Bytes that grow at their end until they are shared. A clause sees them all, in order.
#[derive(Debug)]
pub struct Buffer {
    /// What was shared when memory ran out afterwards. Elsewhere there is nothing.
    shared: Option<SharedBytes>,
    /// The bytes behind.
    grown: Vec<u8>,
    alloc: Global,
}

impl Drop for Buffer {
    fn drop(self) {
        let Self {
            shared: _,
            grown: _,
            alloc: _,
        } = self;
    }
}

impl Model for Buffer {
    ghost use Rattle.std.specs.Prelude.{List, ℕ, ◌++◌, []};
    ghost use Rattle.std.specs.Option.{unwrap_or};

    ghost Value = { List ℕ };

    ghost view = { λ b. unwrap_or b.shared [] ++ b.grown.items };
}

impl Buffer {
    /// A buffer without a byte. It takes no memory.
    pub fn new(alloc: Global) -> Buffer
        ensures { result ≡ [] }
    {
        Buffer {
            shared: None,
            grown: Vec::new(alloc),
            alloc,
        }
    }

    /// A buffer of a copy of these bytes, with room for `room` in all.
    pub fn of(alloc: Global, bytes: &[u8], room: usize) -> Result<Buffer, AllocError>
        ensures { IfOk result (λ b. b ≡ bytes.now) }
    {
        let mut grown = Vec::with_capacity(alloc, room)?;
        grown.extend_from_slice(bytes)?;
        Ok(Buffer {
            shared: None,
            grown,
            alloc,
        })
    }

    /// How many bytes there are.
    pub fn len(&self) -> usize
        ensures value { result ≡ length self.now }
        ensures bound { result < usize.MAX }
    {
        bytes_of(&self.shared).len() + self.grown.len()
    }

    /// Appends a piece, or leaves the buffer as it is.
    pub fn append(&mut self, piece: &[u8]) -> Result<(), AllocError>
        ensures ok { OnOk result (self.new ≡ self.old ++ piece.now) }
        ensures err { OnErr result (self.new ≡ self.old) }
    {
        self.grown.extend_from_slice(piece)
    }

    /// The bytes with these behind them, of which only the latter are copied. The buffer stays as it is.
    pub fn share(&mut self, more: &[u8]) -> Result<SharedBytes, AllocError>
        ensures same { self.new ≡ self.old }
        ensures ok { IfOk result (λ b. b ≡ self.old ++ more.now) }
    {
        let shared = bytes_of(&self.shared);
        if !shared.is_empty() {
            return join(self.alloc, shared, self.grown.as_slice(), more);
        }
        let len = self.grown.len();
        self.grown.extend_from_slice(more)?;
        let grown = mem::replace(&mut self.grown, Vec::new(self.alloc));
        match SharedBytes::from_vec(self.alloc, grown) {
            Ok(whole) => self.keep_front(whole, len),
            Err(refused) => {
                self.grown = refused.value;
                self.grown.truncate(len);
                Err(AllocError)
            }
        }
    }

    /// Keeps the first bytes of what was just shared, where nothing else is kept.
    fn keep_front(&mut self, mut whole: SharedBytes, len: usize) -> Result<SharedBytes, AllocError>
        requires { self.old ≡ [] }
        ensures kept { self.new ≡ take len whole }
        ensures ok { IfOk result (λ b. b ≡ whole) }
    {
        match whole.again() {
            Ok(mut front) => {
                front.truncate(len);
                self.shared = Some(front);
                Ok(whole)
            }
            Err(refused) => {
                whole.truncate(len);
                self.shared = Some(whole);
                Err(refused)
            }
        }
    }
}

/// The bytes that are shared, if any are.
fn bytes_of(shared: &Option<SharedBytes>) -> &[u8]
    ensures { result.now ≡ unwrap_or shared.now [] }
{
    match shared {
        None => &[],
        Some(bytes) => bytes.as_slice(),
    }
}

/// The bytes of all three, in order.
fn join(alloc: Global, first: &[u8], second: &[u8], third: &[u8]) -> Result<SharedBytes, AllocError>
    ensures { IfOk result (λ b. b ≡ first.now ++ second.now ++ third.now) }
{
    let mut whole = Vec::new(alloc);
    whole.extend_from_slice(first)?;
    whole.extend_from_slice(second)?;
    whole.extend_from_slice(third)?;
    Ok(SharedBytes::from_vec(alloc, whole)?)
}
