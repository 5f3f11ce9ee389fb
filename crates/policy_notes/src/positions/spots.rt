//! Where the members and items of a JSON text stand.
ghost use Rattle.std.specs.Prelude.{◌≡◌, IfOk, OnOk, None, Some};
ghost use Rattle.json.specs.Reads.{token_of};
ghost use Rattle.policy_notes.specs.positions.Spots.{passed, with_begin, with_level, AreSpots, Ends, Passes, PassesNext};

use crate::positions::starts::starts_of;
use base::NoMemory;
use json::{Reader, Scratch, Token};
use policy_walk::Path;
use std::alloc::Global;

/// A member of an object, or an item of a list. Places are indexes of bytes.
#[derive(Debug, Drop)]
pub struct Spot {
    /// Where the object or list begins that has it.
    pub container: usize,
    /// Its part of a path: `/`, and the key as a path prints it, or the index.
    pub name: Path,
    /// Where its key begins, or, of an item, the item.
    pub at: usize,
    /// Where its value begins.
    pub value: usize,
}

/// An object or a list that is open.
#[derive(Clone, Copy, Debug)]
pub(crate) struct Level {
    begin: usize,
    /// The index of a list's next item. An object has none.
    next: Option<usize>,
}

/// A key whose value hasn't begun.
#[derive(Debug, Drop)]
pub(crate) struct Key {
    /// Its part of a path.
    name: Path,
    at: usize,
}

/// How far a text was passed.
#[derive(Debug, Drop)]
pub(crate) struct Walk {
    outer: Vec<Level>,
    inner: Level,
    key: Option<Key>,
    spots: Vec<Spot>,
}

impl Walk {
    /// Passes the begin of a value.
    fn begin_value(&mut self, alloc: Global, at: usize) -> Result<(), NoMemory>
        ensures { OnOk result ((passed self.new.outer.items self.new.inner self.new.key self.new.spots.items) ≡ with_begin at (passed self.old.outer.items self.old.inner self.old.key self.old.spots.items)) }
    {
        let container = self.inner.begin;
        if let Some(next) = self.inner.next {
            // (no memory has so many items that this fails)
            self.inner.next = Some(next.checked_add(1).ok_or(NoMemory)?);
            self.spots.push(Spot {
                container,
                name: Path::whole(alloc).index(alloc, next)?,
                at,
                value: at,
            })?;
        } else if let Some(key) = self.key.take() {
            self.spots.push(Spot {
                container,
                name: key.name,
                at: key.at,
                value: at,
            })?;
        }
        Ok(())
    }

    /// Passes the begin of an object, or of a list whose first item has this index.
    fn begin_level(
        &mut self,
        alloc: Global,
        begin: usize,
        next: Option<usize>,
    ) -> Result<(), NoMemory>
        ensures { OnOk result ((passed self.new.outer.items self.new.inner self.new.key self.new.spots.items) ≡ with_level next begin (with_begin begin (passed self.old.outer.items self.old.inner self.old.key self.old.spots.items))) }
    {
        self.begin_value(alloc, begin)?;
        self.outer.push(self.inner)?;
        self.inner = Level { begin, next };
        Ok(())
    }

    /// Passes the end of an object or a list.
    fn end_level(&mut self)
        ensures { Ends (passed self.old.outer.items self.old.inner self.old.key self.old.spots.items) (passed self.new.outer.items self.new.inner self.new.key self.new.spots.items) }
    {
        if let Some(level) = self.outer.pop() {
            self.inner = level;
        }
    }

    /// Passes a token that begins there.
    fn pass(&mut self, alloc: Global, at: usize, token: Token<'_>) -> Result<(), NoMemory>
        ensures { OnOk result (Passes at (token_of token.entry) (passed self.old.outer.items self.old.inner self.old.key self.old.spots.items) (passed self.new.outer.items self.new.inner self.new.key self.new.spots.items)) }
    {
        match token {
            Token::BeginObject => self.begin_level(alloc, at, None)?,
            Token::BeginArray => self.begin_level(alloc, at, Some(0))?,
            Token::EndObject | Token::EndArray => self.end_level(),
            Token::Key(key) => {
                let name = Path::whole(alloc).key(alloc, key)?;
                self.key = Some(Key { name, at });
            }
            Token::String(_) | Token::Number(_) | Token::Bool(_) | Token::Null => {
                self.begin_value(alloc, at)?
            }
            Token::Bad => {}
        }
        Ok(())
    }
}

/// Passes the next token, if there is one, which begins there.
fn pass_next(
    alloc: Global,
    at: usize,
    reader: &mut Reader<'_>,
    walk: &mut Walk,
) -> Result<(), NoMemory>
    ensures { OnOk result (PassesNext at reader.old (passed walk.old.outer.items walk.old.inner walk.old.key walk.old.spots.items) reader.new (passed walk.new.outer.items walk.new.inner walk.new.key walk.new.spots.items)) }
{
    match reader.next() {
        None => Ok(()),
        Some(token) => walk.pass(alloc, at, token),
    }
}

/// The spots of a JSON text, by where their values begin. `NoMemory` where memory could not be had.
#[tactic(auto, unfolding(crate::specs::positions::Spots::PassesAll))]
pub fn spots_of(alloc: Global, text: &str) -> Result<Vec<Spot>, NoMemory>
    ensures { IfOk result (λ spots. AreSpots text.now spots.items) }
{
    let starts = starts_of(alloc, text.as_bytes())?;
    let mut scratch = Scratch::new(alloc);
    let mut reader = Reader::new(text, &mut scratch)?;
    let mut walk = Walk {
        outer: Vec::new(alloc),
        inner: Level {
            begin: 0,
            next: None,
        },
        key: None,
        spots: Vec::new(alloc),
    };
    for at in starts.as_slice() {
        pass_next(alloc, *at, &mut reader, &mut walk)?;
    }
    Ok(walk.spots)
}
