//! Elements that leave an outbox together.
ghost use Rattle.std.specs.Prelude.{◌≡◌, ◌≤◌, ◌<◌, ◌+◌, ◌^◌, ◌++◌, [], length, take, drop, flat_map, OnOk};
ghost use Rattle.std.specs.Vec.{vec_len, vec_capacity};
ghost use Rattle.stores.specs.outbox.Bounded.{listed};

use crate::outbox::several::Several;
use base::NoMemory;
use circular_buffer::HeapCircularBuffer;
use std::alloc::Global;
use std::marker::Model;
use std::mem;
use std::sync::Arc;

/// What leaves an outbox together, oldest first. It may have several owners: one more takes no memory and copies
/// nothing. A clause sees the list of it: of an element that is several it sees each.
#[derive(Debug)]
pub struct Batch<T: Several> {
    items: Arc<Vec<T>>,
    /// How many they are in all.
    count: usize,
}

impl<T: Several + Drop> Drop for Batch<T> {
    #[inline(always)]
    fn drop(self) {
        let Self { items: _, count: _ } = self;
    }
}

impl<T: Several> Model for Batch<T> {
    ghost use Rattle.std.specs.Prelude.{◌≡◌, List, flat_map, length};
    ghost use Rattle.std.specs.Arc.{arc_value};

    ghost Value = { List T.Item };

    ghost view = { λ b. flat_map T.each (arc_value b.items).items };

    ghost invariant = { λ b. b.count ≡ length (flat_map T.each (arc_value b.items).items) };
}

impl<T: Several> Batch<T> {
    ghost use Rattle.std.specs.Prelude.{◌≡◌, length, flat_map, IfOk};

    /// Returns the elements in order.
    pub fn as_slice(&self) -> &[T]
        ensures { flat_map T.each result.now ≡ self.now }
    {
        self.items.as_slice()
    }

    /// Returns how many there are: of an element that is several it counts each.
    pub fn len(&self) -> usize
        ensures { result ≡ length self.now }
    {
        self.count
    }

    /// Returns one more owner. `NoMemory` where there are too many to count.
    pub fn again(&self) -> Result<Batch<T>, NoMemory>
        ensures { IfOk result (λ same. same ≡ self.now) }
    {
        Ok(Batch {
            items: Arc::try_clone(&self.items)?,
            count: self.count,
        })
    }
}

impl<T: Several + Drop> Batch<T> {
    ghost use Rattle.std.specs.Prelude.{◌≡◌, ◌≤◌, ◌++◌, [], length, take, drop, flat_map, IfOk, OnOk, OnErr};
    ghost use Rattle.stores.specs.outbox.Bounded.{listed};

    /// Returns a batch with nothing. `NoMemory` where memory could not be had.
    pub fn empty(alloc: Global) -> Result<Batch<T>, NoMemory>
        ensures { IfOk result (λ batch. batch ≡ []) }
    {
        Ok(Batch {
            items: Arc::new(alloc, Vec::new(alloc))?,
            count: 0,
        })
    }

    /// Returns the elements of a vector, which are so many in all. It is handed over and not copied. `NoMemory` where
    /// memory could not be had.
    pub(crate) fn from_vec(alloc: Global, items: Vec<T>, count: usize) -> Result<Batch<T>, NoMemory>
        requires { count ≡ length (flat_map T.each items.items) }
        ensures { IfOk result (λ batch. batch ≡ flat_map T.each items.items) }
    {
        Ok(Batch {
            items: Arc::new(alloc, items)?,
            count,
        })
    }

    /// Returns the first so many elements of a ring, moved out of it, and another behind them, if there is one: these
    /// are so many in all. Where memory could not be had they stay there.
    pub(crate) fn from_front(
        ring: &mut HeapCircularBuffer<T>,
        count: usize,
        last: Option<T>,
        all: usize,
    ) -> Result<Batch<T>, NoMemory>
        requires within { count ≤ length ring.old.items }
        requires all { all ≡ length (flat_map T.each (take count ring.old.items ++ listed last)) }
        ensures taken { IfOk result (λ batch. batch ≡ flat_map T.each (take count ring.old.items ++ listed last)) }
        ensures rest { OnOk result (ring.new.items ≡ drop count ring.old.items) }
        ensures room { ring.new.capacity ≡ ring.old.capacity }
        ensures err { OnErr result (ring.new ≡ ring.old) }
    {
        let alloc = *ring.allocator();
        let _bound = ring.len();
        let room = places(count, &last);
        let mut items = Arc::new(alloc, Vec::with_capacity(alloc, room)?)?;
        match Arc::get_mut(&mut items) {
            None => return Err(NoMemory),
            Some(room) => move_front(ring, count, last, room),
        }
        Ok(Batch { items, count: all })
    }
}

/// Returns how many so many elements are with another, if there is one.
#[inline(always)]
fn places<T>(count: usize, last: &Option<T>) -> usize
    requires { count < 2 ^ 63 }
    ensures { result ≡ count + length (listed last.now) }
{
    match last {
        None => count,
        Some(_) => count + 1,
    }
}

/// Moves the first so many elements of a ring, and another behind them if there is one, into an empty vector, which
/// has room for them. The vector is a local meanwhile, so that its fields stay in registers. What stands in its place
/// takes no memory.
#[tactic(auto, using(crate::proofs::outbox::Fronts::take_first_left, crate::proofs::outbox::Fronts::drop_first_left, crate::proofs::outbox::Fronts::is_left))]
fn move_front<T: Drop>(
    ring: &mut HeapCircularBuffer<T>,
    count: usize,
    last: Option<T>,
    room: &mut Vec<T>,
)
    requires count { count ≤ length ring.old.items }
    requires empty { room.old.items ≡ [] }
    requires room { count + length (listed last) ≤ vec_capacity room.old }
    ensures taken { room.new.items ≡ take count ring.old.items ++ listed last }
    ensures rest { ring.new.items ≡ drop count ring.old.items }
    ensures capacity { ring.new.capacity ≡ ring.old.capacity }
{
    let alloc = *room.allocator();
    let mut moved = mem::replace(room, Vec::new(alloc));
    'moving: for _ in 0..count {
        if let Some(next) = ring.pop_front() {
            moved.push_reserved(next);
        }
    }
    if let Some(last) = last {
        moved.push_reserved(last);
    }
    mem::forget(mem::replace(room, moved));
}
