ghost use Rattle.std.specs.Prelude.{◌≡◌, ◌≤◌, ◌<◌, ◌+◌, ◌-◌, ◌^◌, ◌++◌, length, take, drop, flat_map, IfOk, OnOk, OnErr};
ghost use Rattle.stores.specs.outbox.Bounded.{batched, listed, AreSome, IsPart};

use crate::outbox::batch::Batch;
use crate::outbox::several::Several;
use base::NoMemory;
use circular_buffer::HeapCircularBuffer;
use std::alloc::Global;
use std::marker::Model;

/// What waits for one session, oldest first. A clause sees the list and how long it may be: of an element that is
/// several it sees each.
///
/// ```
/// let mut outbox: Outbox<Numbered> = Outbox::new(rt.alloc(), 1)?;
/// assert_eq!(rt; outbox.offer(Numbered(3)), Ok(()));
/// assert_eq!(rt; outbox.offer(Numbered(4)), Err(Numbered(4)));
/// assert_eq!(rt; outbox.take(5)?.as_slice(), [Numbered(3)].as_slice());
/// ```
///
/// All its memory is taken at its making. `offer` writes one element; `share` moves those that wait once, and hands
/// them on without a copy.
#[derive(Debug)]
pub struct Outbox<T: Several> {
    /// The oldest, once they were asked for together. They wait until they are let go.
    batch: Option<Batch<T>>,
    /// How many of the batch were let go.
    gone: usize,
    ring: HeapCircularBuffer<T>,
    /// How many wait in all.
    waiting: usize,
}

impl<T: Several + Drop> Drop for Outbox<T> {
    #[inline(always)]
    fn drop(self) {
        let Self {
            batch: _,
            gone: _,
            ring: _,
            waiting: _,
        } = self;
    }
}

impl<T: Several> Model for Outbox<T> {
    ghost use Rattle.std.specs.Prelude.{◌++◌, drop, flat_map};
    ghost use Rattle.stores.specs.outbox.Bounded.{Bounded, IsCounted, batched};

    ghost Value = { Bounded T.Item };

    ghost view = { λ o. record { capacity = o.ring.capacity; waiting = drop o.gone (batched o.batch) ++ flat_map T.each o.ring.items } };

    ghost invariant = { λ o. IsCounted T.each (batched o.batch) o.ring.items o.gone o.waiting o.ring.capacity };
}

/// Returns the elements of a batch.
fn in_batch<T: Several>(batch: &Option<Batch<T>>) -> &[T]
    ensures { flat_map T.each result.now ≡ batched batch.now }
{
    match batch {
        None => &[],
        Some(batch) => batch.as_slice(),
    }
}

/// Returns how many of a batch are left behind those that were let go.
fn left_in<T: Several>(batch: &Option<Batch<T>>, gone: usize) -> usize
    requires { gone ≤ length (batched batch.now) }
    ensures left { result ≡ length (batched batch.now) - gone }
    ensures bound { length (batched batch.now) < 2 ^ 64 }
{
    match batch {
        None => 0,
        Some(batch) => batch.len() - gone,
    }
}

impl<T: Several> Outbox<T> {
    ghost use Rattle.std.specs.Prelude.{◌≡◌, ◌≤◌, ◌-◌, [], length, IfOk, nat_le};

    /// Returns an empty outbox for `capacity` elements, one at least. All its memory is taken here; `NoMemory` where it
    /// could not be had.
    pub fn new(alloc: Global, capacity: usize) -> Result<Outbox<T>, NoMemory>
        requires { 1 ≤ capacity }
        ensures capacity { IfOk result (λ o. o.capacity ≡ capacity) }
        ensures empty { IfOk result (λ o. o.waiting ≡ []) }
    {
        let ring = HeapCircularBuffer::with_capacity(alloc, capacity)?;
        Ok(Outbox {
            batch: None,
            gone: 0,
            ring,
            waiting: 0,
        })
    }

    /// Returns how much waits.
    #[tactic(auto, using(crate::proofs::outbox::Batches::of_both))]
    pub fn len(&self) -> usize
        ensures value { result ≡ length self.now.waiting }
        ensures bound { result ≤ self.now.capacity }
    {
        self.waiting
    }

    /// Returns whether there is no room left.
    pub fn is_full(&self) -> bool
        ensures { result ≡ nat_le self.now.capacity (length self.now.waiting) }
    {
        self.ring.capacity() <= self.len()
    }

    /// Returns how much more may wait.
    pub fn room(&self) -> usize
        ensures { result ≡ self.now.capacity - length self.now.waiting }
    {
        self.ring.capacity() - self.len()
    }
}

impl<T: Several + Drop> Outbox<T> {
    ghost use Rattle.std.specs.Prelude.{◌≡◌, ◌≤◌, ◌<◌, ◌+◌, ◌++◌, ◌∷◌, [], length, drop, IfErr, OnOk};

    /// Adds at the end an element that is so many, one at least, for which there is room. It takes no memory.
    #[inline(always)]
    #[tactic(auto, using(crate::proofs::outbox::Batches::of_both, crate::proofs::outbox::Batches::more_behind))]
    pub fn offer_several(&mut self, value: T, count: usize)
        requires counted { count ≡ length (T.each value) }
        requires some { 1 ≤ count }
        requires room { length self.old.waiting + count ≤ self.old.capacity }
        ensures { self.new ≡ record self.old { waiting = self.old.waiting ++ T.each value } }
    {
        let _bound = self.ring.capacity();
        push_last(&mut self.ring, value);
        self.waiting += count;
    }

    /// Adds one at the end, or hands it back where the outbox is full. It takes no memory.
    #[inline(always)]
    #[tactic(auto, using(crate::proofs::outbox::Parts::one_alone))]
    pub fn offer(&mut self, value: T::Item) -> Result<(), T::Item>
        ensures ok { OnOk result ((length self.old.waiting < self.old.capacity)
            × (self.new ≡ record self.old { waiting = self.old.waiting ++ value ∷ [] })) }
        ensures full { IfErr result (λ back. (self.old.capacity ≤ length self.old.waiting)
            × (back ≡ value) × (self.new ≡ self.old)) }
    {
        if self.is_full() {
            return Err(value);
        }
        self.offer_several(T::one(value), 1);
        Ok(())
    }

    /// Lets the next elements go, `most` at most, oldest first. It takes no memory.
    #[tactic(auto, using(crate::proofs::outbox::Batches::drop_of_batch, crate::proofs::outbox::Batches::drop_of_ring))]
    pub fn discard(&mut self, most: usize)
        ensures { self.new ≡ record self.old { waiting = drop most self.old.waiting } }
    {
        let together = left_in(&self.batch, self.gone);
        if most < together {
            self.gone += most;
            self.waiting -= most;
            return;
        }
        let behind = self.waiting - together;
        let left = (most - together).min(behind);
        self.batch = None;
        self.gone = 0;
        drop_front(&mut self.ring, left, behind);
        self.waiting = behind - left;
    }

    /// Has the next elements stand together, `most` at most, unless some do.
    #[inline(always)]
    #[tactic(auto, using(crate::proofs::outbox::Batches::gathered))]
    fn gather(&mut self, most: usize) -> Result<(), NoMemory>
        ensures { self.new ≡ self.old }
    {
        if self.batch.is_some() {
            return Ok(());
        }
        let count = most.min(self.waiting);
        let batch = take_front(&mut self.ring, count, self.waiting)?;
        self.batch = Some(batch);
        Ok(())
    }
}

impl<T: Several + Drop> Outbox<T> {
    ghost use Rattle.std.specs.Prelude.{◌≡◌, take, drop, IfOk, OnErr};

    /// Returns copies of the next elements, `most` at most, oldest first. The elements stay. `NoMemory` where memory
    /// could not be had.
    pub fn front(&self, most: usize) -> Result<Batch<T>, NoMemory>
        ensures { IfOk result (λ front. front ≡ take most self.now.waiting) }
    {
        let count = most.min(self.waiting);
        let copies = copy_both(in_batch(&self.batch), self.gone, &self.ring, count)?;
        let front = Batch::from_vec(*self.ring.allocator(), copies, count)?;
        Ok(front)
    }

    /// Returns a copy with as much room, and with memory of its own. `NoMemory` where it could not be had.
    pub fn copy(&self, alloc: Global) -> Result<Outbox<T>, NoMemory>
        ensures { IfOk result (λ copy. copy ≡ self.now) }
    {
        let batch = self.front(self.waiting)?;
        let ring = HeapCircularBuffer::with_capacity(alloc, self.ring.capacity())?;
        Ok(Outbox {
            batch: Some(batch),
            gone: 0,
            ring,
            waiting: self.waiting,
        })
    }

    /// Returns the next elements, `most` at most, oldest first, to be owned by others too. They stay, and none is
    /// copied where they are asked for before others are let go. `NoMemory` where memory could not be had.
    pub fn share(&mut self, most: usize) -> Result<Batch<T>, NoMemory>
        ensures front { IfOk result (λ front. front ≡ take most self.old.waiting) }
        ensures same { self.new ≡ self.old }
    {
        self.gather(most)?;
        if self.gone > 0 {
            return Ok(self.front(most)?);
        }
        match &self.batch {
            Some(batch) if batch.len() == most.min(self.waiting) => Ok(batch.again()?),
            _ => Ok(self.front(most)?),
        }
    }

    /// Takes the next elements out, `most` at most, oldest first. `NoMemory` takes nothing out.
    pub fn take(&mut self, most: usize) -> Result<Batch<T>, NoMemory>
        ensures ok { IfOk result (λ taken. (taken ≡ take most self.old.waiting)
            × (self.new ≡ record self.old { waiting = drop most self.old.waiting })) }
        ensures err { OnErr result (self.new ≡ self.old) }
    {
        let taken = self.front(most)?;
        self.discard(most);
        Ok(taken)
    }
}

/// Adds an element at the end of a ring, in which there is room for more than it has.
#[inline(always)]
#[tactic(auto, using(crate::proofs::outbox::Parts::few_elements, crate::proofs::outbox::Parts::one_behind, crate::proofs::outbox::Parts::some_behind))]
fn push_last<T: Several + Drop>(ring: &mut HeapCircularBuffer<T>, value: T)
    requires room { length (flat_map T.each ring.old.items) < ring.old.capacity }
    requires some { AreSome T.each ring.old.items }
    requires value { 1 ≤ length (T.each value) }
    ensures items { flat_map T.each ring.new.items ≡ flat_map T.each ring.old.items ++ T.each value }
    ensures some { AreSome T.each ring.new.items }
    ensures capacity { ring.new.capacity ≡ ring.old.capacity }
{
    let _full = ring.try_push_back(value);
}

/// Returns how many elements at the front of a ring lie whole within its first so many, and how many more these are.
#[tactic(auto, using(crate::proofs::outbox::Parts::one_more_whole, crate::proofs::outbox::Parts::part_there, crate::proofs::outbox::Parts::none_left, crate::proofs::outbox::Fronts::is_there))]
fn count_whole<T: Several>(ring: &HeapCircularBuffer<T>, count: usize) -> (usize, usize)
    requires { count ≤ length (flat_map T.each ring.now.items) }
    ensures whole { result.0 ≤ length ring.now.items }
    ensures counted { length (flat_map T.each (take result.0 ring.now.items)) + result.1 ≡ count }
    ensures part { IsPart T.each result.1 (drop result.0 ring.now.items) }
{
    let mut left = count;
    'counting: for whole in 0..ring.len() {
        if let Some(item) = ring.get(whole) {
            let several = item.count();
            if left < several {
                return (whole, left);
            }
            left -= several;
        }
    }
    (ring.len(), left)
}

/// Returns the same of a ring that is so many in all. Where these are no more than its elements each is one, and none
/// is looked at.
#[inline(always)]
#[tactic(auto, using(crate::proofs::outbox::Parts::alone_whole, crate::proofs::outbox::Parts::no_part))]
fn whole_in<T: Several>(ring: &HeapCircularBuffer<T>, count: usize, all: usize) -> (usize, usize)
    requires few { count ≤ all }
    requires all { all ≡ length (flat_map T.each ring.now.items) }
    requires some { AreSome T.each ring.now.items }
    ensures whole { result.0 ≤ length ring.now.items }
    ensures counted { length (flat_map T.each (take result.0 ring.now.items)) + result.1 ≡ count }
    ensures part { IsPart T.each result.1 (drop result.0 ring.now.items) }
{
    if all == ring.len() {
        return (count, 0);
    }
    count_whole(ring, count)
}

/// Leaves the first so many of a ring's first element out, fewer than it is.
#[tactic(auto, using(crate::proofs::outbox::Parts::first_left_out, crate::proofs::outbox::Parts::first_some))]
fn leave_out_first<T: Several>(ring: &mut HeapCircularBuffer<T>, count: usize)
    requires part { IsPart T.each count ring.old.items }
    requires some { AreSome T.each ring.old.items }
    ensures items { flat_map T.each ring.new.items ≡ drop count (flat_map T.each ring.old.items) }
    ensures some { AreSome T.each ring.new.items }
    ensures capacity { ring.new.capacity ≡ ring.old.capacity }
{
    if count > 0 {
        if let Some(first) = ring.get_mut(0) {
            first.leave_out(count);
        }
    }
}

/// Lets the first so many of a ring go, which is `all` together.
#[tactic(auto, using(crate::proofs::outbox::Parts::rest_dropped, crate::proofs::outbox::Parts::some_left))]
fn drop_front<T: Several + Drop>(ring: &mut HeapCircularBuffer<T>, count: usize, all: usize)
    requires few { count ≤ all }
    requires all { all ≡ length (flat_map T.each ring.old.items) }
    requires some { AreSome T.each ring.old.items }
    ensures items { flat_map T.each ring.new.items ≡ drop count (flat_map T.each ring.old.items) }
    ensures some { AreSome T.each ring.new.items }
    ensures capacity { ring.new.capacity ≡ ring.old.capacity }
{
    let (whole, left) = whole_in(ring, count, all);
    let kept = ring.len() - whole;
    ring.truncate_front(kept);
    leave_out_first(ring, left);
}

/// Returns the first so many of the element at a place, fewer than it is; nothing where these are none.
#[tactic(auto, using(crate::proofs::outbox::Parts::take_none_of, crate::proofs::outbox::Parts::part_of_none))]
fn part_at<T: Several>(
    ring: &HeapCircularBuffer<T>,
    place: usize,
    count: usize,
) -> Result<Option<T>, NoMemory>
    requires { IsPart T.each count (drop place ring.now.items) }
    ensures { IfOk result (λ part. flat_map T.each (listed part) ≡ take count (flat_map T.each (drop place ring.now.items))) }
{
    if count == 0 {
        return Ok(None);
    }
    match ring.get(place) {
        None => Ok(None),
        Some(item) => {
            let part = item.first_part(*ring.allocator(), count)?;
            Ok(Some(part))
        }
    }
}

/// Moves the first so many out of a ring, which is `all` together. An element that is more is divided. Where memory
/// could not be had they stay there.
#[tactic(auto, using(crate::proofs::outbox::Parts::front_taken, crate::proofs::outbox::Parts::rest_dropped, crate::proofs::outbox::Parts::some_left))]
fn take_front<T: Several + Drop>(
    ring: &mut HeapCircularBuffer<T>,
    count: usize,
    all: usize,
) -> Result<Batch<T>, NoMemory>
    requires few { count ≤ all }
    requires all { all ≡ length (flat_map T.each ring.old.items) }
    requires some { AreSome T.each ring.old.items }
    ensures taken { IfOk result (λ batch. batch ≡ take count (flat_map T.each ring.old.items)) }
    ensures rest { OnOk result (flat_map T.each ring.new.items ≡ drop count (flat_map T.each ring.old.items)) }
    ensures some { AreSome T.each ring.new.items }
    ensures room { ring.new.capacity ≡ ring.old.capacity }
    ensures err { OnErr result (ring.new ≡ ring.old) }
{
    let (whole, left) = whole_in(ring, count, all);
    let part = part_at(ring, whole, left)?;
    let batch = Batch::from_front(ring, whole, part, count)?;
    leave_out_first(ring, left);
    Ok(batch)
}

/// Adds a copy of an element's part: so many of it behind those that are left out.
#[tactic(auto, using(crate::proofs::outbox::Copies::one_copied, crate::proofs::outbox::Copies::none_wanted))]
fn copy_part<T: Several + Drop>(
    alloc: Global,
    item: &T,
    gone: usize,
    count: usize,
    copies: &mut Vec<T>,
) -> Result<(), NoMemory>
    requires { gone + count ≤ length (T.each item.now) }
    ensures { OnOk result (flat_map T.each copies.new.items ≡ flat_map T.each copies.old.items ++ take count (drop gone (T.each item.now))) }
{
    if count == 0 {
        return Ok(());
    }
    let _bound = item.count();
    let mut copy = item.first_part(alloc, gone + count)?;
    copy.leave_out(gone);
    copies.push(copy)?;
    Ok(())
}

/// Adds copies of what elements are behind those that are left out, `most` at most, and returns how many more may be.
fn copy_some<T: Several + Drop>(
    alloc: Global,
    items: &[T],
    gone: usize,
    most: usize,
    copies: &mut Vec<T>,
) -> Result<usize, NoMemory>
    ensures copied { OnOk result (flat_map T.each copies.new.items ≡ flat_map T.each copies.old.items ++ take most (drop gone (flat_map T.each items.now))) }
    ensures left { IfOk result (λ left. left ≡ most - (length (flat_map T.each items.now) - gone)) }
{
    let mut gone = gone;
    let mut left = most;
    for item in items {
        if left == 0 {
            return Ok(0);
        }
        let count = item.count();
        let skipped = gone.min(count);
        let wanted = left.min(count - skipped);
        copy_part(alloc, item, skipped, wanted, copies)?;
        gone -= skipped;
        left -= wanted;
    }
    Ok(left)
}

/// Returns copies of what elements are behind those that are left out, and of a ring behind them, `most` at most.
fn copy_both<T: Several + Drop>(
    items: &[T],
    gone: usize,
    ring: &HeapCircularBuffer<T>,
    most: usize,
) -> Result<Vec<T>, NoMemory>
    ensures { IfOk result (λ copies. flat_map T.each copies.items ≡ take most (drop gone (flat_map T.each items.now) ++ flat_map T.each ring.now.items)) }
{
    let alloc = *ring.allocator();
    let room = items.len().saturating_add(ring.len()).min(most);
    let mut copies = Vec::with_capacity(alloc, room)?;
    let left = copy_some(alloc, items, gone, most, &mut copies)?;
    let (first, last) = ring.as_slices();
    let more = copy_some(alloc, first, 0, left, &mut copies)?;
    let _none = copy_some(alloc, last, 0, more, &mut copies)?;
    Ok(copies)
}
