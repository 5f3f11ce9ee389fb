use base::NoMemory;
use std::alloc::Global;
use std::test::Fail;
use stores::outbox::{Outbox, Several};

/// An element that is told by its number.
#[derive(Debug, Drop, PartialEq)]
struct Numbered(u8);

impl Several for Numbered {
    ghost use Rattle.std.specs.Prelude.{◌∷◌, []};

    type Item = Numbered;

    ghost each = { λ n. n ∷ [] };

    fn one(item: Numbered) -> Numbered {
        item
    }

    fn count(&self) -> usize {
        1
    }

    fn first_part(&self, _alloc: Global, _count: usize) -> Result<Numbered, NoMemory> {
        Ok(Numbered(self.0))
    }

    fn leave_out(&mut self, _count: usize) {}
}

#[test]
fn an_outbox_gives_back_what_it_has_no_room_for(rt: HostRuntime) -> Result<(), Fail> {
    let mut outbox: Outbox<Numbered> = Outbox::new(rt.alloc(), 1)?;
    assert_eq!(rt; outbox.offer(Numbered(3)), Ok(()));
    assert_eq!(rt; outbox.offer(Numbered(4)), Err(Numbered(4)));
    assert_eq!(rt; outbox.take(5)?.as_slice(), [Numbered(3)].as_slice());
    Ok(())
}

#[test]
fn a_full_outbox_has_room_again(rt: HostRuntime) -> Result<(), Fail> {
    let mut outbox: Outbox<Numbered> = Outbox::new(rt.alloc(), 1)?;
    assert!(rt; !outbox.is_full());
    assert_eq!(rt; outbox.offer(Numbered(3)), Ok(()));
    assert!(rt; outbox.is_full());
    assert_eq!(rt; outbox.len(), 1);
    assert_eq!(rt; outbox.take(0)?.len(), 0);
    assert_eq!(rt; outbox.take(5)?.len(), 1);
    assert_eq!(rt; outbox.len(), 0);
    assert_eq!(rt; outbox.offer(Numbered(4)), Ok(()));
    Ok(())
}

/// One number, or two in a row.
#[derive(Debug, Drop, PartialEq)]
enum Row {
    One(u8),
    Two(u8, u8),
}

impl Several for Row {
    ghost use Rattle.std.specs.Prelude.{◌∷◌, []};
    ghost use Rattle.test_calls.specs.declared.outboxes.Row.TheVariants.{One, Two};

    type Item = u8;

    ghost each = { λ row. elim row [ One x ↦ x ∷ [] | Two x y ↦ x ∷ (y ∷ []) ] };

    fn one(item: u8) -> Row {
        Row::One(item)
    }

    fn count(&self) -> usize {
        match self {
            Row::One(_) => 1,
            Row::Two(_, _) => 2,
        }
    }

    fn first_part(&self, _alloc: Global, count: usize) -> Result<Row, NoMemory> {
        match self {
            Row::Two(first, last) if count == 2 => Ok(Row::Two(*first, *last)),
            Row::One(first) | Row::Two(first, _) => Ok(Row::One(*first)),
        }
    }

    fn leave_out(&mut self, count: usize) {
        if count == 0 {
            return;
        }
        match *self {
            Row::One(_) => {}
            Row::Two(_, last) => *self = Row::One(last),
        }
    }
}

#[test]
fn an_element_of_several_is_divided(rt: HostRuntime) -> Result<(), Fail> {
    let mut outbox: Outbox<Row> = Outbox::new(rt.alloc(), 5)?;
    outbox.offer_several(Row::Two(1, 2), 2);
    outbox.offer_several(Row::Two(3, 4), 2);
    assert_eq!(rt; outbox.len(), 4);
    assert_eq!(rt;
        outbox.share(3)?.as_slice(),
        [Row::Two(1, 2), Row::One(3)].as_slice()
    );
    assert_eq!(rt; outbox.share(1)?.as_slice(), [Row::One(1)].as_slice());
    outbox.discard(1);
    let mut again = outbox.copy(rt.alloc())?;
    let left = [Row::One(2), Row::One(3), Row::One(4)];
    assert_eq!(rt; again.take(5)?.as_slice(), left.as_slice());
    outbox.discard(2);
    assert_eq!(rt; outbox.take(5)?.as_slice(), [Row::One(4)].as_slice());
    Ok(())
}
