use ct_names::{Book, Command, Group, Message, MsgSet, ValueId};
use std::alloc::{AllocError, Global};
use std::test::Fail;

#[test]
fn groups_have_one_to_sixteen_members(rt: HostRuntime) {
    assert!(rt; Group::new(0).is_none() && Group::new(17).is_none());
    assert!(rt;
        Group::new(16).is_some_and(|group| {
            group.majority() == 9 && group.coordinator(16) == 1 && group.coordinator(10_000) == 1
        })
    );
}

// Whether a set has the two in their order, a copy too, and without the last the first alone.
fn orders(alloc: Global, first: Message, last: Message) -> Result<bool, AllocError> {
    let mut set = MsgSet::of(alloc, &[last])?;
    set.add(first)?;
    let copy = set.copy(alloc)?;
    let rest = set.minus(alloc, &[last])?;
    Ok(
        set.items() == [first, last].as_slice()
            && copy.items() == set.items()
            && rest.items() == [first].as_slice(),
    )
}

#[test]
fn sets_of_messages_are_in_order(rt: HostRuntime) -> Result<(), Fail> {
    let first = Message::new(1, 2, Command::Set(0, 7)).ok_or("good")?;
    let last = Message::new(2, 1, Command::Set(0, 7)).ok_or("good")?;
    assert!(rt; orders(rt.alloc(), first, last)?);
    Ok(())
}

// The number of a set with that message alone, for which room is made.
fn enter(alloc: Global, book: &mut Book, message: Message) -> Result<Option<ValueId>, AllocError> {
    let set = MsgSet::of(alloc, &[message])?;
    book.prepare()?;
    if book.len() > 100 {
        return Ok(None);
    }
    Ok(book.add(set).ok())
}

// Whether equal sets have numbers of their own, in a copy too.
fn numbers(alloc: Global, message: Message) -> Result<bool, AllocError> {
    let mut book = Book::new(alloc);
    let first = enter(alloc, &mut book, message)?;
    let second = enter(alloc, &mut book, message)?;
    let copy = book.copy(alloc)?;
    Ok(
        first == Some(ValueId::new(0))
            && second == Some(ValueId::new(1))
            && has_alone(&book, 0, message)
            && has_alone(&copy, 1, message),
    )
}

// Whether the set of this number has that message alone.
fn has_alone(book: &Book, number: u32, message: Message) -> bool {
    book.get(ValueId::new(number))
        .is_some_and(|set| set.items() == [message].as_slice())
}

#[test]
fn equal_sets_have_numbers_of_their_own(rt: HostRuntime) -> Result<(), Fail> {
    let message = Message::new(1, 1, Command::Set(0, 7)).ok_or("good")?;
    assert!(rt; numbers(rt.alloc(), message)?);
    Ok(())
}
