// Tests of `rset`.
use rset::{NameErr, NameTable, ResourceSet};
use std::alloc::Global;
use std::test::Fail;

// A table takes names and refuses each a second time, and a copy knows them too.
fn is_filled_and_copied(alloc: Global) -> Result<bool, Fail> {
    let mut table = NameTable::new(alloc);
    let left = table.add(b"left");
    let right = table.add(b"right_2");
    let again = table.add(b"left");
    let copy = table.copy(alloc)?;
    let numbers = left == Ok(0) && right == Ok(1) && again == Err(NameErr::Repeated);
    Ok(numbers && copy.number_of(b"right_2") == Some(1) && copy.number_of(b"right").is_none())
}

// A set is printed as its members.
fn is_printed(alloc: Global) -> Result<bool, Fail> {
    let set = format!(in alloc; "{:?}", ResourceSet::one(63).with(5).with(1).with(0))?;
    let empty = format!(in alloc; "{:?}", ResourceSet::empty())?;
    Ok(set.as_str() == "{0, 1, 5, 63}" && empty.as_str() == "{}")
}

#[test]
fn a_table_has_memory(rt: HostRuntime) -> Result<(), Fail> {
    assert!(rt; is_filled_and_copied(rt.alloc())?);
    Ok(())
}

#[test]
fn sets_are_printed(rt: HostRuntime) -> Result<(), Fail> {
    assert!(rt; is_printed(rt.alloc())?);
    Ok(())
}
