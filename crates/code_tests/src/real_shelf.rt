use std::fs;
use std::test::Fail;
use store_io::{RealShelf, Shelf, ShelfError, Taken};

#[test]
fn a_real_file_of_exactly_the_most_is_taken(rt: HostRuntime) -> Result<(), Fail> {
    let alloc = rt.alloc();
    let name = "db2rdf-real-shelf-test";
    fs::write(&rt, name, "0123456789")?;
    let mut shelf = RealShelf::new(alloc, &rt);
    let mut into = Vec::from_slice(alloc, b"before ")?;
    let whole = shelf.read_whole(alloc, name, 10, &mut into);
    assert_eq!(rt; whole, Ok(Taken::All));
    assert_eq!(rt; into.as_slice(), b"before 0123456789".as_slice());
    let longer = shelf.read_whole(alloc, name, 9, &mut into);
    assert_eq!(rt; longer, Ok(Taken::Longer));
    assert_eq!(rt; into.len(), 17);
    fs::remove_file(&rt, name)?;
    let missing = shelf.read_whole(alloc, name, 10, &mut into);
    assert_eq!(rt; missing, Err(ShelfError::Failed));
    assert_eq!(rt; into.len(), 17);
    Ok(())
}
