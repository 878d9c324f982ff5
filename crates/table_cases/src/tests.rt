use crate::weighed::{Scale, Weighed};
use std::test::Fail;
use table::{Table, firsts};
use text::name::Name;

fn name(bytes: &[u8]) -> Result<Name, Fail> {
    Name::new(bytes).map_err(|_| Fail::new("no name"))
}

// Whether the name at a place has these bytes.
fn is_at(table: &Table<Name>, place: usize, bytes: &[u8]) -> bool {
    table
        .get(place)
        .is_some_and(|name| name.as_bytes() == bytes)
}

// Three names fill a table; the fourth is given back and the three stand as they stood.
#[test]
fn names_stand_in_order(rt: HostRuntime) -> Result<(), Fail> {
    let mut table = Table::with_rows(rt.alloc(), 3)?;
    for bytes in [b"cab", b"abc", b"bca"] {
        assert!(rt; table.insert(name(bytes)?).is_ok());
    }
    assert!(rt; table.insert(name(b"aaa")?).is_err());
    assert!(rt; is_at(&table, 0, b"abc") && is_at(&table, 1, b"bca") && is_at(&table, 2, b"cab"));
    assert!(rt; table.search(&name(b"bca")?) == Some(1));
    assert!(rt; table.search(&name(b"bc")?) == None);
    assert!(rt; table.search(&name(b"d")?) == None);
    assert!(rt; table.replace(name(b"bca")?).is_ok());
    assert!(rt; table.replace(name(b"b")?).is_err());
    assert!(rt; table.remove(3).is_none());
    assert!(rt; table.remove(0).is_some());
    assert!(rt; table.len() == 2 && is_at(&table, 0, b"bca"));
    table.clear();
    assert!(rt; table.len() == 0 && table.limit() == 3);
    Ok(())
}

fn weighed(weight: u16, tag: u8, note: u8) -> Weighed {
    Weighed { weight, tag, note }
}

// Six rows come, three stay: by weight, then by tag, and of two that tie the one that came first.
#[test]
fn the_first_stay(rt: HostRuntime) -> Result<(), Fail> {
    let rows = [
        weighed(5, 1, 0),
        weighed(2, 9, 1),
        weighed(2, 3, 2),
        weighed(7, 0, 3),
        weighed(2, 3, 4),
        weighed(2, 9, 5),
    ];
    let mut table = firsts(rt.alloc(), 3, &rows)?;
    assert!(rt; table.came() == 6 && table.len() == 3);
    for (place, note) in [(0, 2), (1, 4), (2, 1)] {
        assert!(rt; table.get(place).is_some_and(|row| row.note == note));
    }
    assert!(rt;
        table.find(&Scale { weight: 2, tag: 9 }) == Some(2)
            && table.find(&Scale { weight: 2, tag: 0 }) == None
    );
    let Some(last) = table.keep_first(weighed(1, 0, 6)) else {
        return Err(Fail::new("nothing was given back"));
    };
    assert!(rt; last.note == 1);
    let Ok(Some(old)) = table.replace(weighed(1, 0, 7)) else {
        return Err(Fail::new("nothing was replaced"));
    };
    assert!(rt; old.note == 6);
    assert!(rt; table.is_full() && table.came() == 7);
    Ok(())
}
