use crate::layered;
use builtin::Builtin;
use catalogue::{Catalogue, Kind, Overlay, Refusal, Registry};
use std::process::Abort;
use std::test::Fail;

// Registers names of `n`s with the number 9. A case has the kind, the length, the answer (a refusal
// by its number), and the places left after it.
fn heard<C: Catalogue>(
    rt: &impl Abort,
    catalogue: &mut C,
    cases: &[(Kind, usize, Result<(), u8>, usize)],
) {
    let bytes = [b'n'; 256];
    for (kind, length, answer, places) in cases {
        assert!(rt; *length <= 256);
        let name = &bytes[0..*length];
        assert!(rt; catalogue.register(*kind, name, 9).map_err(Refusal::number) == *answer);
        assert!(rt; catalogue.places() == *places);
    }
}

// Length before place, and a name that is held needs none.
#[test]
fn lengths_and_places(rt: HostRuntime) -> Result<(), Fail> {
    let mut own = Registry::with_places(rt.alloc(), 2)?;
    heard(
        &rt,
        &mut own,
        &[
            (Kind::Filter, 64, Err(31), 2),
            (Kind::Filter, 63, Ok(()), 1),
            (Kind::Test, 0, Ok(()), 0),
            (Kind::Test, 63, Err(32), 0),
            (Kind::Filter, 63, Ok(()), 0),
            (Kind::Test, 64, Err(31), 0),
        ],
    );
    heard(
        &rt,
        &mut Builtin,
        &[
            (Kind::Filter, 255, Err(32), 0),
            (Kind::Filter, 256, Err(31), 0),
        ],
    );
    Ok(())
}

// The layer above has the first word, and what it does not name is asked below; so also with three
// layers.
#[test]
fn layers(rt: HostRuntime) -> Result<(), Fail> {
    let mut two = layered(rt.alloc(), 1)?;
    assert!(rt;
        two.number(Kind::Filter, b"upper") == Some(2) && two.number(Kind::Test, b"upper") == None
    );
    assert!(rt;
        two.number(Kind::Function, b"throw") == Some(55) && !two.holds(Kind::Filter, b"upper")
    );
    assert!(rt; two.register(Kind::Filter, b"upper", 700).is_ok());
    assert!(rt;
        two.number(Kind::Filter, b"upper") == Some(700) && two.holds(Kind::Filter, b"upper")
    );
    let top = Registry::with_places(rt.alloc(), 1)?;
    let mut three = Overlay {
        own: top,
        below: two,
    };
    assert!(rt; three.register(Kind::Test, b"\xff", 701).is_ok());
    assert!(rt;
        three.number(Kind::Test, b"\xff") == Some(701)
            && three.number(Kind::Filter, b"upper") == Some(700)
    );
    assert!(rt; three.number(Kind::Filter, b"group_by") == Some(36) && three.places() == 0);
    Ok(())
}
