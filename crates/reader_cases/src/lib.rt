// The edges of the record format, run.
#![tactic(auto)]

#[cfg(test)]
mod tests {
    use chunks::chunk::{chunk, chunk_calls_super};
    use chunks::references::{opener, parent, references, variables};
    use reader::read::read;
    use record::command::{Container, Owner};
    use record::fault::{Layer, ReadError, RecordFault};
    use std::alloc::{AllocError, Global};
    use std::process::Abort;
    use std::test::Fail;
    use text::lines::{line, line_count};
    use text::name::Name;

    // Whether the reader takes the record, or the fault; running out of memory fails the test.
    // Source and record are passed here and below as `read` takes them.
    fn judged(heap: Global, source: &str, bytes: &[u8]) -> Result<Result<(), RecordFault>, Fail> {
        match read(heap, source, bytes) {
            Ok(_) => Ok(Ok(())),
            Err(ReadError::Record(fault)) => Ok(Err(fault)),
            Err(ReadError::Memory) => Err(Fail::new("no memory")),
        }
    }

    // The same with the number of the refusal and its place.
    fn verdict(heap: Global, source: &str, bytes: &[u8]) -> Result<Result<(), (u8, usize)>, Fail> {
        Ok(judged(heap, source, bytes)?.map_err(|fault| (fault.reason.number(), fault.at)))
    }

    fn expect(
        rt: &impl Abort,
        heap: Global,
        source: &str,
        bytes: &[u8],
        want: Result<(), (u8, usize)>,
    ) -> Result<(), Fail> {
        assert_eq!(rt; verdict(heap, source, bytes)?, want);
        Ok(())
    }

    // an empty record, Z alone, and bytes after Z
    #[test]
    fn the_end_of_a_record(rt: HostRuntime) -> Result<(), Fail> {
        let heap = rt.alloc();
        expect(&rt, heap, "", b"", Err((16, 0)))?;
        expect(&rt, heap, "", b"Z", Ok(()))?;
        expect(&rt, heap, "", b"ZZ", Err((16, 1)))?;
        expect(&rt, heap, "", b"Z?", Err((16, 1)))
    }

    // no Z; something open at Z
    #[test]
    fn z_and_what_is_open(rt: HostRuntime) -> Result<(), Fail> {
        let heap = rt.alloc();
        expect(&rt, heap, "a", b"W\x00\x00\x00\x01", Err((16, 5)))?;
        expect(&rt, heap, "a", b"b\x00\x00\x01Z", Err((16, 5)))
    }

    // 9: an unknown command
    #[test]
    fn unknown_commands(rt: HostRuntime) -> Result<(), Fail> {
        let heap = rt.alloc();
        expect(&rt, heap, "", b"Y", Err((9, 0)))?;
        expect(&rt, heap, "a", b"V\x00\x00\x01xZ", Err((9, 4)))
    }

    // 10: operands that are cut short
    #[test]
    fn operands_cut_short(rt: HostRuntime) -> Result<(), Fail> {
        let heap = rt.alloc();
        expect(&rt, heap, "a", b"V\x00\x00", Err((10, 0)))?;
        expect(&rt, heap, "a", b"W\x00\x00\x00", Err((10, 0)))?;
        expect(
            &rt,
            heap,
            "a",
            b"B\x00\x00\x01\x00\x01\x00\x00\x00\x01\x00\x01\x00\x00\x00",
            Err((10, 0)),
        )
    }

    // 11: a part that ends at the source's end, and one past it; an empty part there and past it
    #[test]
    fn parts_at_the_end(rt: HostRuntime) -> Result<(), Fail> {
        let heap = rt.alloc();
        expect(&rt, heap, "abc", b"V\x00\x01\x02Z", Ok(()))?;
        expect(&rt, heap, "abc", b"V\x00\x01\x03Z", Err((11, 0)))?;
        expect(&rt, heap, "abc", b"W\x00\x03\x00\x00Z", Ok(()))?;
        expect(&rt, heap, "abc", b"W\x00\x04\x00\x00Z", Err((11, 0)))
    }

    // 11: a part that cuts a sequence of two bytes, at its start and at its end, and an empty one
    // within it
    #[test]
    fn parts_that_cut_a_character(rt: HostRuntime) -> Result<(), Fail> {
        let heap = rt.alloc();
        expect(&rt, heap, "\u{b0}C", b"W\x00\x01\x00\x02Z", Err((11, 0)))?;
        expect(&rt, heap, "\u{b0}C", b"W\x00\x00\x00\x01Z", Err((11, 0)))?;
        expect(&rt, heap, "\u{b0}C", b"W\x00\x01\x00\x00Z", Ok(()))
    }

    // 12: start line 0, the last, and one past it; from after to, to at the end and past it
    #[test]
    fn lines_and_bytes_of_a_span(rt: HostRuntime) -> Result<(), Fail> {
        let heap = rt.alloc();
        expect(
            &rt,
            heap,
            "a\n",
            b"F\x00\x00\x01\x00\x00\x00\x00\x00\x00\x00\x00\x00\x00\x00\x01Z",
            Err((12, 0)),
        )?;
        expect(
            &rt,
            heap,
            "a\n",
            b"F\x00\x00\x01\x00\x02\x00\x00\x00\x00\x00\x00\x00\x00\x00\x02Z",
            Ok(()),
        )?;
        expect(
            &rt,
            heap,
            "a\n",
            b"F\x00\x00\x01\x00\x03\x00\x00\x00\x00\x00\x00\x00\x00\x00\x01Z",
            Err((12, 0)),
        )?;
        expect(
            &rt,
            heap,
            "a\n",
            b"F\x00\x00\x01\x00\x01\x00\x00\x00\x00\x00\x00\x00\x01\x00\x00Z",
            Err((12, 0)),
        )?;
        expect(
            &rt,
            heap,
            "a\n",
            b"F\x00\x00\x01\x00\x01\x00\x00\x00\x00\x00\x00\x00\x00\x00\x03Z",
            Err((12, 0)),
        )
    }

    // 13: X after another command, E with nothing open, a component in a block, a block in a
    // component
    #[test]
    fn commands_out_of_place(rt: HostRuntime) -> Result<(), Fail> {
        let heap = rt.alloc();
        expect(
            &rt,
            heap,
            "ab",
            b"V\x00\x00\x01X\x00\x00\x01Z",
            Err((13, 4)),
        )?;
        expect(&rt, heap, "", b"EZ", Err((13, 0)))?;
        expect(
            &rt,
            heap,
            "ab",
            b"b\x00\x00\x01C\x00\x01\x01EEZ",
            Err((13, 4)),
        )?;
        expect(
            &rt,
            heap,
            "ab",
            b"C\x00\x00\x01b\x00\x01\x01EEZ",
            Err((13, 4)),
        )
    }

    // 14: a name that is there already, of its kind and of the other
    #[test]
    fn names_that_are_there(rt: HostRuntime) -> Result<(), Fail> {
        let heap = rt.alloc();
        expect(
            &rt,
            heap,
            "ab",
            b"b\x00\x00\x01Eb\x00\x00\x01EZ",
            Err((14, 5)),
        )?;
        expect(&rt, heap, "ab", b"b\x00\x00\x01EC\x00\x00\x01EZ", Ok(()))
    }

    // two refusals at once: the earlier question wins, here 11 before 13
    #[test]
    fn the_earlier_question_wins(rt: HostRuntime) -> Result<(), Fail> {
        let heap = rt.alloc();
        expect(
            &rt,
            heap,
            "ab",
            b"b\x00\x00\x01C\x00\x02\x01EEZ",
            Err((11, 4)),
        )
    }

    // A record with so many blocks within each other, each with a name of its own, all closed.
    fn nested(heap: Global, depth: u8) -> Result<Vec<u8>, AllocError> {
        let mut bytes = Vec::new(heap);
        for i in 0..depth {
            bytes.extend_from_slice(&[b'b', 0, i, 1])?;
        }
        bytes.extend_from_slice(b"E".repeat(heap, usize::from(depth))?.as_slice())?;
        bytes.push(b'Z')?;
        Ok(bytes)
    }

    #[test]
    fn sixteen_and_seventeen_open(rt: HostRuntime) -> Result<(), Fail> {
        let heap = rt.alloc();
        let source = "abcdefghijklmnopqrst";
        assert_eq!(rt;
            verdict(heap, source, nested(heap, 16)?.as_slice())?,
            Ok(())
        );
        assert_eq!(rt;
            verdict(heap, source, nested(heap, 17)?.as_slice())?,
            Err((15, 64))
        );
        Ok(())
    }

    #[test]
    fn names_of_255_and_256_bytes(rt: HostRuntime) -> Result<(), Fail> {
        let heap = rt.alloc();
        let source = "n".repeat(heap, 256)?;
        assert!(rt; Name::new(source.as_bytes()).is_err());
        assert!(rt; source.len() == 256);
        let longest = &source.as_bytes()[0..255];
        assert!(rt; Name::new(longest).is_ok());
        assert!(rt; Name::new(b"").is_ok());
        assert_eq!(rt; verdict(heap, source.as_str(), b"V\x00\x00\xffZ")?, Ok(()));
        assert_eq!(rt; verdict(heap, source.as_str(), b"V\x00\x01\xffZ")?, Ok(()));
        assert_eq!(rt;
            verdict(heap, source.as_str(), b"V\x00\x02\xffZ")?,
            Err((11, 0))
        );
        assert_eq!(rt; verdict(heap, source.as_str(), b"b\x00\x00\x00EZ")?, Ok(()));
        Ok(())
    }

    #[test]
    fn layers(rt: HostRuntime) -> Result<(), Fail> {
        let heap = rt.alloc();
        let text = judged(heap, "a", b"V\x00\x00\x02Z")?.map_err(|fault| fault.reason.layer());
        assert_eq!(rt; text, Err(Layer::Text));
        let record = judged(heap, "a", b"E")?.map_err(|fault| fault.reason.layer());
        assert_eq!(rt; record, Err(Layer::Record));
        Ok(())
    }

    #[test]
    fn chunks_of_a_profile(rt: HostRuntime) -> Result<(), Fail> {
        let heap = rt.alloc();
        // r tail super!  as X, b `tail`, W `!`, U `super`, E, Z
        let bytes =
            b"X\x00\x00\x01b\x00\x02\x04W\x00\x0c\x00\x01U\x00\x07\x05\x00\x01\x00\x07\x00\x01\x00\x0c\x00\x07\x00\x0cEZ";
        let listing = read(heap, "r tail super!", bytes).map_err(|_| Fail::new("refused"))?;
        assert!(rt; parent(&listing).is_some());
        assert_eq!(rt; references(heap, &listing)?.len(), 0);
        assert_eq!(rt; variables(heap, &listing)?.len(), 0);
        assert_eq!(rt; opener(&listing, Container::Block, b"tail"), Some(1));
        assert_eq!(rt; opener(&listing, Container::Component, b"tail"), None);
        assert_eq!(rt; chunk(heap, &listing, Owner::Body)?.len(), 3);
        assert_eq!(rt; chunk(heap, &listing, Owner::Container(1))?.len(), 3);
        assert!(rt; chunk_calls_super(&listing, Owner::Container(1)));
        assert!(rt; !chunk_calls_super(&listing, Owner::Body));
        Ok(())
    }

    #[test]
    fn lines_of_a_source(rt: HostRuntime) {
        assert_eq!(rt; line_count(b""), 1);
        assert_eq!(rt; line_count(b"a\nb\n"), 3);
        assert_eq!(rt; line("a\nb\n", 0), None);
        assert_eq!(rt; line("a\nb\n", 2), Some("b"));
        assert_eq!(rt; line("a\nb\n", 3), Some(""));
        assert_eq!(rt; line("a\nb\n", 4), None);
    }

    #[test]
    fn a_beginning_comes_first(rt: HostRuntime) -> Result<(), Fail> {
        let a = Name::new(b"a").map_err(|_| Fail::new("no name"))?;
        let ab = Name::new(b"ab").map_err(|_| Fail::new("no name"))?;
        let b = Name::new(b"b").map_err(|_| Fail::new("no name"))?;
        assert!(rt; a.cmp(&ab).is_lt());
        assert!(rt; ab.cmp(&b).is_lt());
        assert!(rt; b.cmp(&b).is_eq());
        Ok(())
    }
}
