//! Tests of the libraries on examples, with lists made by hand.
#![tactic(auto)]

#[cfg(test)]
mod tests {
    use fault::{Fault, Refusal, number_in};
    use tree::cover::cover;
    use tree::parts::Part;
    use wire::labels::read_labels;
    use wire::revocation::{MAX_REVOKED, read_revocation, write_revocation};

    // The number of the refusal of a revocation list, or 0.
    fn refusal(bytes: &[u8]) -> u8 {
        number_in(read_revocation(bytes, &mut [7; MAX_REVOKED]))
    }

    #[test]
    fn lists_are_refused_by_their_lowest_fault(rt: HostRuntime) {
        assert_eq!(rt; refusal(b""), 1, "nothing");
        assert_eq!(rt; refusal(b"\x02\x03\0\0\0\0"), 1, "another kind");
        assert_eq!(rt; refusal(b"\x01\x03\0\0\0\x01"), 1, "cut");
        assert_eq!(rt; refusal(b"\x01\x03\0\0\0\0\0"), 1, "a byte more");
        assert_eq!(rt;
            refusal(b"\x01\0"),
            2,
            "no height, whose length is not judged"
        );
        assert_eq!(rt;
            refusal(b"\x01\x11\0\0\0\0"),
            2,
            "a height above the highest"
        );
        assert_eq!(rt;
            refusal(b"\x01\x03\0\0\0\x01\0\0\0\x08"),
            2,
            "a receiver that is not in the tree"
        );
        assert_eq!(rt;
            refusal(b"\x01\x03\0\0\0\x02\0\0\0\x09\0\0\0\x09"),
            2,
            "outside, and not rising"
        );
        assert_eq!(rt;
            refusal(b"\x01\x03\0\0\0\x02\0\0\0\x05\0\0\0\x05"),
            3,
            "one twice"
        );
        assert_eq!(rt;
            refusal(b"\x01\x10\0\0\0\x02\0\0\xff\xfe\0\0\xff\xff"),
            0,
            "the last two of the highest tree"
        );
    }

    #[test]
    fn lists_are_read_as_they_were_written(rt: HostRuntime) {
        let mut bytes = [9; 16];
        assert_eq!(rt; write_revocation(3, &[0, 5], &mut bytes), Ok(14));
        assert_eq!(rt;
            bytes,
            *b"\x01\x03\0\0\0\x02\0\0\0\0\0\0\0\x05\x09\x09",
            "the bytes, and the rest as it was"
        );
        let mut receivers = [7; MAX_REVOKED];
        assert!(rt; read_revocation(&bytes[0..14], &mut receivers).is_ok());
        assert_eq!(rt; receivers.first_chunk(), Some(&[0, 5, 7]), "the receivers");
    }

    // The number of the refusal of the labels of a receiver of a tree of height 1, with one label of this place, or 0.
    fn labels_refusal(receiver: u8, first: u8, node: u8) -> u8 {
        let mut bytes = [0; 78];
        bytes[0] = 2;
        bytes[1] = 1;
        bytes[5] = receiver;
        bytes[41] = first;
        bytes[45] = node;
        number_in(read_labels(&bytes))
    }

    #[test]
    fn labels_are_refused_by_their_lowest_fault(rt: HostRuntime) {
        assert_eq!(rt;
            labels_refusal(0, 1, 3),
            0,
            "receiver 0 has the label of 3 under 1"
        );
        assert_eq!(rt; labels_refusal(1, 1, 2), 0, "receiver 1 has that of 2");
        assert_eq!(rt; labels_refusal(0, 1, 2), 6, "on its own way");
        assert_eq!(rt; labels_refusal(0, 3, 1), 6, "upside down");
        assert_eq!(rt;
            labels_refusal(2, 1, 3),
            2,
            "a receiver that is not in the tree"
        );
        assert_eq!(rt;
            labels_refusal(0, 1, 4),
            2,
            "a node that is not in the tree"
        );
        assert_eq!(rt; labels_refusal(0, 0, 3), 2, "no node");
        assert_eq!(rt;
            read_labels(b"\x02\x01\0\0\0\0").err(),
            Some(Fault::Malformed),
            "cut"
        );
    }

    fn part(first: u32, second: u32) -> Part {
        Part { first, second }
    }

    #[test]
    fn covers_are_refused_with_nothing_written(rt: HostRuntime) {
        let unwritten = part(7, 7);
        let mut out = [unwritten; 3];
        assert_eq!(rt;
            cover(3, &[0, 5, 6], &mut out),
            Err(Refusal::NoRoom),
            "too little room"
        );
        assert_eq!(rt;
            cover(3, &[5, 0], &mut out),
            Err(Refusal::Faulty(Fault::NotRising)),
            "falling"
        );
        assert_eq!(rt;
            cover(17, &[], &mut out),
            Err(Refusal::Faulty(Fault::OutOfRange)),
            "too high"
        );
        assert_eq!(rt; out, [unwritten; 3], "the memory is as it was");
        assert_eq!(rt; cover(3, &[0, 5], &mut out), Ok(2), "two parts");
        assert_eq!(rt; out, [part(2, 8), part(3, 13), unwritten]);
    }
}
