//! The digest of what a source handed on, beside the examples of FIPS 180-4.

use edf_fields::{FaultySource, ReadFault, SliceSource, Source, fill};
use edf_receipt::{DigestSource, Digested, digest_of};
use std::process::Abort;

/// Messages with their digests: the empty one, and those of one block and of two in the standard's examples.
const EXAMPLES: &[(&[u8], [u8; 32])] = &[
    (
        b"",
        [
            0xe3, 0xb0, 0xc4, 0x42, 0x98, 0xfc, 0x1c, 0x14, 0x9a, 0xfb, 0xf4, 0xc8, 0x99, 0x6f,
            0xb9, 0x24, 0x27, 0xae, 0x41, 0xe4, 0x64, 0x9b, 0x93, 0x4c, 0xa4, 0x95, 0x99, 0x1b,
            0x78, 0x52, 0xb8, 0x55,
        ],
    ),
    (
        b"abc",
        [
            0xba, 0x78, 0x16, 0xbf, 0x8f, 0x01, 0xcf, 0xea, 0x41, 0x41, 0x40, 0xde, 0x5d, 0xae,
            0x22, 0x23, 0xb0, 0x03, 0x61, 0xa3, 0x96, 0x17, 0x7a, 0x9c, 0xb4, 0x10, 0xff, 0x61,
            0xf2, 0x00, 0x15, 0xad,
        ],
    ),
    (
        b"abcdbcdecdefdefgefghfghighijhijkijkljklmklmnlmnomnopnopq",
        [
            0x24, 0x8d, 0x6a, 0x61, 0xd2, 0x06, 0x38, 0xb8, 0xe5, 0xc0, 0x26, 0x93, 0x0c, 0x3e,
            0x60, 0x39, 0xa3, 0x3c, 0xe4, 0x59, 0x64, 0xff, 0x21, 0x67, 0xf6, 0xec, 0xed, 0xd4,
            0x19, 0xdb, 0x06, 0xc1,
        ],
    ),
];

/// Reads a message by so many bytes at a time, and asserts its digest.
fn assert_digest(rt: &impl Abort, message: &[u8], most: usize, digest: [u8; 32]) {
    let inner = FaultySource::new(SliceSource::new(message), u64::MAX, most.max(1));
    let mut source = DigestSource::new(inner);
    let mut buf = [0; 64];
    let expected = Digested {
        bytes: message.len() as u64,
        sha256: digest,
    };
    assert_eq!(rt; source.finish(&mut buf), Ok(expected));
    assert_eq!(rt; source.digested(), expected);
    assert_eq!(rt; digest_of(message), expected);
}

#[test]
fn digests_the_standards_examples(rt: HostRuntime) {
    for (message, digest) in EXAMPLES {
        for most in [1, 7, 64] {
            assert_digest(&rt, message, most, *digest);
        }
    }
}

#[test]
fn digests_what_was_handed_on_alone(rt: HostRuntime) {
    let mut source = DigestSource::new(SliceSource::new(b"abcdefgh"));
    let mut buf = [0; 3];
    assert_eq!(rt; source.digested().sha256, EXAMPLES[0].1);
    assert_eq!(rt; fill(&mut source, &mut buf), Ok(3));
    assert_eq!(rt; &buf[..], "abc".as_bytes());
    let expected = Digested {
        bytes: 3,
        sha256: EXAMPLES[1].1,
    };
    assert_eq!(rt; source.digested(), expected);
}

#[test]
fn hands_on_a_failed_read(rt: HostRuntime) {
    let mut source = DigestSource::new(FaultySource::new(SliceSource::new(b"abcdefgh"), 2, 2));
    let mut buf = [0; 4];
    assert_eq!(rt; source.read(&mut buf), Ok(2));
    assert_eq!(rt; source.finish(&mut buf), Err(ReadFault));
    assert_eq!(rt; source.digested().bytes, 4);
    assert_eq!(rt; source.read(&mut buf), Err(ReadFault));
}
