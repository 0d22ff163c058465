//! Reads of headers from sources that give single bytes, fail, or have no end.

use edf_header::{Header, Stop};
use edf_test_files::{edited, endless, is_reference};
use std::alloc::AllocError;
use std::test::Fail;

/// How many bytes a read gives at the most, and how many reads the header takes.
const READS: [(usize, u32); 2] = [(4096, 11), (1, 1024)];

#[test]
fn answers_each_failed_read(rt: HostRuntime) -> Result<(), AllocError> {
    let file = edited(rt.alloc(), &[])?;
    for (most, enough) in READS {
        for passes in 0..enough {
            let mut source = endless(&file, most, passes);
            let stop = Header::read(rt.alloc(), &mut source).err();
            assert_eq!(rt; (stop, source.failures), (Some(Stop::ReadFailed), 1));
        }
    }
    Ok(())
}

#[test]
fn takes_the_header_and_nothing_behind_it(rt: HostRuntime) -> Result<(), Fail> {
    let file = edited(rt.alloc(), &[])?;
    for (most, enough) in READS {
        let mut source = endless(&file, most, enough);
        let header = Header::read(rt.alloc(), &mut source)?;
        assert!(rt; is_reference(&header));
        assert_eq!(rt; (source.failures, source.given), (0, 1024));
    }
    Ok(())
}
