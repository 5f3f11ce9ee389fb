use crate::fail_at::FailAt;
use devices::{ReadFault, ReadSource, Source, WriteSink, read_within, write_all};
use std::io;

/// One byte a read, so many of them.
#[derive(Drop)]
struct Bytewise {
    left: usize,
}

impl io::Read for Bytewise {
    fn read(&mut self, buf: &mut [u8]) -> io::Result<usize> {
        if self.left == 0 || buf.is_empty() {
            return Ok(0);
        }
        buf[0] = b'x';
        self.left -= 1;
        Ok(1)
    }
}

#[test]
fn limits_of_bytes_and_reads(rt: HostRuntime) {
    for (left, bytes, reads, found) in [
        (3, 3, 4, true),
        (3, 2, 4, false),
        (3, 3, 3, false),
        (0, 0, 1, true),
        (0, 0, 0, false),
    ] {
        let mut source = ReadSource::new(Bytewise { left });
        match read_within(rt.alloc(), &mut source, bytes, reads) {
            Ok(text) => assert_eq!(rt; text.is_some(), found),
            Err(_) => panic!(rt; "a source that doesn't fail"),
        }
    }
}

#[test]
fn a_read_that_fails(rt: HostRuntime) {
    for call in 0..4 {
        let source = ReadSource::new(Bytewise { left: 3 });
        let mut source = FailAt::new(source, call);
        assert!(rt;
            matches!(
                read_within(rt.alloc(), &mut source, 9, 9),
                Err(ReadFault::ReadFailed)
            )
        );
        let mut rest = [0; 4];
        assert!(rt; source.read(&mut rest).is_ok());
    }
}

#[test]
fn a_write_that_fails(rt: HostRuntime) {
    let out = WriteSink::new(Vec::new(rt.alloc()));
    let mut sink = FailAt::new(out, 1);
    assert!(rt; write_all(&mut sink, b"one").is_ok());
    assert!(rt; write_all(&mut sink, b"two").is_err());
    assert!(rt; write_all(&mut sink, b"six").is_ok());
}
