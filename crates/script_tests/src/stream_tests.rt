//! What becomes of a writer's fault.
use script_program::streams::Output;
use sock_pair::script::Sink;
use std::io;
use std::io::Write;
use std::test::Fail;

// A writer that takes all bytes, and cannot write them out.
#[derive(Drop)]
struct Full;

impl Write for Full {
    fn write(&mut self, buf: &[u8]) -> io::Result<usize> {
        Ok(buf.len())
    }

    fn flush(&mut self) -> io::Result<()> {
        Err(io::Error::from(io::ErrorKind::StorageFull))
    }
}

// A flush that fails is answered, and noted, though each write before it was done.
#[test]
fn a_flush_that_fails(rt: HostRuntime) -> Result<(), Fail> {
    let mut output = Output::new(Full);
    assert!(rt; output.write_all(b"done\n").is_ok());
    assert!(rt; !output.failed());
    assert!(rt; output.flush().is_err());
    assert!(rt; output.failed());
    Ok(())
}
