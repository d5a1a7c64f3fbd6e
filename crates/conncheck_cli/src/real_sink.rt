// Standard output.
ghost use Rattle.std.specs.Prelude.{None};
ghost use Rattle.shelf_io.specs.Cause.{Rose};

use shelf_io::{Sink, SinkError};

/// Standard output. What it took is not told.
#[derive(Drop)]
pub struct RealSink<'a, R: Print> {
    rt: &'a R,
    faults: u64,
}

impl<'a, R: Print> RealSink<'a, R> {
    /// Takes no memory.
    pub fn new(rt: &'a R) -> RealSink<'a, R> {
        RealSink { rt, faults: 0 }
    }
}

// Writes on until all is taken. A write that takes nothing is a fault.
fn write_each<R: Print>(rt: &R, bytes: &[u8]) -> Result<(), SinkError> {
    let mut rest = bytes;
    while !rest.is_empty() {
        match rt.write_some(rest) {
            Ok(0) | Err(_) => return Err(SinkError::Failed),
            Ok(count) => rest = &rest[count..],
        }
    }
    Ok(())
}

impl<R: Print> Sink for RealSink<'_, R> {
    ghost taken = { λ _. None };

    ghost faults = { λ s. s.faults };

    fn write_all(&mut self, bytes: &[u8]) -> Result<(), SinkError> {
        match write_each(self.rt, bytes) {
            Ok(()) => Ok(()),
            Err(error) => {
                self.faults = self.faults.saturating_add(1);
                Err(error)
            }
        }
    }
}

#[cfg(test)]
mod tests {
    use crate::real_sink::RealSink;
    use shelf_io::Sink;
    use std::fmt::Display;
    use std::io;
    use std::test::Fail;

    // Takes nothing.
    struct Closed;

    impl Print for Closed {
        fn print<D: Display + Drop>(&self, _: D) -> io::Result<()> {
            Ok(())
        }

        fn println<D: Display + Drop>(&self, _: D) -> io::Result<()> {
            Ok(())
        }

        fn write_all(&self, _: &[u8]) -> io::Result<()> {
            Ok(())
        }

        fn write_some(&self, _: &[u8]) -> io::Result<usize> {
            Ok(0)
        }
    }

    #[test]
    fn standard_output(rt: HostRuntime) -> Result<(), Fail> {
        let mut sink = RealSink::new(&rt);
        assert!(rt; sink.write_all(b"taken by the sink\n").is_ok());
        assert!(rt; sink.write_all(b"").is_ok());
        assert_eq!(rt; sink.faults, 0);
        let mut closed = RealSink::new(&Closed);
        assert!(rt; closed.write_all(b"lost").is_err());
        assert_eq!(rt; closed.faults, 1);
        Ok(())
    }
}
