// Arguments of a system that is made up.
use md_program::failure::Failure;
use md_program::system::arguments;
use std::env::{Env, FillError};
use std::test::Fail;

// A system with these arguments, the program's name first.
#[derive(Clone, Copy)]
struct Given<'a>(&'a [&'a [u8]]);

impl Env for Given<'_> {
    fn arg(&self, i: usize, buf: &mut [u8]) -> Result<usize, FillError> {
        let Some(arg) = self.0.get(i) else {
            return Err(FillError::NotPresent);
        };
        if arg.len() > buf.len() {
            return Err(FillError::TooLong);
        }
        let count = arg.len();
        buf[..count].copy_from_slice(arg);
        Ok(count)
    }

    fn var(&self, _name: &str, _buf: &mut [u8]) -> Result<usize, FillError> {
        Err(FillError::NotPresent)
    }

    fn var_at(&self, _i: usize, _buf: &mut [u8]) -> Result<usize, FillError> {
        Err(FillError::NotPresent)
    }
}

#[test]
fn leaves_out_the_name(rt: HostRuntime) -> Result<(), Fail> {
    let words: &[&[u8]] = &[b"blocks", b"gfm", b""];
    let args = arguments(&(Given(words), rt.alloc()))?;
    assert!(rt;
        matches!(args.as_slice(), [first, second] if first.as_str() == "gfm" && second.is_empty())
    );
    let none = arguments(&(Given(&[]), rt.alloc()))?;
    assert!(rt; none.is_empty());
    Ok(())
}

#[test]
fn arguments_that_are_no_text_are_unknown(rt: HostRuntime) {
    let given: &[&[u8]] = &[b"blocks", b"\xff"];
    let read = arguments(&(Given(given), rt.alloc()));
    assert!(rt; read.err() == Some(Failure::UnknownArgument));
}
