// What the programs share of the world outside: their arguments, and files that are read as far as a
// lent buffer goes. Which bytes come from there no contract can say; how many, each does.
//
// Whatever can't be had counts as empty: a program answers to no bytes as it does to any others.
#![tactic(auto)]

ghost use Rattle.std.specs.Fn.{FnReturnsAt};
ghost use Rattle.std.specs.Prelude.{◌≡◌, ◌≤◌, List, ℕ, length, take, Err, IfErr, IfSome};
ghost use Rattle.std.specs.Io.KnownBytes.{Consumes};

use std::env::FillError;
use std::fs::File;
use std::io::Read;
use std::rt::{Env, Files};
use std::{io, str};

// 4,096 zeros, which hold any name, any image that is accepted, and the lines that are put together at
// once.
pub fn buffer() -> [u8; 4096]
    ensures { length result ≡ 4096 }
{
    [0; 4096]
}

// 65,536 zeros, which hold any text that is read, and a block's drives or lines.
pub fn large_buffer() -> [u8; 65536]
    ensures { length result ≡ 65536 }
{
    [0; 65536]
}

// Argument i at the start of the buffer, and how long it is; nothing where there is no such argument.
// One that is longer than the buffer counts as empty, since a name that is cut short names another file.
pub fn argument(env: &impl Env, i: usize, buffer: &mut [u8]) -> Option<usize>
    ensures { IfSome result (λ n. n ≤ length buffer.new) }
{
    match env.arg(i, buffer) {
        Ok(n) => Some(n),
        Err(FillError::TooLong) => Some(0),
        Err(FillError::NotPresent) => None,
    }
}

// Each argument after the program's own name, up to the first call that fails. What the call failed with
// is what comes of it, and nothing else does. Which arguments there are no clause can say: that each is
// acted on is there to be read, and the test below has it.
pub fn for_each_argument<F: Fn(&[u8]) -> io::Result<()>>(env: &impl Env, act: F) -> io::Result<()>
    requires { F.IsAlwaysCallable act }
    ensures { IfErr result (λ e. (name : List ℕ) × (length name ≤ 4096) × FnReturnsAt F.Fn act name (Err e)) }
{
    for i in 1..usize::MAX {
        let mut name = buffer();
        let Some(n) = argument(env, i, &mut name) else {
            break;
        };
        act(&name[..n])?;
    }
    Ok(())
}

// The file of this name, for reading, if it can be opened. Names are text here: bytes that aren't UTF-8
// name no file.
pub fn open<R: Files>(files: &R, name: &[u8]) -> Option<R::File> {
    let text = str::from_utf8(name).ok()?;
    File::open(files, text).ok()
}

// Bytes of an input at the start of the buffer, and how many: as many as it has room for, unless the
// input ends or a read fails before.
pub fn fill<R: Read>(input: &mut R, buffer: &mut [u8]) -> usize
    ensures within { result ≤ length buffer.new }
    ensures bytes { Consumes (R.remaining input.old) (R.remaining input.new) (take result buffer.new) }
{
    let mut done: usize = 0;
    while done < buffer.len() {
        match input.read(&mut buffer[done..]) {
            Ok(0) => break,
            Ok(n) => done += n,
            Err(_) => break,
        }
    }
    done
}

// The same of the file of this name, from its beginning: its bytes, in the buffer that is lent for them.
pub fn read_into<'a>(files: &impl Files, name: &[u8], buffer: &'a mut [u8]) -> &'a [u8]
    ensures { length result.now ≤ length buffer.old }
{
    let n = match open(files, name) {
        Some(mut file) => fill(&mut file, buffer),
        None => 0,
    };
    &buffer[..n]
}

#[cfg(test)]
mod tests {
    use super::*;

    // Gives three bytes and then two, and fails from then on.
    #[derive(Drop)]
    struct Failing {
        reads: u8,
    }

    impl Read for Failing {
        fn read(&mut self, buffer: &mut [u8]) -> io::Result<usize> {
            if buffer.len() < 3 {
                return Ok(0);
            }
            buffer[0] = b'x';
            buffer[1] = b'y';
            buffer[2] = b'z';
            match self.reads {
                0 => {
                    self.reads = 1;
                    Ok(3)
                }
                1 => {
                    self.reads = 2;
                    Ok(2)
                }
                _ => Err(io::Error::other("no more")),
            }
        }
    }

    // The name and one argument, of five bytes.
    struct Given;

    impl Env for Given {
        fn arg(&self, i: usize, buffer: &mut [u8]) -> Result<usize, FillError> {
            if 2 <= i {
                return Err(FillError::NotPresent);
            }
            if buffer.len() < 5 {
                return Err(FillError::TooLong);
            }
            buffer[0] = b'g';
            Ok(5)
        }

        fn var(&self, _name: &str, _buffer: &mut [u8]) -> Result<usize, FillError> {
            Err(FillError::NotPresent)
        }

        fn var_at(&self, _i: usize, _buffer: &mut [u8]) -> Result<usize, FillError> {
            Err(FillError::NotPresent)
        }
    }

    #[test]
    fn reads_up_to_a_failure(rt: HostRuntime) {
        let mut buffer = [0u8; 8];
        let mut input = Failing { reads: 0 };
        let n = fill(&mut input, &mut buffer);
        assert_eq!(rt; n, 5);
        assert_eq!(rt; &buffer[..n], b"xyzxy".as_slice());
    }

    #[test]
    fn reads_as_far_as_there_is_room(rt: HostRuntime) {
        let mut buffer = [0u8; 4];
        let mut input: &[u8] = b"abcdef";
        assert_eq!(rt; fill(&mut input, &mut buffer), 4);
        assert_eq!(rt; &buffer[..], b"abcd".as_slice());
        assert_eq!(rt; fill(&mut input, &mut buffer), 2);
        assert_eq!(rt; &buffer[..], b"efcd".as_slice());
    }

    #[test]
    fn tells_arguments_apart(rt: HostRuntime) {
        let mut buffer = [0u8; 5];
        assert_eq!(rt; argument(&Given, 1, &mut buffer), Some(5));
        assert_eq!(rt; argument(&Given, 1, &mut buffer[..4]), Some(0));
        assert_eq!(rt; argument(&Given, 2, &mut buffer), None);
    }

    #[test]
    fn goes_through_the_arguments(rt: HostRuntime) {
        let none = |_: &[u8]| Ok(());
        assert!(rt; for_each_argument(&Given, none).is_ok(), "no call fails");
        let given = |name: &[u8]| {
            if name == b"g\0\0\0\0".as_slice() {
                return Err(io::Error::other("the argument"));
            }
            Ok(())
        };
        assert!(rt;
            for_each_argument(&Given, given).is_err(),
            "the one call fails"
        );
    }

    #[test]
    fn reads_files(rt: HostRuntime) {
        let mut bytes = buffer();
        assert_eq!(rt; read_into(&rt, b"/dev/zero", &mut bytes).len(), 4096);
        assert_eq!(rt; read_into(&rt, b"/dev/null", &mut bytes).len(), 0);
        assert_eq!(rt; read_into(&rt, b"/nowhere/at all", &mut bytes).len(), 0);
        assert_eq!(rt; read_into(&rt, b"", &mut bytes).len(), 0);
        assert_eq!(rt; read_into(&rt, b"/dev/zero\xff", &mut bytes).len(), 0);
    }

    #[test]
    fn hands_back_what_it_read(rt: HostRuntime) {
        let mut bytes = *b"abcd";
        assert_eq!(rt; read_into(&rt, b"/dev/null", &mut bytes), b"".as_slice());
        assert_eq!(rt;
            read_into(&rt, b"/dev/zero", &mut bytes),
            b"\0\0\0\0".as_slice()
        );
    }
}
