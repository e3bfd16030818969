// The arguments of a program, and why it goes no further.
ghost use Rattle.std.specs.Prelude.{◌≡◌, ◌<◌, ◌≤◌, ◌↔◌, [], length, min, All, IfOk, IfSome, IfErr, IsErr, Err};
ghost use Rattle.std.specs.IoError.{error_kind};
ghost use Rattle.std.specs.declared.io.ErrorKind.TheVariants.{OutOfMemory};
ghost use Rattle.tool_console.specs.declared.arguments.Refusal.TheVariants.{Said, Memory};

use crate::texts::complain;
use std::alloc::AllocError;
use std::array::from_fn;
use std::env::FillError;
use std::fmt::Display;
use std::rt::Env;

// The longest argument that is a word, a number or a shape.
pub const WORD: usize = 64;

// How many arguments are looked at: more than a program takes.
const MOST: usize = 16;

// Why a program goes no further.
#[derive(Clone, Copy, Debug, PartialEq, Eq)]
pub enum Refusal {
    // An argument or a file cannot be taken, which has been said.
    Said,
    // There is no memory.
    Memory,
}

impl From<AllocError> for Refusal {
    ghost from_gives = { λ _ refusal. refusal ≡ Memory };

    fn from(_error: AllocError) -> Refusal {
        Refusal::Memory
    }
}

// Says on standard error why a program goes no further.
pub fn refuse<D: Display + Drop>(rt: &HostRuntime, why: D) -> Refusal
    ensures said { result ≡ Said }
{
    complain(rt, why);
    Refusal::Said
}

// What a `main` that asks for memory returns: what has been said is no error.
pub fn end(outcome: Result<(), Refusal>) -> std::io::Result<()>
    ensures memory { IsErr result ↔ outcome ≡ Err Memory }
    ensures kind { IfErr result (λ error. error_kind error ≡ OutOfMemory) }
{
    match outcome {
        Err(Refusal::Memory) => Err(std::io::Error::from(AllocError)),
        Ok(()) | Err(Refusal::Said) => Ok(()),
    }
}

// An argument that the program was started with, by its number. It is read where it is used, so that none takes room longer than that, and need not be UTF-8.
#[derive(Clone, Copy, Debug, PartialEq, Eq)]
pub struct Argument(usize);

impl Argument {
    // Whether there is such an argument.
    fn is_there(self, rt: &HostRuntime) -> bool {
        !matches!(rt.arg(self.0, &mut [0u8; 1]), Err(FillError::NotPresent))
    }

    // The argument, put at the start of a buffer: empty, if it is longer than that.
    pub fn read<'a>(self, rt: &HostRuntime, buffer: &'a mut [u8]) -> &'a [u8]
        ensures { length result.now ≤ length buffer.old }
    {
        match rt.arg(self.0, buffer) {
            Ok(n) => &buffer[..n],
            Err(_) => &[],
        }
    }

    // Whether the argument is a word.
    pub fn is(self, rt: &HostRuntime, word: &[u8]) -> bool {
        let mut buffer = [0u8; WORD];
        self.read(rt, &mut buffer) == word
    }
}

// The arguments that the program was started with, its own name first, as far as they are looked at.
#[derive(Clone, Copy, Debug, PartialEq, Eq)]
pub struct Given {
    all: [Argument; MOST],
    count: usize,
}

impl Given {
    pub fn as_slice(&self) -> &[Argument]
        ensures { length result.now ≡ min self.now.count 16 }
    {
        &self.all[..self.count.min(MOST)]
    }
}

// The arguments that the program was started with, as far as they are looked at. It asks for no memory: each is read where it is used.
pub fn given_arguments(rt: &HostRuntime) -> Given {
    let all = from_fn(Argument);
    let count = all
        .iter()
        .take_while(|argument| argument.is_there(rt))
        .count();
    Given { all, count }
}

// The argument with a number, empty if it is longer than a path may be; nothing if it is missing.
fn copied(rt: &HostRuntime, i: usize) -> Result<Option<Vec<u8>>, AllocError>
    ensures short { IfOk result (λ some. IfSome some (λ argument. length argument.items ≤ 4096)) }
{
    let mut buffer = io::buffer();
    match rt.arg(i, &mut buffer) {
        Ok(n) => Ok(Some(buffer[..n].to_vec(rt.alloc())?)),
        Err(FillError::TooLong) => Ok(Some(Vec::new(rt.alloc()))),
        Err(FillError::NotPresent) => Ok(None),
    }
}

// All arguments that the program was started with, its own name first, copied. They need not be UTF-8. One that is longer than a path may be, 4096 bytes, is
// empty.
pub fn arguments(rt: &HostRuntime) -> Result<Vec<Vec<u8>>, AllocError>
    ensures short { IfOk result (λ all. All (λ argument. length argument.items ≤ 4096) all.items) }
{
    let mut all: Vec<Vec<u8>> = Vec::new(rt.alloc());
    for i in 0..usize::MAX {
        let Some(argument) = copied(rt, i)? else {
            break;
        };
        all.push(argument)?;
    }
    Ok(all)
}

// An argument as a word, a number or a shape: no text, if it is longer than these may be.
pub fn word(argument: &[u8]) -> &[u8]
    ensures short { length argument.now ≤ 64 → result.now ≡ argument.now }
    ensures long { 64 < length argument.now → result.now ≡ [] }
{
    if argument.len() <= WORD {
        argument
    } else {
        &[]
    }
}
