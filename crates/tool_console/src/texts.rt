// Text that is written, and files that are opened and read.
ghost use Rattle.std.specs.Prelude.{◌≡◌, IfErr};
ghost use Rattle.tool_console.specs.declared.arguments.Refusal.TheVariants.{Said};

use crate::arguments::{Refusal, refuse};
use std::fmt::Display;
use std::fs::File;
use std::io::{Error, ErrorKind, Read, Result, Stdin, Stdout, Write};
use tool_text::read_full;

// What is read: standard input, or a file that was opened.
// Kept: only Drop, since it holds an open file.
#[derive(Drop)]
pub enum Source {
    Standard(Stdin),
    Named(File),
}

impl Read for Source {
    fn read(&mut self, buf: &mut [u8]) -> Result<usize> {
        match self {
            Source::Standard(input) => input.read(buf),
            Source::Named(file) => file.read(buf),
        }
    }
}

// What is written: standard output, or a file that was opened.
// Kept: only Drop, since it holds an open file.
#[derive(Drop)]
pub enum Target {
    Standard(Stdout),
    Named(File),
}

impl Write for Target {
    fn write(&mut self, buf: &[u8]) -> Result<usize> {
        match self {
            Target::Standard(output) => output.write(buf),
            Target::Named(file) => file.write(buf),
        }
    }

    fn flush(&mut self) -> Result<()> {
        match self {
            Target::Standard(output) => output.flush(),
            Target::Named(file) => file.flush(),
        }
    }
}

// Writes to standard output. What cannot be written there is let go. It is not inlined, so that one caller has no more than one buffer for text on the stack.
#[inline(never)]
pub fn say<D: Display + Drop>(rt: &HostRuntime, value: D) {
    let _ = rt.print(value);
}

// Writes bytes that need not be text to standard output.
pub fn say_bytes(rt: &HostRuntime, bytes: &[u8]) {
    let _ = Print::write_all(rt, bytes);
}

// Writes to standard error.
#[inline(never)]
pub fn complain<D: Display + Drop>(rt: &HostRuntime, value: D) {
    let _ = rt.eprint(value);
}

// Writes bytes that need not be text to standard error.
pub fn complain_bytes(rt: &HostRuntime, bytes: &[u8]) {
    let _ = Print::write_all(&rt.stderr(), bytes);
}

// The words of an error's text, without the system's number for it, which std puts after them.
fn words_of(text: &str) -> &str {
    text.split_once(" (os error ")
        .map_or(text, |(words, _)| words)
}

// Writes a line to standard error: what failed, as the caller names it, a colon and the error's text.
pub fn fail(rt: &HostRuntime, what: &[u8], error: &Error) -> Refusal
    ensures said { result ≡ Said }
{
    complain_bytes(rt, what);
    complain(rt, ": ");
    if let Ok(text) = format!(in rt.alloc(); "{error}") {
        complain(rt, words_of(text.as_str()));
    }
    complain(rt, "\n");
    Refusal::Said
}

// Opens the file that has a path, which is UTF-8 text here. If that cannot be done, it is said.
fn opened<F: FnOnce(&str) -> Result<File>>(
    rt: &HostRuntime,
    path: &[u8],
    opening: F,
) -> std::result::Result<File, Refusal>
    requires { F.IsAlwaysCallable opening }
    ensures said { IfErr result (λ refusal. refusal ≡ Said) }
{
    if path.is_empty() {
        return Err(refuse(rt, "the name of a file is empty or too long\n"));
    }
    let file = match std::str::from_utf8(path) {
        Ok(name) => opening(name),
        Err(_) => Err(Error::from(ErrorKind::InvalidFilename)),
    };
    match file {
        Ok(file) => Ok(file),
        Err(error) => Err(fail(rt, path, &error)),
    }
}

// Opens a file to read it, `-` for standard input.
pub fn open_input(rt: &HostRuntime, path: &[u8]) -> std::result::Result<Source, Refusal>
    ensures said { IfErr result (λ refusal. refusal ≡ Said) }
{
    if path == b"-".as_slice() {
        return Ok(Source::Standard(rt.stdin()));
    }
    let file = opened(rt, path, |name| File::open(rt, name))?;
    Ok(Source::Named(file))
}

// Opens a file to write it anew, `-` for standard output.
pub fn open_output(rt: &HostRuntime, path: &[u8]) -> std::result::Result<Target, Refusal>
    ensures said { IfErr result (λ refusal. refusal ≡ Said) }
{
    if path == b"-".as_slice() {
        return Ok(Target::Standard(rt.stdout()));
    }
    let file = opened(rt, path, |name| File::create(rt, name))?;
    Ok(Target::Named(file))
}

// Reads a file, as much as there is room for. If it cannot be read, that is said, with the argument's name.
pub fn read_file<'a>(
    rt: &HostRuntime,
    path: &[u8],
    name: &str,
    room: &'a mut [u8],
) -> std::result::Result<&'a [u8], Refusal>
    ensures said { IfErr result (λ refusal. refusal ≡ Said) }
{
    let mut file = open_input(rt, path)?;
    let first = match file.read(room) {
        Ok(first) => first,
        Err(error) => return Err(fail(rt, name.as_bytes(), &error)),
    };
    let more = read_full(&mut file, &mut room[first..]);
    Ok(&room[..first + more])
}
