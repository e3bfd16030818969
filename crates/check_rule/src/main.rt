#![tactic(auto)]

// Checks the source on standard input, and writes one line: `accepted`, or for example `refused 8 at 26`.
use tool_text::read_full;
use value::limits::TABLE_WORDS;

// One byte more is read than a source may have, so that a source that is too long is seen to be.
fn main(rt: HostRuntime) {
    let mut source = io::large_buffer();
    let n = read_full(&mut rt.stdin(), &mut source);
    let mut words = [0u32; TABLE_WORDS];
    let list = spelling::BUILT_IN;
    let names = api_naming::no_names();
    let reply = api_naming::check(&source[..n], &list, &mut words, names);
    let mut line = [0u8; 33];
    let end = tool_reply_line::write_line(reply.number, reply.place, &mut line);
    let _ = rt.write_all(&line[..end.min(33)]);
}
