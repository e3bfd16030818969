#![tactic(auto)]

// Writes in one line whether the source on standard input is in the profile of rules that move a pixel once: `in the profile`, or the first rule that it
// misses, for example `misses rule 1: refused 8 at 26`.
use move_profile::{Missed, check_one_move};
use tool_text::read_full;
use value::limits::{NAME_WORDS, TABLE_WORDS};

// Writes the answer: the line of check_rule for a source that is refused.
fn tell(rt: &HostRuntime, answer: Result<(), Missed>) {
    let text = match answer {
        Ok(()) => "in the profile\n",
        Err(Missed::Refused(_)) => "misses rule 1: ",
        Err(Missed::NoFlag) => "misses rule 2: no field moved of range 0..1 that is not const\n",
        Err(Missed::OtherStatements) => {
            "misses rule 3: not one statement, if cell.moved = 0 then .. cell.moved := 1 end\n"
        }
    };
    let _ = rt.print(text);
    if let Err(Missed::Refused(refusal)) = answer {
        let mut line = [0u8; 33];
        let end = tool_reply_line::write_line(refusal.number, refusal.place, &mut line);
        let _ = rt.write_all(&line[..end.min(33)]);
    }
}

// One byte more is read than a source may have, so that a source that is too long is seen to be.
fn main(rt: HostRuntime) {
    let mut source = io::large_buffer();
    let n = read_full(&mut rt.stdin(), &mut source);
    let mut words = [0u32; TABLE_WORDS];
    let mut names = [0u32; NAME_WORDS];
    let list = spelling::BUILT_IN;
    let answer = check_one_move(&source[..n], &list, &mut words, &mut names);
    tell(&rt, answer);
}
