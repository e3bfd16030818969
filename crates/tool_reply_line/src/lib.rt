#![tactic(auto)]

// The line for the reply to a source: `accepted`, or for example `refused 8 at 26`; and the line with the spelling's numbers after these,
// `refused 8 at 26 1 26 1`.
ghost use Rattle.std.specs.Prelude.{[], ◌∷◌, ◌+◌, ◌<◌, ◌≤◌, length};
ghost use Rattle.program.specs.Refusal.{refusal};
ghost use Rattle.grammar.specs.Answer.{answer_line};
ghost use Rattle.tool_reply_line.specs.Promises.Line.{item, refused_text, spelled_line, LineWrote, Digits, Says};

// Writes a byte at a position, and returns the position after it.
fn put_byte(line: &mut [u8], at: usize, b: u8) -> usize
    requires { at < length line.old }
    ensures { LineWrote line.old at (b ∷ []) line.new result }
{
    line[at] = b;
    at + 1
}

// Writes a text from a position on, and returns the position after it.
fn put_text(line: &mut [u8], at: usize, text: &[u8]) -> usize
    requires { at + length text.now ≤ length line.old }
    ensures { LineWrote line.old at text.now line.new result }
{
    let end = at + text.len();
    line[at..end].copy_from_slice(text);
    end
}

// Writes the decimal digits of n from a position on, and returns the position after them.
fn put_digits(line: &mut [u8], at: usize, n: u32) -> usize
    requires { at + 10 ≤ length line.old }
    ensures { Digits line.old at n line.new result }
{
    if n < 10 {
        return put_byte(line, at, (48 + n) as u8);
    }
    let behind = put_digits(line, at, n / 10);
    put_byte(line, behind, (48 + n % 10) as u8)
}

// Writes a space and a number in decimal from a position on, and returns the position after them.
fn put_item(line: &mut [u8], at: usize, n: u32) -> usize
    requires { at + 11 ≤ length line.old }
    ensures { LineWrote line.old at (item n) line.new result }
{
    let behind = put_byte(line, at, b' ');
    put_digits(line, behind, n)
}

// Writes the number and the place of a refusal at the front of the buffer, and returns the position after them.
fn put_refused(line: &mut [u8], number: u32, place: u32) -> usize
    requires { 32 ≤ length line.old }
    ensures { LineWrote line.old 0 (refused_text (refusal number place)) line.new result }
{
    let a = put_text(line, 0, b"refused ");
    let b = put_digits(line, a, number);
    let c = put_text(line, b, b" at ");
    put_digits(line, c, place)
}

// Writes the line for a reply, at the front of the buffer, and returns its length.
pub fn write_line(number: u32, place: u32, line: &mut [u8]) -> usize
    requires { 33 ≤ length line.old }
    ensures { Says 33 (answer_line (refusal number place)) line.new result }
{
    if number == 0 {
        return put_text(line, 0, b"accepted\n");
    }
    let end = put_refused(line, number, place);
    put_byte(line, end, b'\n')
}

// Writes the line for a reply and, after the place of a refusal, where its spelling is, its first byte and its length; returns the line's length.
pub fn write_spelled(
    number: u32,
    place: u32,
    stands: u32,
    start: u32,
    len: u32,
    line: &mut [u8],
) -> usize
    requires { 66 ≤ length line.old }
    ensures { Says 66 (spelled_line (refusal number place) stands start len) line.new result }
{
    if number == 0 {
        return put_text(line, 0, b"accepted\n");
    }
    let a = put_refused(line, number, place);
    let b = put_item(line, a, stands);
    let c = put_item(line, b, start);
    let d = put_item(line, c, len);
    put_byte(line, d, b'\n')
}
