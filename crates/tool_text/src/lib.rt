#![tactic(auto)]

// Input that is read into a room.
ghost use Rattle.io.specs.Counts.{IsPrefixLen};

use std::io::Read;

// Reads until a room is full, the input ends or a read fails; how many bytes are at the start of the room then.
pub fn read_full<R: Read>(input: &mut R, room: &mut [u8]) -> usize
    ensures { IsPrefixLen result room.new }
{
    let mut done = 0;
    while done < room.len() {
        match input.read(&mut room[done..]) {
            Ok(0) | Err(_) => return done,
            Ok(n) => done += n,
        }
    }
    done
}
