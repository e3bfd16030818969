#![tactic(auto)]

// Entries of a slice that a caller lends for a call's numbers.
ghost use Rattle.std.specs.Prelude.{◌≡◌, [], ◌∷◌, set};
ghost use Rattle.api_entries.specs.Over.{over};

// Writes numbers to the first entries, as far as there is room for them; the others stay.
pub fn put_front<T: Copy>(entries: &mut [T], numbers: &[T])
    ensures { entries.new ≡ over numbers.now entries.old }
{
    let n = entries.len().min(numbers.len());
    entries[..n].copy_from_slice(&numbers[..n]);
}

// Writes a reply to the first entries: its number and place, and where its spelling is.
pub fn put_reply(entries: &mut [u32], number: u32, place: u32, stands: u32, start: u32, len: u32)
    ensures { entries.new ≡ over (number ∷ place ∷ stands ∷ start ∷ len ∷ []) entries.old }
{
    put_front(entries, &[number, place, stands, start, len]);
}

// Writes a run's numbers to the first entries, where its reply's spelling is, and the line of the value list.
pub fn put_report(
    entries: &mut [u64],
    number: u32,
    place: u32,
    cell: u32,
    steps: u32,
    count: u64,
    stands: u32,
    start: u32,
    len: u32,
    line: u64,
)
    ensures { entries.new ≡ over (number ∷ place ∷ cell ∷ steps ∷ count ∷ stands ∷ start ∷ len ∷ line ∷ []) entries.old }
{
    put_front(
        entries,
        &[
            number as u64,
            place as u64,
            cell as u64,
            steps as u64,
            count,
            stands as u64,
            start as u64,
            len as u64,
            line,
        ],
    );
}

// Writes the writer's numbers to the first entries, and where its reply's spelling is.
pub fn put_written(
    entries: &mut [u64],
    number: u32,
    place: u32,
    length: u64,
    stands: u32,
    start: u32,
    len: u32,
)
    ensures { entries.new ≡ over (number ∷ place ∷ length ∷ stands ∷ start ∷ len ∷ []) entries.old }
{
    put_front(
        entries,
        &[
            number as u64,
            place as u64,
            length,
            stands as u64,
            start as u64,
            len as u64,
        ],
    );
}

// Writes to the first entries whether a source is in the profile.
pub fn put_profile(entries: &mut [u32], rule: u32, number: u32, place: u32)
    ensures { entries.new ≡ over (rule ∷ number ∷ place ∷ []) entries.old }
{
    put_front(entries, &[rule, number, place]);
}

// Writes to the first entries what the planner returns.
pub fn put_planned(
    entries: &mut [u32],
    number: u32,
    place: u32,
    bands: u32,
    stands: u32,
    start: u32,
    len: u32,
)
    ensures { entries.new ≡ over (number ∷ place ∷ bands ∷ stands ∷ start ∷ len ∷ []) entries.old }
{
    put_front(entries, &[number, place, bands, stands, start, len]);
}

// Writes to the first entries how many border rows there are.
pub fn put_borders(
    entries: &mut [u32],
    number: u32,
    place: u32,
    before: u32,
    behind: u32,
    stands: u32,
    start: u32,
    len: u32,
)
    ensures { entries.new ≡ over (number ∷ place ∷ before ∷ behind ∷ stands ∷ start ∷ len ∷ []) entries.old }
{
    put_front(
        entries,
        &[number, place, before, behind, stands, start, len],
    );
}

// Writes a comparison to the first entries.
pub fn put_comparison(entries: &mut [u32], number: u32, total: u32)
    ensures { entries.new ≡ over (number ∷ total ∷ []) entries.old }
{
    put_front(entries, &[number, total]);
}

// Writes to the first entries what row counts answer.
pub fn put_rows(entries: &mut [u64], number: u32, value: u64)
    ensures { entries.new ≡ over (number ∷ value ∷ []) entries.old }
{
    put_front(entries, &[number as u64, value]);
}
