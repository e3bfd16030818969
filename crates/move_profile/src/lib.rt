#![tactic(auto)]

// The profile of sources that move a pixel once: whether a source is in it, and the field of its flag.
ghost use Rattle.std.specs.Prelude.{◌≡◌, length};
ghost use Rattle.value.specs.Limits.{name_words};
ghost use Rattle.grammar.specs.Checking.{rooms_fit};
ghost use Rattle.grammar.specs.Promises.Flat.{lent_fit};
ghost use Rattle.program.specs.Promises.Fitting.{Sized};
ghost use Rattle.move_meaning.specs.Profile.{missed};
ghost use Rattle.move_profile.specs.Promises.Public.{answer_told};
ghost use Rattle.move_profile.specs.Promises.Flags.{FlagOf, RuleMissed, CheckOneMove};

mod fields;
mod moves;

use fields::flag_field;
use moves::moves_once;
use program::Rule;
use program::reply::{Reason, Refusal};
use read_source::load;
use spelling::is_built_in;

// Why a source is not in the profile: the first rule that it misses.
#[derive(Clone, Copy, Debug, PartialEq, Eq)]
pub enum Missed {
    // Rule 1: the source is refused.
    Refused(Refusal),
    // Rule 2: no field is named `moved`, not const and of the range 0..1.
    NoFlag,
    // Rule 3: the statements do not move a pixel once.
    OtherStatements,
}

// The answer as numbers: that of the first rule that a source misses, 0 for none; and the number and place of the reply where the source is
// refused, else 0.
#[derive(Clone, Copy, Debug, PartialEq, Eq)]
pub struct Profile {
    pub rule: u32,
    pub number: u32,
    pub place: u32,
}

impl From<Result<(), Missed>> for Profile {
    ghost from_gives = { λ r p. missed p.rule p.number p.place ≡ answer_told r };

    fn from(answer: Result<(), Missed>) -> Self {
        let none = Refusal {
            number: 0,
            place: 0,
        };
        let (rule, refusal) = match answer {
            Ok(()) => (0, none),
            Err(Missed::Refused(refusal)) => (1, refusal),
            Err(Missed::NoFlag) => (2, none),
            Err(Missed::OtherStatements) => (3, none),
        };
        Profile {
            rule,
            number: refusal.number,
            place: refusal.place,
        }
    }
}

// The flag of an accepted source that was read into words and names: its field's number, if the source is in the profile, else the number of fields.
#[tactic(auto, using(crate::proofs::FlagLaws::Flags))]
pub fn flag_of(source: &[u8], words: &[u32], names: &[u32], rule: Rule) -> u32
    requires { (Sized (length words.now) rule) × (length names.now ≡ name_words) }
    ensures { FlagOf source.now words.now names.now rule result }
{
    let field = flag_field(source, words, names, rule);
    if field == rule.fields {
        return field;
    }
    if moves_once(words, rule.tokens, field, rule.body) {
        return field;
    }
    rule.fields
}

// Whether an accepted source keeps the other rules.
#[tactic(auto, using(crate::proofs::FlagLaws::Misses))]
fn rule_missed(source: &[u8], words: &[u32], names: &[u32], rule: Rule) -> Result<(), Missed>
    requires { (Sized (length words.now) rule) × (length names.now ≡ name_words) }
    ensures { RuleMissed source.now words.now names.now rule result }
{
    if flag_field(source, words, names, rule) == rule.fields {
        return Err(Missed::NoFlag);
    }
    if flag_of(source, words, names, rule) == rule.fields {
        return Err(Missed::OtherStatements);
    }
    Ok(())
}

// Reads the source first, where the built-in list is the one there is.
fn check_listed(source: &[u8], words: &mut [u32], names: &mut [u32]) -> Result<(), Missed>
    ensures { CheckOneMove (rooms_fit (length words.old) (length names.old)) source.now words.old names.old result words.new names.new }
{
    match load(source, words, names) {
        Ok(rule) => rule_missed(source, words, names, rule),
        Err(refusal) => Err(Missed::Refused(refusal)),
    }
}

// Whether a source is in the profile. The table and the list of names are left as the check of the source leaves them.
pub fn check_one_move(
    source: &[u8],
    list: &[u8],
    words: &mut [u32],
    names: &mut [u32],
) -> Result<(), Missed>
    ensures { CheckOneMove (lent_fit list.now (length words.old) (length names.old)) source.now words.old names.old result words.new names.new }
{
    if !is_built_in(list) {
        return Err(Missed::Refused(Refusal::new(Reason::Buffers, 0)));
    }
    check_listed(source, words, names)
}
