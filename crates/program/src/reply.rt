// The replies of refusals and faults: the reasons, each with its number, and a reply with its place.
ghost use Rattle.std.specs.Prelude.{◌≡◌};
ghost use Rattle.program.specs.Reason.{reason_number};
ghost use Rattle.program.specs.Refusal.{refusal};
ghost use Rattle.program.specs.Promises.Faults.{fault_reason};

use value::Fault;

// A reason. As a number it is the reply's.
#[derive(Clone, Copy, Debug, PartialEq, Eq, Hash)]
pub enum Reason {
    // The word table, the name list or the built-in list is wrong.
    Buffers = 1,
    // The source is longer than 65,535 bytes.
    LongSource = 2,
    // No token can be read.
    NoToken = 3,
    // A literal over 2,147,483,647.
    LargeLiteral = 4,
    // More than 4,096 tokens.
    ManyTokens = 5,
    // A form of the language that is not taken, or a field's name is missing.
    OtherForm = 6,
    // A token that the grammar does not allow there.
    NotAllowed = 7,
    // A name that is unknown, or of the wrong sort for a constant or an index.
    UnknownName = 8,
    // A name that is already used, or that cannot be assigned to.
    UsedName = 9,
    // Wrong use of a field, an array constant or a relative index.
    WrongUse = 12,
    // A relation on a bare relation.
    BareRelation = 13,
    // More than 16 open `if`, `forall`, `(` and `[` together.
    DeepNesting = 14,
    // More than 256 names.
    ManyNames = 15,
    // The shape is not that of the rule, or has a wrong size or too many cells.
    Shape = 20,
    // The grid does not have as many entries as cells times fields.
    GridLength = 21,
    // The start or the steps are negative, or their sum is over 2,147,483,647.
    Times = 22,
    // An index that is larger than its dimension.
    LargeIndex = 23,
    // A field of the grid is out of its range.
    FieldRange = 24,
    // The result of an operation is out of range.
    OutOfRange = 30,
    // A divisor is zero.
    ZeroDivisor = 31,
    // An array index is out of range.
    ArrayIndex = 32,
    // An assigned value is outside the field.
    AssignedValue = 33,
    // The number of dimensions is not 1 to 3.
    Dimensions = 40,
    // A range whose upper bound is below its lower one.
    EmptyRange = 41,
    // A loop over more than 4,096 values.
    LongLoop = 42,
    // More than 8 fields.
    ManyFields = 43,
    // An array's size that is not 1 to 1,024.
    ArraySize = 44,
    // An array constant with too many or too few values.
    ArrayValues = 45,
    // A line of the value list cannot be read.
    UnreadLine = 50,
    // The place of a line lies outside the grid.
    OutsideGrid = 51,
    // More values than fields.
    ManyValues = 52,
    // A listed value out of its field's range.
    ListedValue = 53,
    // The time of a line does not rise.
    TimeNotRising = 54,
    // The time of a line is before the start.
    TimeBeforeStart = 55,
    // The time of a line is past start plus steps.
    TimePastEnd = 56,
    // The room is shorter than the text.
    ShortRoom = 57,
    // The rule moves a pixel once, and the line gives moved 0.
    UnsetFlag = 58,
    // Fewer rows can be held than a band of one row needs.
    NoPlan = 59,
    // The plan of bands is not right.
    WrongPlan = 60,
    // No such field for the row counts, or not one count a row.
    RowCounts = 61,
    // No row has a zero.
    NoZeroRow = 62,
}

impl Reason {
    // The number of the reply.
    pub fn number(self) -> u32
        ensures { result ≡ reason_number self }
    {
        self as u32
    }
}

// The fault of an operation as a reason.
impl From<Fault> for Reason {
    ghost from_gives = { λ f r. r ≡ fault_reason f };

    fn from(fault: Fault) -> Self {
        match fault {
            Fault::OutOfRange => Reason::OutOfRange,
            Fault::ZeroDivisor => Reason::ZeroDivisor,
        }
    }
}

// The reply of a refusal or a fault: its number and its place in the source.
#[derive(Clone, Copy, Debug, PartialEq, Eq, Hash)]
pub struct Refusal {
    pub number: u32,
    pub place: u32,
}

impl Refusal {
    // Refused for a reason at a place.
    pub fn new(reason: Reason, place: u32) -> Refusal
        ensures { result ≡ refusal (reason_number reason) place }
    {
        Refusal {
            number: reason.number(),
            place,
        }
    }
}
