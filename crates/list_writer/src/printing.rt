// A room for text: bytes and numbers are put one behind another. A byte after the room's end is counted and not put.
ghost use Rattle.std.specs.Prelude.{◌≡◌, [], ◌∷◌, map, ◌+◌, ◌<◌, ◌≤◌, length};
ghost use Rattle.std.proofs.Math.Option.{some};
ghost use Rattle.value.specs.Worked.{decode_of};
ghost use Rattle.list_meaning.specs.Writing.{print_number, print_value, print_field, listed, shown};
ghost use Rattle.list_meaning.specs.Promises.Showing.{field_shown};
ghost use Rattle.list_writer.specs.Promises.Printing.{Put, PutDigits, separator};

use value::Value;

// A room, and how many bytes were put.
#[derive(Drop)]
pub struct Room<'a> {
    bytes: &'a mut [u8],
    at: usize,
}

impl<'a> Room<'a> {
    // A room where nothing was put yet.
    pub fn new(bytes: &'a mut [u8]) -> Room<'a>
        ensures same_reference { result.bytes.ghost_name ≡ bytes.entry.ghost_name }
        ensures bytes { result.bytes.now ≡ bytes.old }
        ensures start { result.at ≡ 0 }
    {
        Room { bytes, at: 0 }
    }

    // How many bytes were put.
    pub fn count(&self) -> usize
        ensures { result ≡ self.now.at }
    {
        self.at
    }

    // Puts a byte.
    pub fn push(&mut self, b: u8)
        requires { self.old.at < 4294967296 }
        ensures same_reference { self.new.bytes.ghost_name ≡ self.old.bytes.ghost_name }
        ensures puts { Put self.old (b ∷ []) self.new }
    {
        if self.at < self.bytes.len() {
            self.bytes[self.at] = b;
        }
        self.at += 1;
    }

    // Puts the decimal digits of a number.
    fn digits(&mut self, n: u32)
        requires { self.old.at + 10 ≤ 4294967296 }
        ensures same_reference { self.new.bytes.ghost_name ≡ self.old.bytes.ghost_name }
        ensures puts { PutDigits self.old n self.new }
    {
        if n < 10 {
            self.push((48 + n) as u8);
            return;
        }
        self.digits(n / 10);
        self.push((48 + n % 10) as u8);
    }

    // Puts a number.
    pub fn number(&mut self, n: u32)
        requires { self.old.at + 10 ≤ 4294967296 }
        ensures same_reference { self.new.bytes.ghost_name ≡ self.old.bytes.ghost_name }
        ensures puts { Put self.old (print_number n) self.new }
    {
        self.digits(n);
    }

    // Puts the value that a word stands for.
    #[tactic(auto, using(crate::proofs::PrintingLaws::word_plain, crate::proofs::PrintingLaws::word_signed))]
    fn word(&mut self, word: u32)
        requires { self.old.at + 11 ≤ 4294967296 }
        ensures same_reference { self.new.bytes.ghost_name ≡ self.old.bytes.ghost_name }
        ensures puts { Put self.old (print_value (decode_of word)) self.new }
    {
        if word < 2147483648 {
            self.number(word);
        } else {
            self.push(b'-');
            self.number(4294967295 - word + 1);
        }
    }

    // Puts a value.
    fn value(&mut self, z: i32)
        requires { self.old.at + 11 ≤ 4294967296 }
        ensures same_reference { self.new.bytes.ghost_name ≡ self.old.bytes.ghost_name }
        ensures puts { Put self.old (print_value z) self.new }
    {
        let v = Value { n: z };
        self.word(v.encode());
    }

    // Puts a comma and a space before every text but the first.
    fn separator(&mut self, k: usize)
        requires { self.old.at + 2 ≤ 4294967296 }
        ensures same_reference { self.new.bytes.ghost_name ≡ self.old.bytes.ghost_name }
        ensures puts { Put self.old (separator k) self.new }
    {
        if k != 0 {
            self.push(b',');
            self.push(b' ');
        }
    }

    // Puts the coordinates of a cell.
    pub fn numbers(&mut self, numbers: &[u32])
        requires { (length numbers.now ≤ 3) × (self.old.at + 36 ≤ 4294967296) }
        ensures same_reference { self.new.bytes.ghost_name ≡ self.old.bytes.ghost_name }
        ensures puts { Put self.old (listed (map print_number numbers.now)) self.new }
    {
        for (k, &n) in numbers.iter().enumerate() {
            self.separator(k);
            self.number(n);
        }
    }

    // Puts a field's value; a flag that is 0 is missing.
    fn field(&mut self, z: i32, flag: bool)
        requires { self.old.at + 11 ≤ 4294967296 }
        ensures same_reference { self.new.bytes.ghost_name ≡ self.old.bytes.ghost_name }
        ensures puts { Put self.old (print_field (field_shown flag z)) self.new }
    {
        if flag && z == 0 {
            return;
        }
        self.value(z);
    }

    // Puts the values of a cell. `flag` is the number of the field that serves as flag; after the last field it is none.
    pub fn values(&mut self, values: &[i32], flag: usize)
        requires { (length values.now ≤ 64) × (self.old.at + 832 ≤ 4294967296) }
        ensures same_reference { self.new.bytes.ghost_name ≡ self.old.bytes.ghost_name }
        ensures puts { Put self.old (listed (map print_field (shown (some flag) values.now))) self.new }
    {
        for (k, &z) in values.iter().enumerate() {
            self.separator(k);
            self.field(z, k == flag);
        }
    }
}
