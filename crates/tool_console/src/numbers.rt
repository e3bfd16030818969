// Whole numbers in a text.

// A whole number as far as it is read: before it, after its sign, or within its digits, which are so large.
#[derive(Clone, Copy, Debug, PartialEq, Eq)]
pub enum Number {
    Before,
    Sign { negative: bool },
    Digits { negative: bool, size: u32 },
}

impl Number {
    // The number with a digit more, if its size stays below 2147483650.
    fn longer(self, digit: u8) -> Option<Number> {
        let (negative, size) = match self {
            Number::Before => (false, 0),
            Number::Sign { negative } => (negative, 0),
            Number::Digits { negative, size } => (negative, size),
        };
        if size > 214748364 {
            return None;
        }
        Some(Number::Digits {
            negative,
            size: size * 10 + u32::from(digit),
        })
    }

    // The number with a byte more, if a number can go on so.
    pub fn next(self, b: u8) -> Option<Number> {
        match b {
            b'-' | b'+' if self == Number::Before => Some(Number::Sign {
                negative: b == b'-',
            }),
            b'0'..=b'9' => self.longer(b - b'0'),
            _ => None,
        }
    }

    // The number that a whole text is.
    pub fn read(text: &[u8]) -> Option<Number> {
        text.iter()
            .try_fold(Number::Before, |number, b| number.next(*b))
    }

    // The value of a number that has been read.
    pub fn value(self) -> Option<i32> {
        let Number::Digits { negative, size } = self else {
            return None;
        };
        let size = i64::from(size);
        i32::try_from(if negative { -size } else { size }).ok()
    }
}

// The value that a whole text is.
pub fn value_in(text: &[u8]) -> Option<i32> {
    Number::read(text)?.value()
}

// The count that a whole text is.
pub fn count_in(text: &[u8]) -> Option<u32> {
    u32::try_from(value_in(text)?).ok()
}
