//! The fields of a line, which are taken one by one. What one has that it can't have reads as 0, and the line is then not right.

/// What is left of a line.
#[derive(Clone, Copy)]
pub struct Fields<'a> {
    rest: &'a str,
    is_right: bool,
}

impl<'a> Fields<'a> {
    /// Those of a line between single blanks. Blanks before it count for nothing, and a line that begins with # has none.
    pub fn of(line: &'a str) -> Fields<'a> {
        let line = line.trim_start();
        Fields {
            rest: if line.starts_with('#') { "" } else { line },
            is_right: true,
        }
    }

    /// Whether each field that was taken is what it was taken for.
    pub fn is_right(&self) -> bool {
        self.is_right
    }

    /// The line isn't right unless this is so.
    pub fn require(&mut self, condition: bool) {
        self.is_right = self.is_right && condition;
    }

    /// All that is left.
    pub fn rest(&self) -> &'a str {
        self.rest
    }

    /// The next field, which is empty behind the last one.
    pub fn take(&mut self) -> &'a str {
        let (field, rest) = self.rest.split_once(' ').unwrap_or((self.rest, ""));
        self.rest = rest;
        field
    }

    /// The next field as a decimal number.
    pub fn decimal(&mut self) -> u64 {
        match self.take().parse::<u64>() {
            Ok(number) => number,
            Err(_) => {
                self.is_right = false;
                0
            }
        }
    }

    /// Puts the bytes of hexadecimal digits, as many as there is room for.
    pub fn decode(&mut self, digits: &str, into: &mut [u8]) {
        self.require(hex::decode_to_slice(digits, into).is_ok());
    }

    /// Puts the bytes of the next field.
    pub fn put(&mut self, into: &mut [u8]) {
        let digits = self.take();
        self.decode(digits, into);
    }

    /// The next field as a byte of two digits.
    pub fn byte(&mut self) -> u8 {
        let mut bytes = [0; 1];
        self.put(&mut bytes);
        bytes[0]
    }

    /// The next field as a number of four digits.
    pub fn word(&mut self) -> u16 {
        let mut bytes = [0; 2];
        self.put(&mut bytes);
        u16::from_be_bytes(bytes)
    }
}
