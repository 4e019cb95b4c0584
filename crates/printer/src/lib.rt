// A page: a lent buffer that texts and numbers, decimal and hexadecimal, are appended to.

#![tactic(auto)]

ghost use Rattle.std.specs.Prelude.{◌≡◌, ◌+◌, ◌≤◌, ◌++◌, length};
ghost use Rattle.printer.specs.Decimal.{number_size, decimal};
ghost use Rattle.printer.specs.Numbers.{hex_size, hexadecimal};
ghost use Rattle.printer.specs.Page.{Room, Begun, Appended};

// The most bytes of a number of 64 bits in decimal.
const NUMBER_SIZE: usize = 20;

// And in hexadecimal.
const HEX_SIZE: usize = 16;

// A buffer, and where the text that it holds ends.
#[derive(Drop)]
pub struct Page<'a> {
    pub out: &'a mut [u8],
    pub end: usize,
}

impl<'a> Page<'a> {
    // Begins at the start of a buffer.
    pub fn new(out: &'a mut [u8]) -> Page<'a>
        ensures same { result.out.ghost_name ≡ out.entry.ghost_name }
        ensures begun { Begun out.old result }
    {
        Page { out, end: 0 }
    }

    // Appends a text.
    pub fn text(&mut self, text: &[u8])
        requires { Room self.old (length text.now) }
        ensures { Appended self.old text.now self.new }
    {
        let end = self.end + text.len();
        self.out[self.end..end].copy_from_slice(text);
        self.end = end;
    }

    // Appends a number in decimal.
    pub fn decimal(&mut self, n: u64)
        requires { Room self.old number_size }
        ensures appended { Appended self.old (decimal n) self.new }
        ensures upper_bound { self.new.end ≤ self.old.end + number_size }
    {
        let mut digits = [0u8; NUMBER_SIZE];
        let count = io::decimal(n, &mut digits);
        self.text(&digits[..count]);
    }

    // Appends a number in hexadecimal.
    pub fn hexadecimal(&mut self, n: u64)
        requires { Room self.old hex_size }
        ensures appended { Appended self.old (hexadecimal n) self.new }
        ensures upper_bound { self.new.end ≤ self.old.end + hex_size }
    {
        let mut digits = [0u8; HEX_SIZE];
        let count = io::hex(n, 1, &mut digits);
        self.text(&digits[..count]);
    }

    // Appends a text and a number behind it.
    pub fn keyed(&mut self, key: &[u8], n: u64)
        requires { Room self.old (length key.now + number_size) }
        ensures appended { Appended self.old (key.now ++ decimal n) self.new }
        ensures upper_bound { self.new.end ≤ self.old.end + length key.now + number_size }
    {
        self.text(key);
        self.decimal(n);
    }

    // Appends a text and a number in hexadecimal behind it.
    pub fn address(&mut self, key: &[u8], n: u64)
        requires { Room self.old (length key.now + hex_size) }
        ensures appended { Appended self.old (key.now ++ hexadecimal n) self.new }
        ensures upper_bound { self.new.end ≤ self.old.end + length key.now + hex_size }
    {
        self.text(key);
        self.hexadecimal(n);
    }

    // Appends a number between two texts.
    pub fn number(&mut self, key: &[u8], n: u64, tail: &[u8])
        requires { Room self.old (length key.now + number_size + length tail.now) }
        ensures appended { Appended self.old (key.now ++ decimal n ++ tail.now) self.new }
        ensures upper_bound { self.new.end ≤ self.old.end + length key.now + number_size + length tail.now }
    {
        self.keyed(key, n);
        self.text(tail);
    }
}
