// Bytes and numbers written into a buffer, from a place on. Bytes past the end of the buffer are dropped, so texts that are written one
// after the other need no test of the room between them. Numbers are printed by hand: the contracts of `Display` and `LowerHex` say
// what is written where the result is `Ok`, but not when it is `Ok`. (The kit's crates `itoa` and `hex` say both; the port takes std alone: docs/DECISIONS.md.)
ghost use Rattle.std.specs.Prelude.{[], ◌∷◌, ◌++◌, ◌≡◌, ◌<◌};
ghost use Rattle.text.specs.Write as Write;

// A buffer, and the place at which the next byte goes.
#[derive(Drop)]
pub struct Writer<'a> {
    pub out: &'a mut [u8],
    pub at: usize,
}

// The last hexadecimal digit of n, in lower case.
fn digit(n: u64) -> u8
    ensures { result ≡ Write.digit n }
{
    let digits = b"0123456789abcdef";
    digits[(n % 16) as usize]
}

impl Writer<'_> {
    ghost use Rattle.text.specs.Writer.{Writes};

    pub fn byte(&mut self, b: u8)
        ensures { Writes self.old (b ∷ []) self.new }
    {
        if self.at < self.out.len() {
            self.out[self.at] = b;
            self.at += 1;
        }
    }

    // Byte by byte: with `copy_from_slice` of what fits, printing a sheet took up to 1 % more instructions, and the proof was longer.
    pub fn bytes(&mut self, text: &[u8])
        ensures { Writes self.old text.now self.new }
    {
        for b in text {
            self.byte(*b);
        }
    }

    // n in decimal, with no zeros in front. All digits but the first are found from the last on, and kept in an array. A function that
    // calls itself needs no such array and no index, but then the writer lies in memory, and a sheet is printed by a tenth more instructions.
    pub fn decimal(&mut self, n: u64)
        ensures { Writes self.old (Write.decimal n) self.new }
    {
        let mut digits = [0u8; 20];
        let mut first = 20;
        let mut left = n;
        while left >= 10 {
            first -= 1;
            digits[first] = digit(left % 10);
            left /= 10;
        }
        self.byte(digit(left));
        self.bytes(&digits[first..]);
    }

    // A bit pattern, as eight hexadecimal digits, listed as in the definition. (`from_fn` was tried: the eight places are then listed in its proof, which
    // is twice as long as these lines.)
    pub fn pattern(&mut self, bits: u32)
        ensures { Writes self.old (Write.pattern bits) self.new }
    {
        let n = bits as u64;
        self.bytes(&[
            digit(n >> 28),
            digit(n >> 24),
            digit(n >> 20),
            digit(n >> 16),
            digit(n >> 12),
            digit(n >> 8),
            digit(n >> 4),
            digit(n),
        ]);
    }

    // A number and the byte after it.
    pub fn number(&mut self, n: u64, after: u8)
        ensures { Writes self.old (Write.decimal n ++ after ∷ []) self.new }
    {
        self.decimal(n);
        self.byte(after);
    }

    // The line that a refused input gets: the refusal's number, and the line of the input.
    pub fn refused(&mut self, refusal: u32, line: u64)
        ensures { Writes self.old (Write.refused refusal line) self.new }
    {
        self.bytes(b"refused,");
        self.number(refusal as u64, b',');
        self.number(line, b'\n');
    }
}
