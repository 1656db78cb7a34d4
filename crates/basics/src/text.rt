// Bytes, numbers, fields and lines put one behind another into a lent text; the callers show that there is room.
ghost use Rattle.std.specs.Prelude.{◌≡◌, [], ◌∷◌, ◌+◌, ◌≤◌, ◌<◌, length};
ghost use Rattle.basics.specs.Text.{decimal, field, line};
ghost use Rattle.basics.specs.Writer.{Puts};

// Bytes that part fields, and end lines.
const TAB: u8 = b'\t';

pub const LINE_END: u8 = b'\n';

// Where bytes go, and the place of the next.
#[derive(Drop)]
pub struct Writer<'a> {
    pub text: &'a mut [u8],
    pub at: usize,
}

impl Writer<'_> {
    pub fn byte(&mut self, b: u8)
        requires { self.old.at < length self.old.text.now }
        ensures { Puts self.old self.new (b ∷ []) }
    {
        self.text[self.at] = b;
        self.at += 1;
    }

    pub fn bytes(&mut self, bytes: &[u8])
        requires { self.old.at + length bytes.now ≤ length self.old.text.now }
        ensures { Puts self.old self.new bytes.now }
    {
        let end = self.at + bytes.len();
        self.text[self.at..end].copy_from_slice(bytes);
        self.at = end;
    }

    // A number in base ten.
    pub fn decimal(&mut self, n: usize)
        requires { self.old.at + length (decimal n) ≤ length self.old.text.now }
        ensures { Puts self.old self.new (decimal n) }
    {
        if n < 10 {
            self.byte(b'0' + n as u8);
            return;
        }
        self.decimal(n / 10);
        self.byte(b'0' + (n % 10) as u8);
    }

    // A field that holds a number.
    pub fn field(&mut self, n: usize)
        requires { self.old.at + length (field (decimal n)) ≤ length self.old.text.now }
        ensures { Puts self.old self.new (field (decimal n)) }
    {
        self.byte(TAB);
        self.decimal(n);
    }

    // A line of a word and two numbers.
    #[tactic(auto, using(crate::proofs::WriterLaws::line_length))]
    pub fn line(&mut self, word: &[u8], a: usize, b: usize)
        requires { self.old.at + length (line word.now (decimal a ∷ decimal b ∷ [])) ≤ length self.old.text.now }
        ensures { Puts self.old self.new (line word.now (decimal a ∷ decimal b ∷ [])) }
    {
        self.bytes(word);
        self.field(a);
        self.field(b);
        self.byte(LINE_END);
    }
}
