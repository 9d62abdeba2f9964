// What texts are written into: lent bytes, and the place up to which they are written. Each method writes behind that place, and moves it on.
#![tactic(auto)]

ghost use Rattle.std.specs.Prelude.{◌≡◌};
ghost use Rattle.text.specs.Decimal.{decimal};
ghost use Rattle.text.specs.Hex.{hex};
ghost use Rattle.text.specs.Line.{line_text};
ghost use Rattle.output.specs.Added.{Fits, Added};

// (No `Display` for messages, and no `Vec` or `String` to write into: there is no heap. So a buffer, and how far it is written.)
#[derive(Drop)]
pub struct Output<'a> {
    bytes: &'a mut [u8],
    at: usize,
}

impl<'a> Output<'a> {
    // Nothing is written yet.
    pub fn new(bytes: &'a mut [u8]) -> Output<'a>
        ensures same { result.bytes.ghost_name ≡ bytes.entry.ghost_name }
        ensures begins { result.at ≡ 0 }
        ensures bytes { result.bytes.now ≡ bytes.old }
    {
        Output { bytes, at: 0 }
    }

    // How many bytes are written.
    pub fn len(&self) -> usize
        ensures { result ≡ self.now.at }
    {
        self.at
    }

    // (`Fits` is of the text that is written: each method and writer asks it of its own.)
    pub fn put(&mut self, text: &[u8])
        requires { Fits self.old text.now }
        ensures { Added self.old text.now self.new }
    {
        let bytes = &mut *self.bytes;
        self.at = print::put(bytes, self.at, text);
    }

    // The digits of a number.
    pub fn number(&mut self, x: u32)
        requires { Fits self.old (decimal x) }
        ensures { Added self.old (decimal x) self.new }
    {
        let bytes = &mut *self.bytes;
        self.at = print::write_number(bytes, self.at, x);
    }

    // Bytes as hex digits.
    pub fn hex(&mut self, bytes: &[u8])
        requires { Fits self.old (hex bytes.now) }
        ensures { Added self.old (hex bytes.now) self.new }
    {
        let to = &mut *self.bytes;
        self.at = in_hex::write_hex(to, self.at, bytes);
    }

    // A line: its key, a number, and LF.
    #[tactic(auto, using(crate::proofs::AddedLaws::parts), unfolding(text::specs::Line::line_text))]
    pub fn line(&mut self, key: &[u8], x: u32)
        requires { Fits self.old (line_text key.now x) }
        ensures { Added self.old (line_text key.now x) self.new }
    {
        self.put(key);
        self.number(x);
        self.put(b"\n");
    }
}
