// Text, put piece by piece into a lent slice; what there is no room for is left out.
ghost use Rattle.std.specs.Prelude.{◌≡◌, ◌≤◌, [], ◌∷◌, length};
ghost use Rattle.laws.specs.Program.{decimal, count_line, word_line};

// A lent slice, and where in it the text ends.
#[derive(Drop)]
pub struct Text<'a> {
    out: &'a mut [u8],
    pub end: usize,
    ghost within: { end ≤ length out.now },
}

impl<'a> Text<'a> {
    ghost use Rattle.rung_check.specs.Putting.{Adds};

    pub(crate) fn new(out: &'a mut [u8]) -> Text<'a>
        ensures same_reference { result.out.ghost_name ≡ out.entry.ghost_name }
        ensures slice { result.out.now ≡ out.old }
        ensures empty { result.end ≡ 0 }
    {
        Text { out, end: 0 }
    }

    // One byte behind the text.
    pub(crate) fn put(&mut self, byte: u8)
        ensures { Adds (byte ∷ []) self.old self.new }
    {
        if self.end < self.out.len() {
            self.out[self.end] = byte;
            self.end += 1;
        }
    }

    pub(crate) fn put_text(&mut self, text: &[u8])
        ensures { Adds text.now self.old self.new }
    {
        for byte in text {
            self.put(*byte);
        }
    }

    // A number in decimal digits: those of its tenth, then its last one.
    pub(crate) fn put_number(&mut self, x: u64)
        ensures { Adds (decimal x) self.old self.new }
    {
        if 10 <= x {
            self.put_number(x / 10);
        }
        self.put(b'0' + (x % 10) as u8);
    }

    // The line of a count, behind its text.
    pub(crate) fn put_count(&mut self, text: &[u8], count: u64)
        ensures { Adds (count_line text.now count) self.old self.new }
    {
        self.put_text(text);
        self.put_number(count);
        self.put(b'\n');
    }

    // The line of a word: its name, then its letters, a space before each.
    pub(crate) fn put_word(&mut self, name: u8, word: &[u8])
        ensures { Adds (word_line name word.now) self.old self.new }
    {
        self.put(name);
        for letter in word {
            self.put(b' ');
            self.put_number(u64::from(*letter));
        }
        self.put(b'\n');
    }
}
