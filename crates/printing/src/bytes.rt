// What is printed: a page with the place where the next byte goes. A byte behind the end of the page is left out, and the place goes on all the same, so
// that the last place tells whether all of them fitted. That the place is 0, or not far on, is asked for and not held: it is so up to the first bytes only.
ghost use Rattle.std.specs.Prelude.{◌≡◌, [], ◌∷◌, ◌++◌, ◌+◌, ◌≤◌, ◌<◌, length};
ghost use Rattle.printing.specs.Output.{decimal};
ghost use Rattle.printing.specs.Laid.{Put};

#[derive(Drop)]
pub struct Output<'a> {
    page: &'a mut [u8],
    pub at: usize,
}

impl<'a> Output<'a> {
    pub fn new(page: &'a mut [u8]) -> Output<'a>
        ensures same_page { result.page.ghost_name ≡ page.entry.ghost_name }
        ensures bytes { result.page.now ≡ page.old }
        ensures place { result.at ≡ 0 }
    {
        Output { page, at: 0 }
    }

    pub fn put(&mut self, byte: u8)
        requires { self.old.at < 1000000 }
        ensures { Put self.old (byte ∷ []) self.new }
    {
        if self.at < self.page.len() {
            self.page[self.at] = byte;
        }
        self.at += 1;
    }

    pub fn put_word(&mut self, word: &[u8])
        requires { (self.old.at ≤ 100000) × (length word.now ≤ 100000) }
        ensures { Put self.old word.now self.new }
    {
        for byte in word {
            self.put(*byte);
        }
    }

    // A number in decimal: its last digit stands after the others. By hand, since `write!` promises nothing where it fails, and no clause says that it does
    // not; what `print_sheet` promises holds always. A digit is cast, since it is below 10.
    fn put_decimal(&mut self, n: u32)
        requires { self.old.at ≤ 100000 }
        ensures { Put self.old (decimal n) self.new × (self.new.at ≤ self.old.at + 10) }
    {
        if n < 10 {
            return self.put(b'0' + n as u8);
        }
        self.put_decimal(n / 10);
        self.put(b'0' + (n % 10) as u8);
    }

    // A number and the byte after it.
    pub fn put_number(&mut self, n: u32, end: u8)
        requires { self.old.at ≤ 100000 }
        ensures { Put self.old (decimal n ++ (end ∷ [])) self.new × (self.new.at ≤ self.old.at + 11) }
    {
        self.put_decimal(n);
        self.put(end);
    }
}
