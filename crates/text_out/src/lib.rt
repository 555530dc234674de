// Bytes, texts and numbers put into a lent buffer: where the caller has shown that there is room, or as far as there is
// room.
#![tactic(auto)]

ghost use Rattle.std.specs.Prelude.{[], ◌∷◌, ◌+◌, ◌≤◌, length, ◌≡◌};
ghost use Rattle.text_out.specs.Decimal.{digit, decimal};
ghost use Rattle.text_out.specs.Outs.{then_put};

// A lent buffer, and the place where the next byte goes.
#[derive(Drop)]
pub struct Out<'a> {
    pub bytes: &'a mut [u8],
    pub at: usize,
}

impl<'a> Out<'a> {
    // Bytes, where there is room for them. No other byte changes.
    #[tactic(auto, using(crate::proofs::Outs::room_put))]
    pub fn put_bytes(&mut self, bytes: &[u8])
        requires { self.old.at + length bytes.now ≤ length self.old.bytes.now }
        ensures { self.new ≡ then_put self.old bytes.now }
    {
        let end = self.at + bytes.len();
        self.bytes[self.at..end].copy_from_slice(bytes);
        self.at = end;
    }

    // One byte. Past the end of the buffer it is lost, and the place stays.
    #[tactic(auto, using(crate::proofs::Outs::byte_put, crate::proofs::Outs::no_room))]
    pub fn put_byte(&mut self, byte: u8)
        ensures { self.new ≡ then_put self.old (byte ∷ []) }
    {
        if self.at < self.bytes.len() {
            self.bytes[self.at] = byte;
            self.at += 1;
        }
    }

    // Bytes, as far as there is room.
    #[tactic(auto, using(crate::proofs::Outs::then_put_both, crate::proofs::Outs::then_put_nothing))]
    pub fn put_text(&mut self, bytes: &[u8])
        ensures { self.new ≡ then_put self.old bytes.now }
    {
        for &byte in bytes {
            self.put_byte(byte);
        }
    }

    // The digit of a number for a unit that it reaches.
    // kept: digit by digit, since `write!` ends with an error where room ends, and here what fits is put.
    #[tactic(auto, using(crate::proofs::Outs::no_digit, crate::proofs::Outs::a_digit))]
    fn put_digit(&mut self, n: u16, unit: u16)
        requires { 1 ≤ unit }
        ensures { self.new ≡ then_put self.old (digit unit n) }
    {
        if unit <= n {
            self.put_byte(b'0' + (n / unit % 10) as u8);
        }
    }

    // A number in decimal, as far as there is room.
    #[tactic(auto, using(crate::proofs::Outs::then_put_both), unfolding(crate::specs::Decimal::decimal))]
    pub fn put_number(&mut self, n: u16)
        ensures { self.new ≡ then_put self.old (decimal n) }
    {
        self.put_digit(n, 10000);
        self.put_digit(n, 1000);
        self.put_digit(n, 100);
        self.put_digit(n, 10);
        self.put_byte(b'0' + (n % 10) as u8);
    }
}
