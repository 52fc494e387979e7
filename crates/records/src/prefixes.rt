// An address of 32 bits of which the first few count.
ghost use Rattle.std.specs.Prelude.{◌≡◌, ◌-◌, ◌^◌, ◌≤◌};

#[derive(Clone, Copy)]
pub struct Prefix {
    pub address: u32,
    pub len: u8,
    pub ghost short: { len ≤ 32 },
}

impl Prefix {
    ghost use Rattle.bits.specs.Masks.{mask_of};
    ghost use Rattle.records.specs.Prefixes.{addr_match, beyond?};

    // How many addresses have the same first bits.
    fn size(self) -> u64
        ensures { result ≡ 2 ^ (32 - self.len) }
    {
        1u64 << (32 - self.len)
    }

    // A bit of the address is set behind those that count.
    pub fn beyond(self) -> bool
        ensures { result ≡ beyond? self.address self.len }
    {
        u64::from(self.address) % self.size() != 0
    }

    // The bits that count are the same in x.
    pub fn matches(self, x: u32) -> bool
        ensures { result ≡ addr_match self.address self.len x }
    {
        u64::from(x) / self.size() == u64::from(self.address) / self.size()
    }

    // A 1 for each bit that counts.
    pub fn mask(self) -> u32
        ensures { result ≡ mask_of 32 (32 - self.len) }
    {
        (4294967296 - self.size()) as u32
    }
}
