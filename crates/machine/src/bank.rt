// The register file.
ghost use Rattle.std.specs.Prelude.{◌≡◌, replicate, slice_index};
ghost use Rattle.machine.specs.Registers.{reg, with_reg};

// 256 registers of 64 bits. Register 0 reads as 0 and drops what is written, so that it always holds 0.
#[derive(Drop)]
pub struct Bank {
    regs: [u64; 256],
    ghost zero: { slice_index regs 0 ≡ 0 },
}

impl Bank {
    pub fn new() -> Bank
        ensures { result.regs ≡ replicate 256 0 }
    {
        Bank { regs: [0; 256] }
    }

    // All registers become 0.
    pub fn clear(&mut self)
        ensures { self.new.regs ≡ replicate 256 0 }
    {
        self.regs = [0; 256];
    }

    pub fn read(&self, register: u8) -> u64
        ensures { result ≡ reg self.now.regs register }
    {
        self.regs[usize::from(register)]
    }

    pub fn write(&mut self, to: u8, value: u64)
        ensures { self.new.regs ≡ with_reg self.old.regs to value }
    {
        if to != 0 {
            self.regs[usize::from(to)] = value;
        }
    }
}
