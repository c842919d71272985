// The file header.
ghost use Rattle.std.specs.Prelude.{◌≡◌, ◌+◌, ◌≤◌, ◌<◌, length, take, drop};
ghost use Rattle.base_lists.specs.Windows.{spliced};
ghost use Rattle.elf_records.specs.Header.{elf_at, elf_bytes, HalfFields};

use base_fields::ByteOrder;

#[derive(Clone, Copy)]
pub struct ElfHeader {
    pub e_ident: [u8; 16],
    pub e_type: u32,
    pub e_machine: u32,
    pub e_version: u32,
    pub e_entry: u32,
    pub e_phoff: u32,
    pub e_shoff: u32,
    pub e_flags: u32,
    pub e_ehsize: u32,
    pub e_phentsize: u32,
    pub e_phnum: u32,
    pub e_shentsize: u32,
    pub e_shnum: u32,
    pub e_shstrndx: u32,
}

// The sixteen bytes of e_ident.
fn identification(s: &[u8], at: usize) -> [u8; 16]
    requires { at + 16 ≤ length s.now }
    ensures { result ≡ take 16 (drop at s.now) }
{
    let mut ident = [0u8; 16];
    for i in 0..16 {
        ident[i] = s[at + i];
    }
    ident
}

impl ElfHeader {
    pub const SIZE: usize = 52;

    // The header at `at`.
    pub fn new(order: ByteOrder, s: &[u8], at: usize) -> Self
        requires { at + 52 ≤ length s.now }
        ensures { result ≡ elf_at order s.now at }
    {
        let e_ident = identification(s, at);
        ElfHeader {
            e_ident,
            e_type: base_fields::read16(order, s, at + 16),
            e_machine: base_fields::read16(order, s, at + 18),
            e_version: base_fields::read32(order, s, at + 20),
            e_entry: base_fields::read32(order, s, at + 24),
            e_phoff: base_fields::read32(order, s, at + 28),
            e_shoff: base_fields::read32(order, s, at + 32),
            e_flags: base_fields::read32(order, s, at + 36),
            e_ehsize: base_fields::read16(order, s, at + 40),
            e_phentsize: base_fields::read16(order, s, at + 42),
            e_phnum: base_fields::read16(order, s, at + 44),
            e_shentsize: base_fields::read16(order, s, at + 46),
            e_shnum: base_fields::read16(order, s, at + 48),
            e_shstrndx: base_fields::read16(order, s, at + 50),
        }
    }

    // Writes the header at `at`.
    pub fn write(self, order: ByteOrder, s: &mut [u8], at: usize)
        requires { (at + 52 ≤ length s.old) × HalfFields self }
        ensures { s.new ≡ spliced s.old at (elf_bytes order self) }
    {
        let ident = self.e_ident;
        let kinds = [self.e_type, self.e_machine];
        let words = [
            self.e_version,
            self.e_entry,
            self.e_phoff,
            self.e_shoff,
            self.e_flags,
        ];
        let halves = [
            self.e_ehsize,
            self.e_phentsize,
            self.e_phnum,
            self.e_shentsize,
            self.e_shnum,
            self.e_shstrndx,
        ];
        base_fields::write_bytes(s, at, &ident);
        base_fields::write_halves(order, s, at + 16, &kinds);
        base_fields::write_words(order, s, at + 20, &words);
        base_fields::write_halves(order, s, at + 40, &halves);
    }
}
