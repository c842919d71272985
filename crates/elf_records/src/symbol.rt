// Symbol table entries.
ghost use Rattle.std.specs.Prelude.{◌≡◌, ◌+◌, ◌≤◌, ◌<◌, length};
ghost use Rattle.base_lists.specs.Windows.{spliced};
ghost use Rattle.elf_records.specs.Symbol.{symbol_at, symbol_bytes};

use base_fields::ByteOrder;

#[derive(Clone, Copy)]
pub struct SymbolEntry {
    pub st_name: u32,
    pub st_value: u32,
    pub st_size: u32,
    pub st_info: u8,
    pub st_other: u8,
    pub st_shndx: u32,
}

impl SymbolEntry {
    pub const SIZE: usize = 16;

    // The entry at `at`.
    pub fn new(order: ByteOrder, s: &[u8], at: usize) -> Self
        requires { at + 16 ≤ length s.now }
        ensures { result ≡ symbol_at order s.now at }
    {
        SymbolEntry {
            st_name: base_fields::read32(order, s, at),
            st_value: base_fields::read32(order, s, at + 4),
            st_size: base_fields::read32(order, s, at + 8),
            st_info: base_fields::read8(s, at + 12),
            st_other: base_fields::read8(s, at + 13),
            st_shndx: base_fields::read16(order, s, at + 14),
        }
    }

    // Writes the entry at `at`.
    pub fn write(self, order: ByteOrder, s: &mut [u8], at: usize)
        requires { (at + 16 ≤ length s.old) × (self.st_shndx < 65536) }
        ensures { s.new ≡ spliced s.old at (symbol_bytes order self) }
    {
        base_fields::write32(order, s, at, self.st_name);
        base_fields::write32(order, s, at + 4, self.st_value);
        base_fields::write32(order, s, at + 8, self.st_size);
        base_fields::write8(s, at + 12, self.st_info);
        base_fields::write8(s, at + 13, self.st_other);
        base_fields::write16(order, s, at + 14, self.st_shndx);
    }
}
