// Section headers.
ghost use Rattle.std.specs.Prelude.{◌≡◌, ◌+◌, ◌≤◌, length};
ghost use Rattle.base_lists.specs.Windows.{spliced};
ghost use Rattle.elf_records.specs.Section.{section_at, section_bytes};

use base_fields::ByteOrder;

#[derive(Clone, Copy)]
pub struct SectionHeader {
    pub sh_name: u32,
    pub sh_type: u32,
    pub sh_flags: u32,
    pub sh_addr: u32,
    pub sh_offset: u32,
    pub sh_size: u32,
    pub sh_link: u32,
    pub sh_info: u32,
    pub sh_addralign: u32,
    pub sh_entsize: u32,
}

impl SectionHeader {
    pub const SIZE: usize = 40;

    // The header at `at`.
    pub fn new(order: ByteOrder, s: &[u8], at: usize) -> Self
        requires { at + 40 ≤ length s.now }
        ensures { result ≡ section_at order s.now at }
    {
        SectionHeader {
            sh_name: base_fields::read32(order, s, at),
            sh_type: base_fields::read32(order, s, at + 4),
            sh_flags: base_fields::read32(order, s, at + 8),
            sh_addr: base_fields::read32(order, s, at + 12),
            sh_offset: base_fields::read32(order, s, at + 16),
            sh_size: base_fields::read32(order, s, at + 20),
            sh_link: base_fields::read32(order, s, at + 24),
            sh_info: base_fields::read32(order, s, at + 28),
            sh_addralign: base_fields::read32(order, s, at + 32),
            sh_entsize: base_fields::read32(order, s, at + 36),
        }
    }

    // Writes the header at `at`.
    pub fn write(self, order: ByteOrder, s: &mut [u8], at: usize)
        requires { at + 40 ≤ length s.old }
        ensures { s.new ≡ spliced s.old at (section_bytes order self) }
    {
        let words = [
            self.sh_name,
            self.sh_type,
            self.sh_flags,
            self.sh_addr,
            self.sh_offset,
            self.sh_size,
            self.sh_link,
            self.sh_info,
            self.sh_addralign,
            self.sh_entsize,
        ];
        base_fields::write_words(order, s, at, &words);
    }
}
