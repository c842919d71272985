// Relocation entries, with an addend (RELA) or with none (REL).
ghost use Rattle.std.specs.Prelude.{◌≡◌, cond, ◌+◌, ◌≤◌, length};
ghost use Rattle.base_lists.specs.Windows.{spliced};
ghost use Rattle.base_fields.specs.Layouts.{width_of};
ghost use Rattle.elf_records.specs.Relocation.{relocation_layout, relocation_at, relocation_bytes, has_addend};

use base_fields::ByteOrder;

#[derive(Clone, Copy)]
pub struct RelocationEntry {
    pub r_offset: u32,
    pub r_info: u32,
    pub r_addend: Option<u32>,
}

impl RelocationEntry {
    // The entry at `at` of a table with addends, or with none.
    pub fn new(order: ByteOrder, rela: bool, s: &[u8], at: usize) -> Self
        requires { at + width_of (relocation_layout rela) ≤ length s.now }
        ensures { result ≡ relocation_at order rela s.now at }
    {
        if rela {
            return RelocationEntry {
                r_offset: base_fields::read32(order, s, at),
                r_info: base_fields::read32(order, s, at + 4),
                r_addend: Some(base_fields::read32(order, s, at + 8)),
            };
        }
        RelocationEntry {
            r_offset: base_fields::read32(order, s, at),
            r_info: base_fields::read32(order, s, at + 4),
            r_addend: None,
        }
    }

    // Writes the entry at `at`.
    pub fn write(self, order: ByteOrder, s: &mut [u8], at: usize)
        requires { at + width_of (relocation_layout (has_addend self)) ≤ length s.old }
        ensures { s.new ≡ spliced s.old at (relocation_bytes order self) }
    {
        let addend = self.r_addend;
        match addend {
            Some(value) => {
                base_fields::write32(order, s, at, self.r_offset);
                base_fields::write32(order, s, at + 4, self.r_info);
                base_fields::write32(order, s, at + 8, value);
            }
            None => {
                base_fields::write32(order, s, at, self.r_offset);
                base_fields::write32(order, s, at + 4, self.r_info);
            }
        }
    }
}
