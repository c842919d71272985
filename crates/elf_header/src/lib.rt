// Refusal 2: the first field of an object's file header that has another value than document 01 asks. Each function equals its definition in specs/.
#![tactic(auto)]

ghost use Rattle.std.specs.Prelude.{◌≡◌};
ghost use Rattle.elf_header.specs.FileHeader.{field_fault, header_fault};

use base_fields::ByteOrder;
use elf_records::ElfHeader;

// The offset of the first of the twelve fields that has another value than document 01 asks.
fn field_fault(h: ElfHeader) -> Option<usize>
    ensures { result ≡ field_fault h }
{
    let ident = h.e_ident;
    let r = None;
    let r = base_scope::expected(h.e_shstrndx != 0, 50, r);
    let r = base_scope::expected(h.e_shentsize == 40, 46, r);
    let r = base_scope::expected(h.e_shoff != 0, 32, r);
    let r = base_scope::expected(h.e_phoff == 0, 28, r);
    let r = base_scope::expected(h.e_machine == base_scope::EM_MIPS, 18, r);
    let r = base_scope::expected(h.e_type == base_scope::ET_REL, 16, r);
    let r = base_scope::expected(ident[5] == base_scope::ELFDATA2MSB, 5, r);
    let r = base_scope::expected(ident[4] == base_scope::ELFCLASS32, 4, r);
    let r = base_scope::expected(ident[3] == 0x46, 3, r);
    let r = base_scope::expected(ident[2] == 0x4c, 2, r);
    let r = base_scope::expected(ident[1] == 0x45, 1, r);
    base_scope::expected(ident[0] == 0x7f, 0, r)
}

// Refusal 2.
pub fn header_fault(order: ByteOrder, file: &[u8]) -> Option<usize>
    ensures { result ≡ header_fault order file.now }
{
    if file.len() < ElfHeader::SIZE {
        return Some(file.len());
    }
    field_fault(ElfHeader::new(order, file, 0))
}
