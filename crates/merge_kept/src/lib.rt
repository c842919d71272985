// What stays of an object's sections when the drop flag is set: `kept` of specs/Kept.antt.
#![tactic(auto)]

ghost use Rattle.std.specs.Prelude.{◌≡◌, ◌<◌};
ghost use Rattle.base_lists.specs.Ranges.{past_last};
ghost use Rattle.elf_readers.specs.Readers.{section_count};
ghost use Rattle.elf_readers.specs.Bounds.{Headed};
ghost use Rattle.merge_kept.specs.Kept.{stays, kept};

use base_fields::ByteOrder;

// Whether section i is of neither type that is dropped.
fn is_kept(order: ByteOrder, file: &[u8], i: usize) -> bool
    requires { Headed order file.now × (i < section_count order file.now) }
    ensures { result ≡ stays order file.now i }
{
    let h = elf_readers::section_at(order, file, i);
    if h.sh_type == base_scope::SHT_MIPS_GPTAB {
        return false;
    }
    h.sh_type != base_scope::SHT_MIPS_DEBUG
}

// One past the last section of neither type.
fn past_kept(order: ByteOrder, file: &[u8]) -> usize
    requires { Headed order file.now }
    ensures { result ≡ past_last (stays order file.now) (section_count order file.now) }
{
    let n = elf_readers::section_count(order, file);
    for i in (0..n).rev() {
        if is_kept(order, file, i) {
            return i + 1;
        }
    }
    0
}

// How many sections stay.
pub fn kept_count(order: ByteOrder, file: &[u8], flag: u32) -> usize
    requires { Headed order file.now }
    ensures { result ≡ kept order file.now flag }
{
    if flag == 1 {
        return past_kept(order, file);
    }
    elf_readers::section_count(order, file)
}
