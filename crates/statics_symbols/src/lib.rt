// The symbols of statics. Each function equals its definition in specs/Entries.antt.
#![tactic(auto)]

ghost use Rattle.std.specs.Prelude.{◌≡◌, ◌+◌, ◌<◌};
ghost use Rattle.statics_symbols.specs.Entries.{symbol_of_static};

use elf_records::SymbolEntry;
use statics_table::Static;

// The symbol of a static, whose written name starts `s.offset` behind `base` in the string table, in a section. With C's section of its code it is `static_symbol`; by C's view
// that is proofs/Entries.antt, `static_symbol_lem`.
pub fn static_symbol(mode: u32, base: u32, section: u32, s: Static) -> SymbolEntry
    requires { base + s.offset < 4294967296 }
    ensures { result ≡ symbol_of_static section mode base s }
{
    let binding = statics_names::static_binding(mode);
    let kind = statics_names::static_type(s);
    SymbolEntry {
        st_name: base + s.offset,
        st_value: s.value,
        st_size: 0,
        st_info: base_packed::symbol_info(binding, kind),
        st_other: 0,
        st_shndx: section,
    }
}
