// The entries of symbols as they stand in the result, from the objects, the words of the glabels and the section and the value that the row of an id has. Each function equals
// its definition in specs/; proofs/Entries.antt and proofs/Ids.antt say that these are `finished`, `entry_a` and `entry_of` of the crate symbols_ids.
// Document 01, "Symbols" and "Carrying".
#![tactic(auto)]

ghost use Rattle.std.specs.Prelude.{◌≡◌, cond, ◌+◌, ◌*◌, ◌≤◌, ◌<◌, length};
ghost use Rattle.base_scope.specs.Elf.{STT_OBJECT};
ghost use Rattle.base_scope.specs.Limits.{FILE_LIMIT, STATIC_LIMIT, STATIC_ROW};
ghost use Rattle.base_packed.specs.Packed.{type_of};
ghost use Rattle.elf_symbols.specs.Symbols.{symbol_count, symbol, Table};
ghost use Rattle.symbols_names.specs.of_symbols_taken.Taken.{is_placed_in};
ghost use Rattle.statics_table.specs.Table.{static_in, statics_in};
ghost use Rattle.statics_symbols.specs.Entries.{symbol_of_static};
ghost use Rattle.symbols_names.specs.of_symbols_ids.Entries.{finished};
ghost use Rattle.symbols_names.specs.of_symbols_ids.Ids.{name_of};
ghost use Rattle.symbols_names.specs.Names.{first_in};
ghost use Rattle.symbols_entries.specs.Entries.{finished_as, type_by, size_by, word_by, moved_entry, assembled_in, AtAssembled};
ghost use Rattle.symbols_entries.specs.Ids.{strings_in, origin_in, EntriesReady};

use base_fields::ByteOrder;
use elf_records::SymbolEntry;
use elf_symbols::SymbolTable;
use statics_table::Static;
pub use symbols_names;
use symbols_names::Sources;
pub use symbols_names::symbols_taken;

// The type of an entry of the result: `_gp_disp` is an object.
fn final_type(gp_disp: bool, info: u8) -> u8
    ensures { (result ≡ cond gp_disp STT_OBJECT (type_of info)) × (result < 16) }
{
    if gp_disp {
        return base_scope::STT_OBJECT;
    }
    base_packed::type_of(info)
}

// What every entry goes through, whether its name is `_gp_disp` or not: `finished` (proofs/Entries.antt, `finished_is`).
pub fn finish(gp_disp: bool, e: SymbolEntry) -> SymbolEntry
    ensures { result ≡ finished_as gp_disp e }
{
    let binding = base_packed::binding_of(e.st_info);
    let kind = final_type(gp_disp, e.st_info);
    SymbolEntry {
        st_name: e.st_name,
        st_value: e.st_value,
        st_size: e.st_size,
        st_info: base_packed::symbol_info(binding, kind),
        st_other: base_packed::visibility_of(e.st_other),
        st_shndx: e.st_shndx,
    }
}

// The type of a symbol by its word: a glabel is a function.
pub fn glabel_type(word: u32, kind: u8) -> u8
    requires { kind < 16 }
    ensures { (result ≡ type_by word kind) × (result < 16) }
{
    if word % 2 == 1 {
        return base_scope::STT_FUNC;
    }
    kind
}

// The size of a symbol by its word: a glabel has the one that a block gives it.
pub fn glabel_size(word: u32, own: u32) -> u32
    ensures { result ≡ size_by word own }
{
    if word % 2 == 1 {
        if word / 2 == 0 {
            return own;
        }
        return word / 2 - 1;
    }
    own
}

// Whether a section index is a section's.
fn is_placed(index: u32) -> bool
    ensures { result ≡ is_placed_in index }
{
    base_scope::both(index != base_scope::SHN_UNDEF, index != base_scope::SHN_ABS)
}

// The word of symbol k; none outside of sections.
fn word_of(marks: &[u8], index: u32, k: usize) -> u32
    requires { 4 * k + 4 ≤ length marks.now }
    ensures { result ≡ word_by marks.now index k }
{
    if is_placed(index) {
        return base_fields::read32(ByteOrder::Big, marks, 4 * k);
    }
    0
}

// An entry of the assembled object, moved.
fn moved_entry(base: u32, section: u32, value: u32, word: u32, e: SymbolEntry) -> SymbolEntry
    requires { e.st_name + base < 4294967296 }
    ensures { result ≡ moved_entry base section value word e }
{
    let binding = base_packed::binding_of(e.st_info);
    let kind = glabel_type(word, base_packed::type_of(e.st_info));
    SymbolEntry {
        st_name: e.st_name + base,
        st_value: value,
        st_size: glabel_size(word, e.st_size),
        st_info: base_packed::symbol_info(binding, kind),
        st_other: e.st_other,
        st_shndx: section,
    }
}

// The entry of the assembled object's symbol k: `entry_a` where `base` is the length of the compiled object's strings, and section, value and word are its own
// (proofs/Entries.antt, `entry_a_lem`).
pub fn assembled_entry(
    order: ByteOrder,
    assembled: &[u8],
    table: SymbolTable,
    base: u32,
    section: u32,
    value: u32,
    marks: &[u8],
    k: usize,
) -> SymbolEntry
    requires { AtAssembled order assembled.now table base marks.now k }
    ensures { result ≡ assembled_in order assembled.now base section value marks.now k }
{
    let at = table.at;
    let e = elf_symbols::symbol_at(order, assembled, at, k);
    let word = word_of(marks, e.st_shndx, k);
    moved_entry(base, section, value, word, e)
}

// The entry of the compiled object's symbol k: the symbol itself.
pub fn compiled_entry(
    order: ByteOrder,
    compiled: &[u8],
    table: SymbolTable,
    k: usize,
) -> SymbolEntry
    requires { Table order compiled.now table × (k < symbol_count order compiled.now) }
    ensures { result ≡ symbol order compiled.now k }
{
    let at = table.at;
    elf_symbols::symbol_at(order, compiled, at, k)
}

// The entry of static k: `entry_static` where `base` is the length of both objects' strings and `section` is the one of its code.
pub fn static_entry(statics: &[u8], mode: u32, base: u32, section: u32, k: usize) -> SymbolEntry
    requires { (STATIC_ROW * k + STATIC_ROW ≤ length statics.now) × (k < STATIC_LIMIT) × (base + (static_in statics.now k).offset < 4294967296) }
    ensures { result ≡ symbol_of_static section mode base (static_in statics.now k) }
{
    statics_symbols::static_symbol(mode, base, section, Static::read(statics, k))
}

// How many bytes the strings of a table have.
fn strings_length(table: SymbolTable) -> u32
    requires { (table.names ≤ table.end) × (table.end ≤ FILE_LIMIT) }
    ensures { (result ≡ strings_in table) × (result ≤ FILE_LIMIT) }
{
    (table.end - table.names) as u32
}

// The entry of an id before it is finished, by where it comes from.
fn origin_entry(
    order: ByteOrder,
    compiled: &[u8],
    assembled: &[u8],
    statics: &[u8],
    marks: &[u8],
    sources: Sources,
    mode: u32,
    section: u32,
    value: u32,
    id: usize,
) -> SymbolEntry
    requires { EntriesReady order compiled.now assembled.now statics.now marks.now sources × (id < first_in sources + sources.statics) }
    ensures { result ≡ origin_in order compiled.now assembled.now statics.now marks.now sources mode section value id }
{
    let own = sources.compiled;
    let other = sources.assembled;
    let first = own.count;
    if id < first {
        return compiled_entry(order, compiled, own, id);
    }
    let base = strings_length(own);
    let behind = first + other.count;
    if id < behind {
        return assembled_entry(
            order,
            assembled,
            other,
            base,
            section,
            value,
            marks,
            id - first,
        );
    }
    let both = base + strings_length(other);
    static_entry(statics, mode, both, section, id - behind)
}

// The entry of an id: `entry_of` where section and value are those of its row (proofs/Ids.antt, `entry_of_lem`).
pub fn entry_of_id<'a>(
    order: ByteOrder,
    compiled: &'a [u8],
    assembled: &'a [u8],
    statics: &[u8],
    marks: &[u8],
    sources: Sources,
    mode: u32,
    section: u32,
    value: u32,
    id: usize,
) -> SymbolEntry
    requires { EntriesReady order compiled.now assembled.now statics.now marks.now sources × (id < first_in sources + sources.statics) }
    ensures { result ≡ finished (name_of order compiled.now assembled.now (statics_in statics.now sources.statics) id)
        (origin_in order compiled.now assembled.now statics.now marks.now sources mode section value id) }
{
    let kind = symbols_names::name_kind(order, compiled, assembled, statics, sources, id);
    let e = origin_entry(
        order, compiled, assembled, statics, marks, sources, mode, section, value, id,
    );
    finish(kind.gp_disp, e)
}
