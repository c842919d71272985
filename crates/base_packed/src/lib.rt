// What shares a word: r_info, st_info and st_other, taken apart by shift and mask and joined again; the three kinds of symbol index; the
// shift of a debug offset. Each equals its line of specs/Packed.antt.
#![tactic(auto)]

ghost use Rattle.std.specs.Prelude.{◌≡◌, ◌^◌, ◌<◌};
ghost use Rattle.base_packed.specs.Packed.{symbol_of, kind_of, relocation_info, binding_of, type_of, symbol_info, visibility_of, shifted};

// An index into the compiled object's symbol table.
#[derive(Clone, Copy)]
pub struct CompiledSymbol(pub u32);

// An index into the assembled object's symbol table.
#[derive(Clone, Copy)]
pub struct AssembledSymbol(pub u32);

// An index into the merged symbol table: the only kind that an r_info is joined from.
#[derive(Clone, Copy)]
pub struct MergedSymbol(pub u32);

// The symbol of an r_info: what stands above bit 8.
fn symbol_of(info: u32) -> u32
    ensures { result ≡ symbol_of info }
{
    info >> 8
}

// The symbol of a relocation of the compiled object.
pub fn compiled_symbol(info: u32) -> CompiledSymbol
    ensures { result.0 ≡ symbol_of info }
{
    CompiledSymbol(symbol_of(info))
}

// The symbol of a relocation of the assembled object.
pub fn assembled_symbol(info: u32) -> AssembledSymbol
    ensures { result.0 ≡ symbol_of info }
{
    AssembledSymbol(symbol_of(info))
}

// The kind of an r_info: its low eight bits.
pub fn kind_of(info: u32) -> u32
    ensures { result ≡ kind_of info }
{
    info & 0xff
}

// The r_info of a merged symbol and a kind.
pub fn relocation_info(symbol: MergedSymbol, kind: u32) -> u32
    requires { (symbol.0 < 2 ^ 24) × (kind < 2 ^ 8) }
    ensures { result ≡ relocation_info symbol.0 kind }
{
    symbol.0 << 8 | kind
}

// The binding of a st_info: its high four bits.
pub fn binding_of(info: u8) -> u8
    ensures { result ≡ binding_of info }
{
    info >> 4
}

// The type of a st_info: its low four bits.
pub fn type_of(info: u8) -> u8
    ensures { result ≡ type_of info }
{
    info & 0xf
}

// The st_info of a binding and a type.
pub fn symbol_info(binding: u8, kind: u8) -> u8
    requires { (binding < 2 ^ 4) × (kind < 2 ^ 4) }
    ensures { result ≡ symbol_info binding kind }
{
    binding << 4 | kind
}

// What is kept of st_other: its low two bits.
pub fn visibility_of(other: u8) -> u8
    ensures { result ≡ visibility_of other }
{
    other & 0x3
}

// An offset that moves with its section from `old` to `new`.
pub fn shifted_offset(offset: u32, old: u32, new: u32) -> u32
    ensures { result ≡ shifted offset old new }
{
    let by = std::num::wrapping_sub_u32(new, old);
    std::num::wrapping_add_u32(offset, by)
}
