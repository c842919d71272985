// Document 01's check of one object, compiled or assembled alike: refusals 2 to 6 with number and place; and the view of an object that has passed it.
#![tactic(auto)]

ghost use Rattle.std.specs.Prelude.{◌≡◌, ◌≤◌};
ghost use Rattle.elf_readers.specs.Readers.{coded_contents};
ghost use Rattle.elf_readers.specs.Bounds.{Headed, Named};
ghost use Rattle.elf_symbols.specs.Symbols.{Tabled};
ghost use Rattle.base_scope.specs.Codes.{CODES};
ghost use Rattle.elf_check.specs.View.{coded_sections, view_of, section_in, has_in, Viewed};
ghost use Rattle.elf_check.specs.Object.{Accepted, refuse, check_tables, check_names, check_of};

use base_fields::ByteOrder;
use elf_symbols::SymbolTable;

// What refuses an object: a refusal's number and place.
#[derive(Clone, Copy)]
pub struct Fault {
    pub number: u32,
    pub place: usize,
}

// The numbers of an accepted object: how many sections it has; the sections of their names, of its symbols and of their names; how many symbols its table says are
// local; the table in hand; the sections of the codes, each the section count where there is none.
#[derive(Clone, Copy)]
pub struct View {
    pub sections: usize,
    pub section_strings: usize,
    pub symtab: usize,
    pub strtab: usize,
    pub locals: usize,
    pub symbols: SymbolTable,
    pub coded: [usize; base_scope::CODE_ENTRIES],
}

impl View {
    // The section of a code, or the section count.
    pub fn section(self, code: u32) -> usize
        requires { (1 ≤ code) × (code ≤ CODES) }
        ensures { result ≡ section_in self code }
    {
        let coded = self.coded;
        coded[code as usize - 1]
    }
}

// Whether an object has a section of a code.
pub fn has_coded(view: View, code: u32) -> bool
    requires { (1 ≤ code) × (code ≤ CODES) }
    ensures { result ≡ has_in view code }
{
    let sections = view.sections;
    view.section(code) < sections
}

// The bytes of its section of a code, as a part of the file: none where there is no such section.
pub fn coded_contents<'a>(order: ByteOrder, file: &'a [u8], view: View, code: u32) -> &'a [u8]
    requires { Viewed order file.now view × (1 ≤ code) × (code ≤ CODES) }
    ensures { result.now ≡ coded_contents order file.now code }
{
    let i = view.section(code);
    let sections = view.sections;
    if i < sections {
        return elf_readers::contents_of(order, file, i);
    }
    &file[0..0]
}

// The sections of the codes, in their order.
fn coded_sections(order: ByteOrder, file: &[u8]) -> [usize; base_scope::CODE_ENTRIES]
    requires { Named order file.now }
    ensures { result ≡ coded_sections order file.now }
{
    let mut coded = [0usize; base_scope::CODE_ENTRIES];
    for i in 0..base_scope::CODE_ENTRIES {
        coded[i] = elf_readers::coded_section(order, file, (i + 1) as u32);
    }
    coded
}

// The view of an object whose headers, names and symbols have been checked.
pub fn view_of(order: ByteOrder, file: &[u8]) -> View
    requires { Named order file.now × Tabled order file.now }
    ensures { result ≡ view_of order file.now }
{
    let symtab = elf_symbols::symtab_index(order, file);
    let table = elf_readers::section_at(order, file, symtab);
    let symbols = elf_symbols::symbol_table(order, file);
    let coded = coded_sections(order, file);
    View {
        sections: elf_readers::section_count(order, file),
        section_strings: base_fields::read16(order, file, 50) as usize,
        symtab,
        strtab: table.sh_link as usize,
        locals: table.sh_info as usize,
        symbols,
        coded,
    }
}

// What a test found, under its number.
fn refuse(number: u32, found: Option<usize>) -> Result<(), Fault>
    ensures { result ≡ refuse number found Accepted }
{
    match found {
        None => Ok(()),
        Some(place) => Err(Fault { number, place }),
    }
}

// Refusals 5 and 6, after the headers and names have passed.
fn check_tables(order: ByteOrder, file: &[u8]) -> Result<(), Fault>
    requires { Named order file.now }
    ensures { result ≡ check_tables order file.now }
{
    let symbols = elf_symbol_faults::symbol_fault(order, file);
    refuse(base_scope::SYMBOL_TABLE, symbols)?;
    let relocations = elf_relocations::relocation_fault(order, file);
    refuse(base_scope::RELOCATION_TABLE, relocations)
}

// Refusals 4 and 3 by name, then 5 and 6, after the headers have passed.
fn check_names(order: ByteOrder, file: &[u8]) -> Result<(), Fault>
    requires { Headed order file.now }
    ensures { result ≡ check_names order file.now }
{
    let named = elf_sections::name_fault(order, file);
    refuse(base_scope::SECTION_NAME, named)?;
    let typed = elf_sections::type_fault(order, file);
    refuse(base_scope::SECTION_HEADER, typed)?;
    check_tables(order, file)
}

// All of the check, in the byte order that the file states.
pub fn check(file: &[u8]) -> Result<(), Fault>
    ensures { result ≡ check_of file.now }
{
    let order = elf_readers::order_of(file);
    let header = elf_header::header_fault(order, file);
    refuse(base_scope::FILE_HEADER, header)?;
    let sections = elf_sections::section_fault(order, file);
    refuse(base_scope::SECTION_HEADER, sections)?;
    check_names(order, file)
}
