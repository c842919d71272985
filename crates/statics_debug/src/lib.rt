// The records of the debug section that document 01 reads: four words of the symbolic header, file descriptors, entries; the type and the storage
// class of an entry, and what they mean. Each function equals its definition in specs/Entries.antt.
#![tactic(auto)]

ghost use Rattle.std.specs.Prelude.{◌≡◌, ◌+◌, ◌≤◌, length};
ghost use Rattle.base_scope.specs.Codes.{CODES};
ghost use Rattle.statics_debug.specs.Entries.{TABLES_SIZE, FILE_READ, ENTRY_SIZE, tables_in, file_at, entry_at, entry_type, storage_class, lists_static, opens_scope, closes_scope, storage_code};

use base_fields::ByteOrder;

// How many file descriptors there are, and where the descriptors, the local symbols and their strings stand in the file.
#[derive(Clone, Copy)]
pub struct Tables {
    pub files: u32,
    pub descriptors: u32,
    pub symbols: u32,
    pub strings: u32,
}

impl Tables {
    // The bytes of .mdebug that are read: up to the word at 76.
    pub const SIZE: usize = 80;

    // The four words, from the bytes of .mdebug.
    pub fn new(order: ByteOrder, debug: &[u8]) -> Self
        requires { TABLES_SIZE ≤ length debug.now }
        ensures { result ≡ tables_in order debug.now }
    {
        Tables {
            files: base_fields::read32(order, debug, 72),
            descriptors: base_fields::read32(order, debug, 76),
            symbols: base_fields::read32(order, debug, 36),
            strings: base_fields::read32(order, debug, 60),
        }
    }
}

// What is read of a file descriptor: where its names start among the strings, its first entry and how many it has.
#[derive(Clone, Copy)]
pub struct FileRecord {
    pub names: u32,
    pub first: u32,
    pub count: u32,
}

impl FileRecord {
    // The bytes of a descriptor, and those up to the last word that is read.
    pub const SIZE: usize = 72;

    pub const READ: usize = 24;

    // The descriptor at `at`.
    pub fn new(order: ByteOrder, file: &[u8], at: usize) -> Self
        requires { at + FILE_READ ≤ length file.now }
        ensures { result ≡ file_at order file.now at }
    {
        FileRecord {
            names: base_fields::read32(order, file, at + 8),
            first: base_fields::read32(order, file, at + 16),
            count: base_fields::read32(order, file, at + 20),
        }
    }
}

// An entry: where its name starts among its file's names, its value, and the word of its type and storage class.
#[derive(Clone, Copy)]
pub struct Entry {
    pub name: u32,
    pub value: u32,
    pub bits: u32,
}

impl Entry {
    pub const SIZE: usize = 12;

    // The entry at `at`.
    pub fn new(order: ByteOrder, file: &[u8], at: usize) -> Self
        requires { at + ENTRY_SIZE ≤ length file.now }
        ensures { result ≡ entry_at order file.now at }
    {
        Entry {
            name: base_fields::read32(order, file, at),
            value: base_fields::read32(order, file, at + 4),
            bits: base_fields::read32(order, file, at + 8),
        }
    }
}

// The type of an entry: the high six bits.
pub fn entry_type(bits: u32) -> u32
    ensures { result ≡ entry_type bits }
{
    bits >> 26
}

// The storage class of an entry: the five bits below the type.
pub fn storage_class(bits: u32) -> u32
    ensures { result ≡ storage_class bits }
{
    bits >> 21 & 0x1f
}

// Whether an entry of this type is listed as a static.
pub fn lists_static(kind: u32) -> bool
    ensures { result ≡ lists_static kind }
{
    match kind {
        2 => true,
        14 => true,
        _ => false,
    }
}

// Whether an entry of this type opens a scope.
pub fn opens_scope(kind: u32) -> bool
    ensures { result ≡ opens_scope kind }
{
    match kind {
        6 => true,
        7 => true,
        11 => true,
        14 => true,
        26 => true,
        27 => true,
        28 => true,
        _ => false,
    }
}

// Whether an entry of this type closes a scope.
pub fn closes_scope(kind: u32) -> bool
    ensures { result ≡ closes_scope kind }
{
    kind == 8
}

// The code of the section that a storage class names, 0 where it names none.
pub fn storage_code(class: u32) -> u32
    ensures { (result ≡ storage_code class) × (result ≤ CODES) }
{
    match class {
        1 => base_scope::TEXT,
        2 => base_scope::DATA,
        3 => base_scope::BSS,
        15 => base_scope::RODATA,
        _ => 0,
    }
}
