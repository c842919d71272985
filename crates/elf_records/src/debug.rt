// The symbolic header of the debug section.
ghost use Rattle.std.specs.Prelude.{◌≡◌, ◌+◌, ◌≤◌, ◌<◌, length};
ghost use Rattle.base_lists.specs.Windows.{spliced};
ghost use Rattle.elf_records.specs.Debug.{debug_at, debug_bytes};

use base_fields::ByteOrder;

// magic, vstamp, and 23 words: specs/Debug.antt names them in order.
#[derive(Clone, Copy)]
pub struct Hdrr {
    pub magic: u32,
    pub vstamp: u32,
    pub words: [u32; 23],
}

impl Hdrr {
    pub const SIZE: usize = 96;

    // The header at `at`.
    pub fn new(order: ByteOrder, s: &[u8], at: usize) -> Self
        requires { at + 96 ≤ length s.now }
        ensures { result ≡ debug_at order s.now at }
    {
        let magic = base_fields::read16(order, s, at);
        let vstamp = base_fields::read16(order, s, at + 2);
        let mut words = [0u32; 23];
        for i in 0..23 {
            words[i] = base_fields::read32(order, s, at + 4 + 4 * i);
        }
        Hdrr {
            magic,
            vstamp,
            words,
        }
    }

    // Writes the header at `at`.
    pub fn write(self, order: ByteOrder, s: &mut [u8], at: usize)
        requires { (at + 96 ≤ length s.old) × (self.magic < 65536) × (self.vstamp < 65536) }
        ensures { s.new ≡ spliced s.old at (debug_bytes order self) }
    {
        let words = self.words;
        base_fields::write16(order, s, at, self.magic);
        base_fields::write16(order, s, at + 2, self.vstamp);
        base_fields::write_words(order, s, at + 4, &words);
    }
}
