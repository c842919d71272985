// The .reginfo of the result: A's ORed into C's, byte by byte, equal to `joined` of specs/Reginfo.antt (document 01, "Merge").
#![tactic(auto)]

ghost use Rattle.std.specs.Prelude.{◌≡◌, ◌+◌, ◌≤◌, ◌<◌, length};
ghost use Rattle.base_lists.specs.Windows.{spliced};
ghost use Rattle.copy_registers.specs.Reginfo.{joined_byte, joined};

// Byte k of the joined section; `compiled` and `assembled` are the two sections' bytes.
fn joined_byte(compiled: &[u8], assembled: &[u8], k: usize) -> u8
    requires { k < length compiled.now }
    ensures { result ≡ joined_byte compiled.now assembled.now k }
{
    if k < assembled.len() {
        return compiled[k] | assembled[k];
    }
    compiled[k]
}

// Writes the joined section into a slice.
pub fn write_reginfo(out: &mut [u8], at: usize, compiled: &[u8], assembled: &[u8])
    requires { at + length compiled.now ≤ length out.old }
    ensures { out.new ≡ spliced out.old at (joined compiled.now assembled.now) }
{
    for i in 0..compiled.len() {
        out[at + i] = joined_byte(compiled, assembled, i);
    }
}
