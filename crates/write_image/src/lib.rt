// Where a section of the written object starts: the next multiple of its alignment (specs/Layout.antt). The definitions of the layout and of the whole object stand beside it.
#![tactic(auto)]

ghost use Rattle.std.specs.Prelude.{◌≡◌, ◌+◌, ◌^◌, ◌<◌};
ghost use Rattle.write_image.specs.Layout.{aligned_to};

// The next multiple of an alignment; 0 and 1 ask for none.
pub fn aligned_to(end: usize, align: usize) -> usize
    requires { end + align < 2 ^ 64 }
    ensures { result ≡ aligned_to end align }
{
    if align == 0 {
        return end;
    }
    (end + (align - 1)) / align * align
}
