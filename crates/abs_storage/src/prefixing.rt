ghost use Rattle.std.specs.Prelude.{◌≡◌};
ghost use Rattle.esa_model.specs.Access.{absolute as absolute_of};

/// The absolute address of a real one: prefixing exchanges real page 0 and the page that bits 1 to
/// 19 of the prefix name. Source: Principles of Operation, chapter on storage (prefixing).
pub fn absolute(prefix: u32, real: u32) -> u32
    ensures { result ≡ absolute_of prefix real }
{
    let page = prefix % 0x8000_0000 / 4096;
    if real / 4096 == 0 {
        page * 4096 + real % 4096
    } else if real / 4096 == page {
        real % 4096
    } else {
        real
    }
}
