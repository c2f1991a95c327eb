// Copying a line of the storage to its place.
ghost use Rattle.std.specs.Prelude.{◌≡◌, ◌≤◌, ◌<◌, ◌+◌, ◌*◌, ◌^◌, ℕ, length, slice_get, slice_set, Some};
ghost use Rattle.l1_cache.specs.Filling.{Filling};

use abs_storage::AbsStorage;

fn copy_byte(bytes: &mut [u8], at: usize, storage: &AbsStorage, from: u32)
    requires at { at < length bytes.old }
    requires from { from < length storage.now }
    ensures { (b : ℕ) → slice_get storage.now from ≡ Some b → bytes.new ≡ slice_set bytes.old at b }
{
    bytes[at] = storage.fetch(from).unwrap_or(0);
}

/// Copies a line that lies inside the storage to its place.
pub(crate) fn fill(bytes: &mut [u8], line: u32, storage: &AbsStorage)
    requires bytes { length bytes.old ≡ 16384 }
    requires inside { line * 256 + 256 ≤ length storage.now }
    requires small { line < 2 ^ 24 }
    ensures { Filling 256 line storage.now bytes.old bytes.new }
{
    let place = (line % 64) as usize * 256;
    for k in 0..256 {
        copy_byte(bytes, place + k, storage, line * 256 + k as u32);
    }
}
