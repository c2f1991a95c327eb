// Numbers behind others, where there is room for them; each has its most significant byte first.
ghost use Rattle.std.specs.Prelude.{◌≡◌, ◌+◌, ◌*◌, ◌++◌, ◌≤◌, length};
ghost use Rattle.std.specs.List.{flat_map};
ghost use Rattle.std.specs.Vec.{vec_capacity};
ghost use Rattle.byteorder.specs.Endian.{big_bytes};

/// Puts bytes.
pub fn put_all(room: &mut Vec<u8>, bytes: &[u8])
    requires { length room.old.items + length bytes.now ≤ vec_capacity room.old }
    ensures items { room.new.items ≡ room.old.items ++ bytes.now }
    ensures capacity { vec_capacity room.old ≤ vec_capacity room.new }
    ensures length { length room.new.items ≡ length room.old.items + length bytes.now }
{
    match room.extend_from_slice(bytes) {
        Ok(()) => {}
        Err(_) => {}
    }
}

fn put_one(room: &mut Vec<u8>, byte: u8)
    requires { length room.old.items + 1 ≤ vec_capacity room.old }
    ensures items { room.new.items ≡ room.old.items ++ big_bytes 1 byte }
    ensures capacity { vec_capacity room.old ≤ vec_capacity room.new }
    ensures length { length room.new.items ≡ length room.old.items + 1 }
{
    put_all(room, &[byte]);
}

/// Puts numbers of one byte each.
pub fn put_bytes(room: &mut Vec<u8>, bytes: &[u8])
    requires { length room.old.items + length bytes.now ≤ vec_capacity room.old }
    ensures items { room.new.items ≡ room.old.items ++ flat_map (λ n. big_bytes 1 n) bytes.now }
    ensures capacity { vec_capacity room.old ≤ vec_capacity room.new }
    ensures length { length room.new.items ≡ length room.old.items + length bytes.now }
{
    'bytes: for byte in bytes {
        put_one(room, *byte);
    }
}

/// Puts a number in four bytes.
pub fn put_four(room: &mut Vec<u8>, number: u32)
    requires { length room.old.items + 4 ≤ vec_capacity room.old }
    ensures items { room.new.items ≡ room.old.items ++ big_bytes 4 number }
    ensures capacity { vec_capacity room.old ≤ vec_capacity room.new }
    ensures length { length room.new.items ≡ length room.old.items + 4 }
{
    put_all(room, &number.to_be_bytes());
}

/// Puts the last seven bytes of a number.
pub fn put_seven(room: &mut Vec<u8>, number: u64)
    requires { length room.old.items + 7 ≤ vec_capacity room.old }
    ensures items { room.new.items ≡ room.old.items ++ big_bytes 7 number }
    ensures capacity { vec_capacity room.old ≤ vec_capacity room.new }
    ensures length { length room.new.items ≡ length room.old.items + 7 }
{
    put_all(room, &number.to_be_bytes()[1..]);
}

/// Puts numbers of eight bytes each.
pub fn put_words(room: &mut Vec<u8>, words: &[u64])
    requires { length room.old.items + 8 * length words.now ≤ vec_capacity room.old }
    ensures items { room.new.items ≡ room.old.items ++ flat_map (λ n. big_bytes 8 n) words.now }
    ensures capacity { vec_capacity room.old ≤ vec_capacity room.new }
    ensures length { length room.new.items ≡ length room.old.items + 8 * length words.now }
{
    'words: for word in words {
        put_all(room, &word.to_be_bytes());
    }
}

/// Puts numbers of 16 bytes each.
pub fn put_stored(room: &mut Vec<u8>, words: &[u128])
    requires { length room.old.items + 16 * length words.now ≤ vec_capacity room.old }
    ensures items { room.new.items ≡ room.old.items ++ flat_map (λ n. big_bytes 16 n) words.now }
    ensures capacity { vec_capacity room.old ≤ vec_capacity room.new }
    ensures length { length room.new.items ≡ length room.old.items + 16 * length words.now }
{
    'words: for word in words {
        put_all(room, &word.to_be_bytes());
    }
}
