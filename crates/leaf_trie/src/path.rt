//! The bytes of a key, from the first of its source to the last of its second number.
//!
//! 1. In this order bytes compare as keys do.

ghost use Rattle.std.specs.Prelude.{◌≡◌, ◌<◌};
ghost use Rattle.leaf_trie.specs.Path.{digit};
ghost use Rattle.graph_model.specs.declared.row.Key.{Key};

use graph_model::Key;

/// The byte of the key at a level: level 15 has the first of `src`, level 0 the last of `second`.
pub fn byte_of(key: Key, level: u8) -> u8
    requires { level < 16 }
    ensures { result ≡ digit level key }
{
    byte_among(key.src, key.second, level)
}

fn byte_among(src: u64, second: u64, level: u8) -> u8
    requires { level < 16 }
    ensures { result ≡ digit level (record { src = src; second = second }) }
{
    if level < 8 {
        ((second >> (8 * level)) % 256) as u8
    } else {
        ((src >> (8 * (level - 8))) % 256) as u8
    }
}
